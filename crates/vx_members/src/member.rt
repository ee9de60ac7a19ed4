//! The sides of a method, and the side of a predicate.

ghost use Rattle.std.specs.Prelude.{◌≡◌, [], None, IfOk, false, map};
ghost use Rattle.vx_resolved.specs.Resolved.{assertion, block, declaration, method};
ghost use Rattle.vx_ast.specs.Syntax.{joined as joined_of};
ghost use Rattle.vx_rules.specs.Members as rule;
ghost use Rattle.vx_rules.specs.Members.{rules};
ghost use Rattle.vx_rules.specs.Rules.{produce};
ghost use Rattle.vx_rules.specs.States.{State, declare_all, with_heap};
ghost use Rattle.vx_stack.specs.Stack.{going, producing, side_tree, Stepped};
ghost use Rattle.vx_states.specs.SymStates.{state as state_of};
ghost use Rattle.vx_rules.specs.Trees as tree;
ghost use Rattle.vx_terms.specs.Build.{whole_amount};
ghost use Rattle.vx_resolved.specs.Settled.{settled};

use std::alloc::{AllocError, Global};
use std::rc::Rc;
use vx_resolved::{Assertion, Block, Declaration, Method, Settled};
use vx_rules::Code;
use vx_stack::{Codes, Conts, Frame, Hole, Move, Next, Production, Side, joined};
use vx_states::SymState;

/// The side of the postcondition by itself: what is produced, how, in which state, and its end.
#[derive(Drop)]
pub struct Promise {
    pub all: Rc<Assertion>,
    pub production: Rc<Production>,
    pub state: SymState,
    pub finish: Rc<Next>,
}

/// The parameters as they are, fresh returns, and no chunks.
fn promise_state(alloc: Global, m: &Method, state: SymState) -> Result<SymState, AllocError>
    ensures { IfOk result (λ s. state_of s ≡ rule.with_new_returns (method m.now) (with_heap [] (state_of state))) }
{
    let mut state = state;
    state.clear_heap(alloc)?;
    state.leave(m.parameters.len());
    state.declare_all(alloc, &m.returns)?;
    Ok(state)
}

/// The postcondition by itself, over the parameters as they are and fresh returns, with no chunks.
pub fn make_promise(
    alloc: Global,
    program: &Settled,
    m: &Method,
    state: SymState,
) -> Result<Promise, AllocError>
    ensures { IfOk result (λ r. producing (settled program.now) (assertion r.all.value) r.production.value (state_of r.state)
        (going (settled program.now) r.finish.value) ≡ rule.promise_side (settled program.now) (rules (settled program.now)) (method m.now) (state_of state)) }
{
    let _program = program;
    let state = promise_state(alloc, m, state)?;
    let finish = Rc::new(alloc, Next::Finish)?;
    let all = joined(alloc, m.place, &m.postconditions)?;
    let production = Production::as_written(alloc)?;
    Ok(Promise {
        all,
        production,
        state,
        finish,
    })
}

/// The side of a method's postcondition.
fn promise_side(
    alloc: Global,
    program: &Settled,
    m: &Method,
    state: SymState,
) -> Result<Side, AllocError>
    ensures { IfOk result (λ side. side_tree (settled program.now) side ≡ rule.promise_side (settled program.now) (rules (settled program.now)) (method m.now) (state_of state)) }
{
    let promise = make_promise(alloc, program, m, state)?;
    let next = Next::Produce(promise.all, promise.production, promise.finish);
    let next = Rc::new(alloc, next)?;
    Ok(Side {
        frame: Frame::Go(next),
        state: promise.state,
    })
}

/// The side of the body, and then the postcondition.
fn body_side(
    alloc: Global,
    program: &Settled,
    m: &Method,
    body: &Rc<Block>,
    state: SymState,
) -> Result<Side, AllocError>
    ensures { IfOk result (λ side. side_tree (settled program.now) side
        ≡ rule.body_side (settled program.now) (rules (settled program.now)) (method m.now) (block body.now.value) (state_of state)) }
{
    let _program = program;
    let finish = Rc::new(alloc, Hole::Finish)?;
    let all = joined(alloc, m.place, &m.postconditions)?;
    let codes = Codes {
        pure: Code::Postcondition,
        permission: Code::Postcondition,
        builds: false,
    };
    let whole = vx_heap::whole(alloc)?;
    let after = Rc::new(alloc, Next::Consume(all, codes, whole, finish))?;
    let next = Rc::new(alloc, Next::Block(body.clone()?, after))?;
    Ok(Side {
        frame: Frame::Go(next),
        state,
    })
}

/// Both sides of a method with a body, whose precondition was produced.
pub fn step_sides(
    alloc: Global,
    program: &Settled,
    m: &Method,
    body: &Rc<Block>,
    state: SymState,
    conts: &mut Conts,
) -> Result<Move, AllocError>
    ensures { IfOk result (λ v. Stepped (settled program.now)
        (tree.Fork (rule.promise_side (settled program.now) (rules (settled program.now)) (method m.now) (state_of state))
        (rule.body_side (settled program.now) (rules (settled program.now)) (method m.now) (block body.now.value) (state_of state))) conts.old.sides.items v
        conts.new.sides.items) }
{
    let first = promise_side(alloc, program, m, state.copy(alloc)?)?;
    let second = body_side(alloc, program, m, body, state)?;
    conts.both(
        program,
        first.frame,
        first.state,
        second.frame,
        second.state,
    )
}

/// Fresh parameters and returns.
fn first_state(alloc: Global, m: &Method) -> Result<SymState, AllocError>
    ensures { IfOk result (λ s. state_of s ≡ declare_all (method m.now).returns (declare_all (method m.now).parameters rule.blank)) }
{
    let mut state = SymState::new(alloc)?;
    state.declare_all(alloc, &m.parameters)?;
    state.declare_all(alloc, &m.returns)?;
    Ok(state)
}

/// The precondition, and then both sides.
fn first_part(alloc: Global, program: &Settled, m: &Rc<Method>) -> Result<Rc<Next>, AllocError>
    ensures { IfOk result (λ n. (s : State) → going (settled program.now) n.value s
        ≡ produce (settled program.now) (rules (settled program.now)) (joined_of (method m.now.value).place (method m.now.value).requires) whole_amount None s
        (rule.sides (settled program.now) (rules (settled program.now)) (method m.now.value))) }
{
    let _program = program;
    let all = joined(alloc, m.place, &m.preconditions)?;
    let production = Production::as_written(alloc)?;
    let sides = Rc::new(alloc, Next::Sides(m.clone()?))?;
    Ok(Rc::new(alloc, Next::Produce(all, production, sides))?)
}

/// The side that a method begins with: its precondition, over fresh parameters and returns.
pub fn first_side(alloc: Global, program: &Settled, m: &Rc<Method>) -> Result<Side, AllocError>
    ensures { IfOk result (λ side. side_tree (settled program.now) side ≡ rule.method_tree (settled program.now) (method m.now.value)) }
{
    let _program = program;
    let next = first_part(alloc, program, m)?;
    let state = first_state(alloc, m)?;
    Ok(Side {
        frame: Frame::Go(next),
        state,
    })
}

/// Fresh parameters, where no amount is bounded.
fn unbounded_state(alloc: Global, parameters: &[Declaration]) -> Result<SymState, AllocError>
    ensures { IfOk result (λ s. state_of s ≡ record (declare_all (map declaration parameters.now) rule.blank) { bounded = false }) }
{
    let mut state = SymState::new(alloc)?;
    state.declare_all(alloc, parameters)?;
    state.is_bounded = false;
    Ok(state)
}

/// The side of a predicate: its body by itself, over fresh parameters, where no amount is bounded.
pub fn predicate_side(
    alloc: Global,
    program: &Settled,
    parameters: &[Declaration],
    body: &Rc<Assertion>,
) -> Result<Side, AllocError>
    ensures { IfOk result (λ side. side_tree (settled program.now) side
        ≡ produce (settled program.now) (rules (settled program.now)) (assertion body.now.value) whole_amount None
        (record (declare_all (map declaration parameters.now) rule.blank) { bounded = false }) rule.ended) }
{
    let _program = program;
    let finish = Rc::new(alloc, Next::Finish)?;
    let production = Production::as_written(alloc)?;
    let next = Rc::new(alloc, Next::Produce(body.clone()?, production, finish))?;
    let state = unbounded_state(alloc, parameters)?;
    Ok(Side {
        frame: Frame::Go(next),
        state,
    })
}
