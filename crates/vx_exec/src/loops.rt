//! The steps of a loop.

ghost use Rattle.std.specs.Prelude.{◌≡◌, [], None, IfOk};
ghost use Rattle.vx_ast.specs.Syntax.{While, joined as joined_of};
ghost use Rattle.vx_resolved.specs.Resolved.{assertion, assertions, block as block_of, expr};
ghost use Rattle.vx_resolved.specs.Settled.{settled};
ghost use Rattle.vx_rules.specs.Members as rule;
ghost use Rattle.vx_rules.specs.Members.{rules};
ghost use Rattle.vx_rules.specs.Rules.{consume, eval};
ghost use Rattle.vx_rules.specs.States.{with_branch, with_heap};
ghost use Rattle.vx_rules.specs.Trees as tree;
ghost use Rattle.vx_rules.specs.Trees.{EntryCode, KeptCode};
ghost use Rattle.vx_stack.specs.Stack.{executed as executed_of, forgotten, frame_tree, from_invariant as from_invariant_of, going, iterated, Stepped};
ghost use Rattle.vx_states.specs.SymStates.{state as state_of};
ghost use Rattle.vx_terms.specs.Build.{negate, whole_amount};
ghost use Rattle.vx_heap.specs.Views.{held_term};

use crate::made::next_made;
use crate::statement::step_inner;
use crate::waits::{consuming_all, hole_of, on_with};
use std::alloc::{AllocError, Global};
use std::rc::Rc;
use vx_ast::Place;
use vx_resolved::{Assertion, Block, Expr, Settled};
use vx_rules::Code;
use vx_stack::{Codes, Conts, Executed, Frame, Hole, Loop, Move, Next, Production, joined};
use vx_states::SymState;
use vx_terms::{Term, make};

/// A loop, its invariants joined.
fn loop_of(
    alloc: Global,
    place: Place,
    condition: &Rc<Expr>,
    invariants: &[Rc<Assertion>],
    body: &Rc<Block>,
) -> Result<Rc<Loop>, AllocError>
    ensures condition { IfOk result (λ l. expr l.value.condition.value ≡ expr condition.now.value) }
    ensures invariant { IfOk result (λ l. assertion l.value.invariant.value ≡ joined_of place (assertions invariants.now)) }
    ensures body { IfOk result (λ l. block_of l.value.body.value ≡ block_of body.now.value) }
{
    let invariant = joined(alloc, place, invariants)?;
    let it = Loop {
        condition: condition.clone()?,
        invariant,
        body: body.clone()?,
    };
    Ok(Rc::new(alloc, it)?)
}

/// Consuming a loop's invariant at its entry.
fn entry(
    alloc: Global,
    program: &Settled,
    it: &Rc<Loop>,
    kept: usize,
    next: &Rc<Next>,
) -> Result<Next, AllocError>
    ensures { IfOk result (λ n. going (settled program.now) n
        ≡ (λ s. consume (settled program.now) (rules (settled program.now)) (assertion it.now.value.invariant.value)
        (rule.codes EntryCode EntryCode) whole_amount s.heap s
        (executed_of (settled program.now) (Executed.Enter it.now kept) (going (settled program.now) next.now.value)))) }
{
    let _program = program;
    let hole = hole_of(Executed::Enter(it.clone()?, kept), next)?;
    let codes = Codes {
        pure: Code::Entry,
        permission: Code::Entry,
        builds: false,
    };
    consuming_all(alloc, &it.invariant, codes, hole)
}

/// A loop begins: its invariant is taken.
pub fn step_while(
    alloc: Global,
    program: &Settled,
    place: Place,
    condition: &Rc<Expr>,
    invariants: &[Rc<Assertion>],
    body: &Rc<Block>,
    next: &Rc<Next>,
    state: SymState,
    conts: &mut Conts,
) -> Result<Move, AllocError>
    ensures { IfOk result (λ m. Stepped (settled program.now)
        (rule.exec (settled program.now) (rules (settled program.now))
        (While place (expr condition.now.value) (assertions invariants.now) (block_of body.now.value)) (state_of state)
        (going (settled program.now) next.now.value)) conts.old.sides.items m conts.new.sides.items) }
{
    let it = loop_of(alloc, place, condition, invariants, body)?;
    let enter = entry(alloc, program, &it, state.store.len(), next);
    next_made(alloc, program, enter, state, conts)
}

/// A loop's condition is evaluated.
fn evaluated(
    alloc: Global,
    program: &Settled,
    it: &Loop,
    after: Executed,
    next: &Rc<Next>,
) -> Result<Rc<Next>, AllocError>
    ensures { IfOk result (λ n. going (settled program.now) n.value
        ≡ (λ s. eval (settled program.now) (rules (settled program.now)) (expr it.now.condition.value) s
        (executed_of (settled program.now) after (going (settled program.now) next.now.value)))) }
{
    let _program = program;
    let given = hole_of(after, next)?;
    let hole = Rc::new(alloc, given)?;
    Ok(Rc::new(alloc, Next::Eval(it.condition.clone()?, hole))?)
}

/// The invariant is produced, and then the condition is evaluated.
fn from_invariant(
    alloc: Global,
    program: &Settled,
    it: &Loop,
    after: Executed,
    next: &Rc<Next>,
) -> Result<Frame, AllocError>
    ensures { IfOk result (λ f. frame_tree (settled program.now) f
        ≡ (λ s. from_invariant_of (settled program.now) it.now s (executed_of (settled program.now) after (going (settled program.now) next.now.value)))) }
{
    let rest = evaluated(alloc, program, it, after, next)?;
    let production = Production::as_written(alloc)?;
    let all = Next::Produce(it.invariant.clone()?, production, rest);
    Ok(Frame::Go(Rc::new(alloc, all)?))
}

/// The sides of a loop: an arbitrary iteration from the first state, and what is behind it.
fn both_sides(
    alloc: Global,
    program: &Settled,
    it: &Rc<Loop>,
    kept: usize,
    next: &Rc<Next>,
    first: SymState,
    second: SymState,
    conts: &mut Conts,
) -> Result<Move, AllocError>
    ensures { IfOk result (λ m. Stepped (settled program.now)
        (tree.Fork (from_invariant_of (settled program.now) it.now.value (state_of first) (iterated (settled program.now) it.now.value kept))
        (from_invariant_of (settled program.now) it.now.value (state_of second)
        (λ u s. tree.Step (going (settled program.now) next.now.value (with_branch (negate u) s))))) conts.old.sides.items m conts.new.sides.items) }
{
    let iterate = Executed::Iterate(it.clone()?, kept);
    let left = from_invariant(alloc, program, it, iterate, next)?;
    let right = from_invariant(alloc, program, it, Executed::Pass, next)?;
    conts.both(program, left, first, right, second)
}

/// The same state with no chunks.
fn without_chunks(alloc: Global, state: &SymState) -> Result<SymState, AllocError>
    ensures { IfOk result (λ s. state_of s ≡ with_heap [] (state_of state.now)) }
{
    let mut copy = state.copy(alloc)?;
    copy.clear_heap(alloc)?;
    Ok(copy)
}

/// Both sides of a loop whose invariant was taken: an arbitrary iteration, with no chunks, and what is behind it.
pub fn step_enter(
    alloc: Global,
    program: &Settled,
    it: &Rc<Loop>,
    kept: usize,
    next: &Rc<Next>,
    state: SymState,
    conts: &mut Conts,
) -> Result<Move, AllocError>
    ensures { IfOk result (λ m. Stepped (settled program.now)
        (tree.Fork (from_invariant_of (settled program.now) it.now.value (with_heap [] (forgotten (settled program.now) it.now.value (state_of state)))
        (iterated (settled program.now) it.now.value kept)) (from_invariant_of (settled program.now) it.now.value
        (forgotten (settled program.now) it.now.value (state_of state))
        (λ u s. tree.Step (going (settled program.now) next.now.value (with_branch (negate u) s))))) conts.old.sides.items m conts.new.sides.items) }
{
    let mut state = state;
    state.forget_assigned(alloc, &it.body)?;
    let first = without_chunks(alloc, &state)?;
    both_sides(alloc, program, it, kept, next, first, state, conts)
}

/// An iteration's end, where the invariant is taken again.
fn kept_again(alloc: Global, program: &Settled, it: &Loop) -> Result<Rc<Next>, AllocError>
    ensures { IfOk result (λ n. going (settled program.now) n.value
        ≡ (λ s. consume (settled program.now) (rules (settled program.now)) (assertion it.now.invariant.value)
        (rule.codes KeptCode KeptCode) whole_amount s.heap s (λ t s1. tree.End))) }
{
    let _program = program;
    let codes = Codes {
        pure: Code::Kept,
        permission: Code::Kept,
        builds: false,
    };
    let again = consuming_all(alloc, &it.invariant, codes, Hole::Finish)?;
    Ok(Rc::new(alloc, again)?)
}

/// The condition of the arbitrary iteration, and then its body.
pub fn step_iterate(
    alloc: Global,
    program: &Settled,
    value: Rc<Term>,
    it: &Loop,
    kept: usize,
    state: SymState,
    conts: &mut Conts,
) -> Result<Move, AllocError>
    ensures { IfOk result (λ m. Stepped (settled program.now)
        (iterated (settled program.now) it.now kept (held_term value) (state_of state)) conts.old.sides.items m conts.new.sides.items) }
{
    let again = kept_again(alloc, program, it)?;
    let mut state = state;
    state.add_branch(alloc, value)?;
    step_inner(alloc, program, &it.body, kept, &again, state, conts)
}

/// The condition behind a loop is false.
pub fn step_pass(
    alloc: Global,
    program: &Settled,
    value: &Rc<Term>,
    next: &Rc<Next>,
    state: SymState,
    conts: &mut Conts,
) -> Result<Move, AllocError>
    ensures { IfOk result (λ m. Stepped (settled program.now)
        (tree.Step (going (settled program.now) next.now.value (with_branch (negate (held_term value.now)) (state_of state)))) conts.old.sides.items m
        conts.new.sides.items) }
{
    let negated = make::not(alloc, value)?;
    let mut state = state;
    state.add_branch(alloc, negated)?;
    on_with(program, next, state, conts)
}
