//! The steps of `fold` and `unfold`.

ghost use Rattle.std.specs.Prelude.{◌≡◌, IfOk, string_bytes, true};
ghost use Rattle.vx_resolved.specs.Resolved.{assertion, exprs, predicate as predicate_of};
ghost use Rattle.vx_resolved.specs.Settled.{settled};
ghost use Rattle.vx_rules.specs.Members as rule;
ghost use Rattle.vx_rules.specs.Members.{rules};
ghost use Rattle.vx_rules.specs.Rules.{ask, back, consume, entered, evals, unfolded};
ghost use Rattle.vx_rules.specs.States.{bind};
ghost use Rattle.vx_rules.specs.Trees as tree;
ghost use Rattle.vx_rules.specs.Trees.{AmountCode, FoldCode};
ghost use Rattle.vx_stack.specs.Stack.{executed as executed_of, giving_all, going, Stepped, with_instance};
ghost use Rattle.vx_stack.specs.Values.{values};
ghost use Rattle.vx_states.specs.Entering.{back_to};
ghost use Rattle.vx_states.specs.SymStates.{state as state_of};
ghost use Rattle.vx_terms.specs.Build.{less, zero_amount};
ghost use Rattle.vx_heap.specs.Views.{held_term};

use std::alloc::{AllocError, Global};
use std::rc::Rc;
use vx_ast::Place;
use vx_heap::positive;
use vx_resolved::{Assertion, Exprs, Predicate, Settled};
use vx_rules::Code;
use vx_stack::{Codes, Conts, Executed, Frame, Hole, Instance, Move, Next, Row, Values, chunk_of};
use vx_states::{Caller, SymState};
use vx_terms::Term;

/// An amount is above none, and then the arguments are evaluated.
fn step_above_none(
    alloc: Global,
    program: &Settled,
    amount: &Rc<Term>,
    place: Place,
    arguments: &Rc<Exprs>,
    row: Row,
    state: SymState,
    conts: &mut Conts,
) -> Result<Move, AllocError>
    ensures { IfOk result (λ m. Stepped (settled program.now) (ask (less zero_amount (held_term amount.now)) place AmountCode (state_of state)
        (λ s. evals (settled program.now) (rules (settled program.now)) (exprs arguments.now.value) s (giving_all (settled program.now) row)))
        conts.old.sides.items m conts.new.sides.items) }
{
    let allowed = positive(alloc, amount)?;
    let row = Rc::new(alloc, row)?;
    let rest = Rc::new(alloc, Next::Evals(arguments.clone()?, row))?;
    conts.ask(
        alloc,
        program,
        allowed,
        place,
        Code::Amount,
        state,
        Frame::Go(rest),
    )
}

/// The amount of a `fold`: it is above none, and then the arguments are evaluated.
pub fn step_fold_amount(
    alloc: Global,
    program: &Settled,
    amount: &Rc<Term>,
    place: Place,
    predicate: &Rc<String>,
    arguments: &Rc<Exprs>,
    next: &Rc<Next>,
    state: SymState,
    conts: &mut Conts,
) -> Result<Move, AllocError>
    ensures { IfOk result (λ m. Stepped (settled program.now) (ask (less zero_amount (held_term amount.now)) place AmountCode (state_of state)
        (λ s. evals (settled program.now) (rules (settled program.now)) (exprs arguments.now.value) s
        (λ ts s1. rule.folded (settled program.now) (rules (settled program.now)) place (string_bytes predicate.now.value) ts (held_term amount.now) s1
        (going (settled program.now) next.now.value)))) conts.old.sides.items m conts.new.sides.items) }
{
    let row = Row::Fold(place, predicate.clone()?, amount.clone()?, next.clone()?);
    step_above_none(alloc, program, amount, place, arguments, row, state, conts)
}

/// The amount of an `unfold`: it is above none, and then the arguments are evaluated.
pub fn step_unfold_amount(
    alloc: Global,
    program: &Settled,
    amount: &Rc<Term>,
    place: Place,
    predicate: &Rc<String>,
    arguments: &Rc<Exprs>,
    next: &Rc<Next>,
    state: SymState,
    conts: &mut Conts,
) -> Result<Move, AllocError>
    ensures { IfOk result (λ m. Stepped (settled program.now) (ask (less zero_amount (held_term amount.now)) place AmountCode (state_of state)
        (λ s. evals (settled program.now) (rules (settled program.now)) (exprs arguments.now.value) s
        (λ ts s1. unfolded (settled program.now) (rules (settled program.now)) place (string_bytes predicate.now.value) ts (held_term amount.now) s1
        (going (settled program.now) next.now.value)))) conts.old.sides.items m conts.new.sides.items) }
{
    let row = Row::Unfold(place, predicate.clone()?, amount.clone()?, next.clone()?);
    step_above_none(alloc, program, amount, place, arguments, row, state, conts)
}

/// Consuming a predicate's body, for which an instance is put then.
fn taking_body(
    alloc: Global,
    program: &Settled,
    body: &Rc<Assertion>,
    instance: &Rc<Instance>,
    caller: Rc<Caller>,
    next: &Rc<Next>,
) -> Result<Next, AllocError>
    ensures { IfOk result (λ n. going (settled program.now) n
        ≡ (λ s. consume (settled program.now) (rules (settled program.now)) (assertion body.now.value)
        (record { pure = FoldCode; permission = FoldCode; builds = true }) (held_term instance.now.value.amount) s.heap s
        (executed_of (settled program.now) (Executed.Folded instance.now caller) (going (settled program.now) next.now.value)))) }
{
    let _program = program;
    let folded = Executed::Folded(instance.clone()?, caller);
    let hole = Rc::new(alloc, Hole::Executed(folded, next.clone()?))?;
    let codes = Codes {
        pure: Code::Fold,
        permission: Code::Fold,
        builds: true,
    };
    let amount = instance.amount.clone()?;
    Ok(Next::Consume(body.clone()?, codes, amount, hole))
}

/// In a predicate's body, whose parameters are an instance's arguments.
fn in_body(
    alloc: Global,
    d: &Predicate,
    instance: &Instance,
    state: SymState,
) -> Result<SymState, AllocError>
    ensures { IfOk result (λ s. state_of s ≡ entered (bind (predicate_of d.now).parameters (values instance.now.arguments.value)) instance.now.place (state_of state)) }
{
    let arguments = instance.arguments.to_vec(alloc)?;
    let mut state = state;
    state.enter(alloc, &d.parameters, &arguments, instance.place)?;
    Ok(state)
}

/// A predicate's body is taken, in its part of the program.
fn step_taking(
    alloc: Global,
    program: &Settled,
    d: &Predicate,
    body: &Rc<Assertion>,
    instance: &Rc<Instance>,
    next: &Rc<Next>,
    state: SymState,
    conts: &mut Conts,
) -> Result<Move, AllocError>
    ensures { IfOk result (λ m. Stepped (settled program.now)
        (tree.Step ((rules (settled program.now)).consume (assertion body.now.value) (record { pure = FoldCode; permission = FoldCode; builds = true })
        (held_term instance.now.value.amount) (state_of state).heap
        (entered (bind (predicate_of d.now).parameters (values instance.now.value.arguments.value)) instance.now.value.place (state_of state))
        (λ t s. tree.Step (going (settled program.now) next.now.value
        (with_instance (string_bytes instance.now.value.predicate.value) (values instance.now.value.arguments.value) (held_term instance.now.value.amount) t
        (back (state_of state) s)))))) conts.old.sides.items m conts.new.sides.items) }
{
    program.keeps_apart();
    vx_depth::rules_read_parts_by_themselves();
    let caller = state.caller(alloc)?;
    let caller = Rc::new(alloc, caller)?;
    let take = taking_body(alloc, program, body, instance, caller, next)?;
    let state = in_body(alloc, d, instance, state)?;
    conts.next(alloc, program, take, state)
}

/// A `fold`, whose arguments are evaluated: the body is taken.
pub fn step_fold(
    alloc: Global,
    program: &Settled,
    place: Place,
    predicate: &Rc<String>,
    amount: &Rc<Term>,
    arguments: &Rc<Values>,
    next: &Rc<Next>,
    state: SymState,
    conts: &mut Conts,
) -> Result<Move, AllocError>
    ensures { IfOk result (λ m. Stepped (settled program.now)
        (rule.folded (settled program.now) (rules (settled program.now)) place (string_bytes predicate.now.value) (values arguments.now.value)
        (held_term amount.now) (state_of state) (going (settled program.now) next.now.value)) conts.old.sides.items m conts.new.sides.items) }
{
    let Some(d) = program.predicate(predicate)? else {
        return conts.never(alloc, program, place, Code::Fold, state);
    };
    match &d.body {
        None => conts.never(alloc, program, place, Code::Fold, state),
        Some(body) => {
            let instance = instance_of(alloc, place, predicate, amount, arguments)?;
            step_taking(alloc, program, &d, body, &instance, next, state, conts)
        }
    }
}

/// An amount of an instance.
pub fn instance_of(
    alloc: Global,
    place: Place,
    predicate: &Rc<String>,
    amount: &Rc<Term>,
    arguments: &Rc<Values>,
) -> Result<Rc<Instance>, AllocError>
    ensures place { IfOk result (λ x. x.value.place ≡ place) }
    ensures predicate { IfOk result (λ x. string_bytes x.value.predicate.value ≡ string_bytes predicate.now.value) }
    ensures arguments { IfOk result (λ x. values x.value.arguments.value ≡ values arguments.now.value) }
    ensures amount { IfOk result (λ x. held_term x.value.amount ≡ held_term amount.now) }
{
    let instance = Instance {
        place,
        predicate: predicate.clone()?,
        arguments: arguments.clone()?,
        amount: amount.clone()?,
    };
    Ok(Rc::new(alloc, instance)?)
}

/// A body was taken: back from it, its instance is put with the name of its snapshot.
pub fn step_folded(
    alloc: Global,
    program: &Settled,
    snapshot: Rc<Term>,
    instance: &Instance,
    caller: &Caller,
    next: &Rc<Next>,
    state: SymState,
    conts: &mut Conts,
) -> Result<Move, AllocError>
    ensures { IfOk result (λ m. Stepped (settled program.now)
        (tree.Step (going (settled program.now) next.now.value
        (with_instance (string_bytes instance.now.predicate.value) (values instance.now.arguments.value) (held_term instance.now.amount) (held_term snapshot)
        (back_to caller.now (state_of state))))) conts.old.sides.items m conts.new.sides.items) }
{
    let mut state = state;
    state.back(alloc, caller)?;
    let name = state.name(alloc, snapshot)?;
    let chunk = chunk_of(alloc, instance, name, false)?;
    state.put(alloc, chunk)?;
    conts.go(program, Frame::Go(next.clone()?), state)
}
