//! The steps of an amount of a predicate's instance that is produced, and of a body that is produced for its instance.

ghost use Rattle.std.specs.Prelude.{◌≡◌, IfOk, Some, string_bytes};
ghost use Rattle.vx_ast.specs.Syntax.{Program};
ghost use Rattle.vx_heap.specs.Views.{held_term};
ghost use Rattle.vx_resolved.specs.Resolved.{assertion, predicate};
ghost use Rattle.vx_resolved.specs.Settled.{settled};
ghost use Rattle.vx_rules.specs.Members.{rules};
ghost use Rattle.vx_rules.specs.Rules as rule;
ghost use Rattle.vx_rules.specs.States as states;
ghost use Rattle.vx_rules.specs.States.{State};
ghost use Rattle.vx_rules.specs.Trees as tree;
ghost use Rattle.vx_stack.specs.Stack.{body_of, frame_tree, going, putting_instance, Stepped, with_held};
ghost use Rattle.vx_stack.specs.Values.{values};
ghost use Rattle.vx_states.specs.SymStates.{optional_term, state as state_of};
ghost use Rattle.vx_terms.specs.Build.{multiply};

use crate::locations::scaled;
use crate::step;
use crate::waits::on_with;
use std::alloc::{AllocError, Global};
use std::rc::Rc;
use vx_ast::Place;
use vx_heap::not_negative;
use vx_resolved::{Assertion, Predicate, Settled};
use vx_rules::Code;
use vx_stack::{Conts, Frame, Instance, Move, Next, Production, Values, chunk_of};
use vx_states::SymState;
use vx_terms::Term;

/// On with the amount that is put.
fn put_frame(
    alloc: Global,
    program: &Settled,
    instance: Instance,
    x: &Rc<Production>,
    is_inner: bool,
    next: &Rc<Next>,
) -> Result<Frame, AllocError>
    ensures { IfOk result (λ f. frame_tree (settled program.now) f
        ≡ (λ s. tree.Step (going (settled program.now) next.now.value
        (with_held (settled program.now) (string_bytes instance.predicate.value) (values instance.arguments.value) (held_term instance.amount)
        (optional_term x.now.value.snapshot) is_inner s)))) }
{
    let _program = program;
    let instance = Rc::new(alloc, instance)?;
    let put = Next::PutInstance(instance, x.clone()?, is_inner, next.clone()?);
    Ok(Frame::Go(Rc::new(alloc, put)?))
}

/// An instance's share, by the scale: it may not be negative, and then it is put.
pub fn step_held(
    alloc: Global,
    program: &Settled,
    share: &Rc<Term>,
    place: Place,
    predicate: &Rc<String>,
    arguments: &Rc<Values>,
    x: &Rc<Production>,
    is_inner: bool,
    next: &Rc<Next>,
    state: SymState,
    conts: &mut Conts,
) -> Result<Move, AllocError>
    ensures { IfOk result (λ m. Stepped (settled program.now)
        (putting_instance (settled program.now) place (string_bytes predicate.now.value) (values arguments.now.value)
        (multiply (held_term x.now.value.scale) (held_term share.now)) (optional_term x.now.value.snapshot) is_inner (state_of state)
        (going (settled program.now) next.now.value)) conts.old.sides.items m conts.new.sides.items) }
{
    let amount = scaled(alloc, x, share)?;
    let allowed = not_negative(alloc, &amount)?;
    let instance = Instance {
        place,
        predicate: predicate.clone()?,
        arguments: arguments.clone()?,
        amount,
    };
    let put = put_frame(alloc, program, instance, x, is_inner, next)?;
    let at = state.placed(place);
    conts.ask(alloc, program, allowed, at, Code::Amount, state, put)
}

/// An instance's amount is put, with a snapshot that is new or the name of the one that is given.
pub fn step_put_instance(
    alloc: Global,
    program: &Settled,
    instance: &Instance,
    x: &Production,
    is_inner: bool,
    next: &Rc<Next>,
    state: SymState,
    conts: &mut Conts,
) -> Result<Move, AllocError>
    ensures { IfOk result (λ m. Stepped (settled program.now)
        (tree.Step (going (settled program.now) next.now.value
        (with_held (settled program.now) (string_bytes instance.now.predicate.value) (values instance.now.arguments.value) (held_term instance.now.amount)
        (optional_term x.now.snapshot) is_inner (state_of state)))) conts.old.sides.items m conts.new.sides.items) }
{
    let mut state = state;
    let snapshot = state.produced_snapshot(alloc, &x.snapshot)?;
    let chunk = chunk_of(alloc, instance, snapshot, is_inner)?;
    state.put(alloc, chunk)?;
    on_with(program, next, state, conts)
}

/// In a predicate's body, whose parameters are an instance's arguments.
fn within(
    alloc: Global,
    d: &Predicate,
    instance: &Instance,
    is_inner: bool,
    state: SymState,
) -> Result<SymState, AllocError>
    ensures { IfOk result (λ s. state_of s ≡ record (rule.entered
        (states.bind (predicate d.now).parameters (values instance.now.arguments.value)) instance.now.place (state_of state)) { inner = is_inner }) }
{
    let arguments = instance.arguments.to_vec(alloc)?;
    let mut state = state;
    state.enter(alloc, &d.parameters, &arguments, instance.place)?;
    state.is_inner = is_inner;
    Ok(state)
}

/// How a body is produced: by the amount of its instance, with its snapshot.
fn exchanged(
    alloc: Global,
    instance: &Instance,
    snapshot: &Rc<Term>,
) -> Result<Rc<Production>, AllocError>
    ensures scale { IfOk result (λ x. held_term x.value.scale ≡ held_term instance.now.amount) }
    ensures snapshot { IfOk result (λ x. optional_term x.value.snapshot ≡ Some (held_term snapshot.now)) }
{
    let production = Production {
        scale: instance.amount.clone()?,
        snapshot: Some(snapshot.clone()?),
    };
    Ok(Rc::new(alloc, production)?)
}

/// On with what waits, with what the caller has again.
fn back_in(alloc: Global, state: &SymState, next: &Rc<Next>) -> Result<Rc<Next>, AllocError>
    ensures { (p : Program) → IfOk result (λ n. (s : State) → going p n.value s ≡ going p next.now.value (rule.back (state_of state.now) s)) }
{
    let caller = state.caller(alloc)?;
    let caller = Rc::new(alloc, caller)?;
    Ok(Rc::new(alloc, Next::Back(caller, next.clone()?))?)
}

/// A predicate's body is produced for an instance that was taken.
fn step_exchanged(
    alloc: Global,
    program: &Settled,
    d: &Predicate,
    body: &Assertion,
    instance: &Instance,
    snapshot: &Rc<Term>,
    is_inner: bool,
    next: &Rc<Next>,
    state: SymState,
    conts: &mut Conts,
) -> Result<Move, AllocError>
    ensures { IfOk result (λ m. Stepped (settled program.now)
        ((rules (settled program.now)).produce (assertion body.now) (held_term instance.now.amount) (Some (held_term snapshot.now))
        (record (rule.entered (states.bind (predicate d.now).parameters (values instance.now.arguments.value)) instance.now.place (state_of state))
        { inner = is_inner }) (λ s. going (settled program.now) next.now.value (rule.back (state_of state) s))) conts.old.sides.items m conts.new.sides.items) }
{
    program.keeps_apart();
    vx_depth::rules_read_parts_by_themselves();
    let after = back_in(alloc, &state, next)?;
    let production = exchanged(alloc, instance, snapshot)?;
    let state = within(alloc, d, instance, is_inner, state)?;
    step(alloc, program, body, &production, &after, state, conts)
}

/// An instance was taken, from inside another or not: its body is produced.
pub fn step_body(
    alloc: Global,
    program: &Settled,
    instance: &Rc<Instance>,
    snapshot: &Rc<Term>,
    is_inner: bool,
    next: &Rc<Next>,
    state: SymState,
    conts: &mut Conts,
) -> Result<Move, AllocError>
    ensures { IfOk result (λ m. Stepped (settled program.now)
        (body_of (settled program.now) instance.now.value (held_term snapshot.now) is_inner (state_of state) (going (settled program.now) next.now.value))
        conts.old.sides.items m conts.new.sides.items) }
{
    let Some(d) = program.predicate(&instance.predicate)? else {
        return conts.never(alloc, program, instance.place, Code::Unfold, state);
    };
    match &d.body {
        None => conts.never(alloc, program, instance.place, Code::Unfold, state),
        Some(body) => step_exchanged(
            alloc, program, &d, body, instance, snapshot, is_inner, next, state, conts,
        ),
    }
}
