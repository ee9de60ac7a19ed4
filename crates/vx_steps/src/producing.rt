//! What is produced: a share is evaluated, and a value goes on to the assertion that it is of.

ghost use Rattle.std.specs.Prelude.{◌≡◌, IfOk, string_bytes};
ghost use Rattle.vx_heap.specs.Views.{held_term};
ghost use Rattle.vx_resolved.specs.Resolved.{expr};
ghost use Rattle.vx_resolved.specs.Settled.{settled};
ghost use Rattle.vx_rules.specs.Members.{rules};
ghost use Rattle.vx_rules.specs.Rules as rule;
ghost use Rattle.vx_stack.specs.Stack.{going, produced as produced_of, putting, putting_instance, Stepped};
ghost use Rattle.vx_stack.specs.Values.{values};
ghost use Rattle.vx_states.specs.SymStates.{optional_term, state as state_of};
ghost use Rattle.vx_terms.specs.Build.{multiply};

use std::alloc::{AllocError, Global};
use std::rc::Rc;
use vx_ast::Place;
use vx_resolved::{Expr, Settled};
use vx_stack::{Conts, Hole, Move, Next, Produced, Production, Values};
use vx_states::SymState;
use vx_terms::Term;

/// A location's share, after its receiver.
fn step_share(
    alloc: Global,
    program: &Settled,
    receiver: Rc<Term>,
    place: Place,
    field: &Rc<String>,
    share: &Rc<Expr>,
    x: &Rc<Production>,
    is_inner: bool,
    next: &Rc<Next>,
    state: SymState,
    conts: &mut Conts,
) -> Result<Move, AllocError>
    ensures { IfOk result (λ m. Stepped (settled program.now)
        (rule.eval (settled program.now) (rules (settled program.now)) (expr share.now.value) (state_of state)
        (λ a s. putting (settled program.now) place (string_bytes field.now.value) (held_term receiver) (multiply (held_term x.now.value.scale) a)
        (optional_term x.now.value.snapshot) is_inner s (going (settled program.now) next.now.value))) conts.old.sides.items m conts.new.sides.items) }
{
    let amount = Produced::Amount(place, field.clone()?, receiver, x.clone()?, is_inner);
    let hole = Rc::new(alloc, Hole::Produced(amount, next.clone()?))?;
    vx_eval::step(alloc, program, share, hole, state, conts)
}

/// An instance's share, after its arguments.
pub fn step_arguments(
    alloc: Global,
    program: &Settled,
    place: Place,
    predicate: &Rc<String>,
    share: &Rc<Expr>,
    x: &Rc<Production>,
    is_inner: bool,
    arguments: &Rc<Values>,
    next: &Rc<Next>,
    state: SymState,
    conts: &mut Conts,
) -> Result<Move, AllocError>
    ensures { IfOk result (λ m. Stepped (settled program.now)
        (rule.eval (settled program.now) (rules (settled program.now)) (expr share.now.value) (state_of state)
        (λ a s. putting_instance (settled program.now) place (string_bytes predicate.now.value) (values arguments.now.value)
        (multiply (held_term x.now.value.scale) a) (optional_term x.now.value.snapshot) is_inner s (going (settled program.now) next.now.value)))
        conts.old.sides.items m conts.new.sides.items) }
{
    let held = Produced::Held(
        place,
        predicate.clone()?,
        arguments.clone()?,
        x.clone()?,
        is_inner,
    );
    let hole = Rc::new(alloc, Hole::Produced(held, next.clone()?))?;
    vx_eval::step(alloc, program, share, hole, state, conts)
}

/// A value goes on to the assertion that it is of.
pub fn step_produced(
    alloc: Global,
    program: &Settled,
    value: Rc<Term>,
    produced: &Produced,
    next: &Rc<Next>,
    state: SymState,
    conts: &mut Conts,
) -> Result<Move, AllocError>
    ensures { IfOk result (λ m. Stepped (settled program.now)
        (produced_of (settled program.now) produced.now (going (settled program.now) next.now.value) (held_term value) (state_of state)) conts.old.sides.items m
        conts.new.sides.items) }
{
    match produced {
        Produced::Share(place, field, share, x, is_inner) => step_share(
            alloc, program, value, *place, field, share, x, *is_inner, next, state, conts,
        ),
        _ => vx_produce::step_produced(alloc, program, value, produced, next, state, conts),
    }
}
