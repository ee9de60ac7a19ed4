//! The rules of producing an assertion, step by step.
#![tactic(auto)]

mod instances;
mod locations;
mod sides;
mod waits;

ghost use Rattle.std.specs.Prelude.{◌≡◌, IfOk, true};
ghost use Rattle.vx_ast.specs.Syntax as syntax;
ghost use Rattle.vx_resolved.specs.Resolved.{assertion};
ghost use Rattle.vx_rules.specs.Members.{rules};
ghost use Rattle.vx_rules.specs.Rules as rule;
ghost use Rattle.vx_stack.specs.Stack.{going, produced as produced_of, producing, Stepped};
ghost use Rattle.vx_rules.specs.States.{with_fact};
ghost use Rattle.vx_states.specs.SymStates.{optional_term, state as state_of};
ghost use Rattle.vx_rules.specs.Trees as tree;
ghost use Rattle.vx_heap.specs.Views.{held_term};
ghost use Rattle.vx_produce.specs.Waiting.{is_evaluated};
ghost use Rattle.vx_resolved.specs.Settled.{settled};

use crate::instances::step_held;
use crate::locations::step_amount;
use crate::sides::{step_chosen, step_implied};
use crate::waits::{
    hole_of_chosen, hole_of_fact, hole_of_implied, hole_of_share, on_with, row_of_instance,
};
pub use instances::{step_body, step_put_instance};
pub use locations::step_put;
use std::alloc::{AllocError, Global};
use std::rc::Rc;
use vx_resolved::{Assertion, Settled};
use vx_stack::{Conts, Move, Next, Produced, Production};
use vx_states::{SymState, left_part, right_part};
use vx_terms::Term;

/// How a left part is produced: with its part of the snapshot.
fn of_left(alloc: Global, x: &Production) -> Result<Rc<Production>, AllocError>
    ensures scale { IfOk result (λ r. held_term r.value.scale ≡ held_term x.now.scale) }
    ensures snapshot { IfOk result (λ r. optional_term r.value.snapshot ≡ rule.left_part (optional_term x.now.snapshot)) }
{
    let snapshot = left_part(alloc, &x.snapshot)?;
    let scale = x.scale.clone()?;
    Ok(Rc::new(alloc, Production { scale, snapshot })?)
}

/// How a right part is produced: with its part of the snapshot.
fn of_right(alloc: Global, x: &Production) -> Result<Rc<Production>, AllocError>
    ensures scale { IfOk result (λ r. held_term r.value.scale ≡ held_term x.now.scale) }
    ensures snapshot { IfOk result (λ r. optional_term r.value.snapshot ≡ rule.right_part (optional_term x.now.snapshot)) }
{
    let snapshot = right_part(alloc, &x.snapshot)?;
    let scale = x.scale.clone()?;
    Ok(Rc::new(alloc, Production { scale, snapshot })?)
}

/// A left part, and then the right one.
fn parts(
    alloc: Global,
    program: &Settled,
    left: &Rc<Assertion>,
    right: &Rc<Assertion>,
    x: &Production,
    next: &Rc<Next>,
) -> Result<Next, AllocError>
    ensures { IfOk result (λ n. going (settled program.now) n
        ≡ (λ s. rule.produce (settled program.now) (rules (settled program.now)) (assertion left.now.value) (held_term x.now.scale)
        (rule.left_part (optional_term x.now.snapshot)) s (λ s1. rule.produce (settled program.now) (rules (settled program.now)) (assertion right.now.value)
        (held_term x.now.scale) (rule.right_part (optional_term x.now.snapshot)) s1 (going (settled program.now) next.now.value)))) }
{
    let _program = program;
    let later = of_right(alloc, x)?;
    let rest = Rc::new(alloc, Next::Produce(right.clone()?, later, next.clone()?))?;
    let first = of_left(alloc, x)?;
    Ok(Next::Produce(left.clone()?, first, rest))
}

/// A step of producing both parts of an assertion.
fn step_both(
    alloc: Global,
    program: &Settled,
    left: &Rc<Assertion>,
    right: &Rc<Assertion>,
    x: &Production,
    next: &Rc<Next>,
    state: SymState,
    conts: &mut Conts,
) -> Result<Move, AllocError>
    ensures { IfOk result (λ m. Stepped (settled program.now)
        (producing (settled program.now) (syntax.Both (assertion left.now.value) (assertion right.now.value)) x.now (state_of state)
        (going (settled program.now) next.now.value)) conts.old.sides.items m conts.new.sides.items) }
{
    let mut state = state;
    state.add_split(alloc, &x.snapshot)?;
    let both = parts(alloc, program, left, right, x, next)?;
    conts.next(alloc, program, both, state)
}

/// A step of producing an assertion.
pub fn step(
    alloc: Global,
    program: &Settled,
    a: &Assertion,
    x: &Rc<Production>,
    next: &Rc<Next>,
    state: SymState,
    conts: &mut Conts,
) -> Result<Move, AllocError>
    ensures { IfOk result (λ m. Stepped (settled program.now)
        (producing (settled program.now) (assertion a.now) x.now.value (state_of state) (going (settled program.now) next.now.value)) conts.old.sides.items m
        conts.new.sides.items) }
{
    match a {
        Assertion::Pure(e) => {
            let hole = hole_of_fact(x, next)?;
            conts.eval(alloc, program, e, hole, state)
        }
        Assertion::Points(place, e, field, share) => {
            let hole = hole_of_share(*place, field, share, x, state.is_inner, next)?;
            conts.eval(alloc, program, e, hole, state)
        }
        Assertion::Instance(place, predicate, arguments, share) => {
            let row = row_of_instance(*place, predicate, share, x, state.is_inner, next)?;
            conts.evals(alloc, program, arguments, row, state)
        }
        Assertion::Both(left, right) => {
            step_both(alloc, program, left, right, x, next, state, conts)
        }
        Assertion::Implied(e, right) => {
            let hole = hole_of_implied(right, x, next)?;
            conts.eval(alloc, program, e, hole, state)
        }
        Assertion::Chosen(e, first, second) => {
            let hole = hole_of_chosen(first, second, x, next)?;
            conts.eval(alloc, program, e, hole, state)
        }
    }
}

/// A pure part is a fact, and its snapshot, where there is one, is unit.
fn step_fact(
    alloc: Global,
    program: &Settled,
    value: Rc<Term>,
    snapshot: &Option<Rc<Term>>,
    next: &Rc<Next>,
    state: SymState,
    conts: &mut Conts,
) -> Result<Move, AllocError>
    ensures { IfOk result (λ m. Stepped (settled program.now)
        (tree.Step (going (settled program.now) next.now.value (rule.with_unit (optional_term snapshot.now) (with_fact (held_term value) (state_of state)))))
        conts.old.sides.items m conts.new.sides.items) }
{
    let mut state = state;
    state.add_fact(alloc, value)?;
    state.add_unit(alloc, snapshot)?;
    on_with(program, next, state, conts)
}

/// A value goes on to the assertion that it is of, where no share is to be evaluated.
pub fn step_produced(
    alloc: Global,
    program: &Settled,
    value: Rc<Term>,
    produced: &Produced,
    next: &Rc<Next>,
    state: SymState,
    conts: &mut Conts,
) -> Result<Move, AllocError>
    requires { is_evaluated produced.now ≡ true }
    ensures { IfOk result (λ m. Stepped (settled program.now)
        (produced_of (settled program.now) produced.now (going (settled program.now) next.now.value) (held_term value) (state_of state)) conts.old.sides.items m
        conts.new.sides.items) }
{
    match produced {
        Produced::Fact(snapshot) => step_fact(alloc, program, value, snapshot, next, state, conts),
        Produced::Share(_, _, _, _, _) => unreachable!(),
        Produced::Amount(place, field, receiver, x, is_inner) => step_amount(
            alloc, program, &value, *place, field, receiver, x, *is_inner, next, state, conts,
        ),
        Produced::Held(place, predicate, arguments, x, is_inner) => step_held(
            alloc, program, &value, *place, predicate, arguments, x, *is_inner, next, state, conts,
        ),
        Produced::Implied(a, x) => step_implied(alloc, program, value, a, x, next, state, conts),
        Produced::Chosen(a, b, x) => {
            step_chosen(alloc, program, value, a, b, x, next, state, conts)
        }
    }
}
