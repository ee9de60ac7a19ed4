//! The rules of consuming an assertion, step by step.
#![tactic(auto)]

mod instances;
mod locations;
mod sides;
mod waits;

ghost use Rattle.std.specs.Prelude.{◌≡◌, IfOk, true};
ghost use Rattle.vx_consume.specs.Waiting.{is_evaluated};
ghost use Rattle.vx_resolved.specs.Resolved.{assertion, expr};
ghost use Rattle.vx_ast.specs.Syntax as syntax;
ghost use Rattle.vx_rules.specs.Members.{rules};
ghost use Rattle.vx_rules.specs.Rules as rule;
ghost use Rattle.vx_stack.specs.Stack.{consumed as consumed_of, consuming, context, giving, going, Stepped};
ghost use Rattle.vx_states.specs.SymStates.{state as state_of};
ghost use Rattle.vx_rules.specs.Trees as tree;
ghost use Rattle.vx_terms.specs.Build as built;
ghost use Rattle.vx_heap.specs.Views.{held_term};
ghost use Rattle.vx_resolved.specs.Settled.{settled};

use crate::instances::step_held;
use crate::locations::{step_amount, step_wrap};
use crate::sides::{step_chosen, step_implied};
use crate::waits::{frame_of_unit, hole_of_right};
use std::alloc::{AllocError, Global};
use std::rc::Rc;
use vx_ast::Place;
use vx_heap::SymHeap;
use vx_resolved::{Assertion, Expr, Settled};
use vx_stack::{Codes, Consumed, Consumption, Conts, Hole, Move, Next, Row};
use vx_states::SymState;
use vx_terms::{Term, snapshots};

/// Where an expression stands.
fn place_of(e: &Expr) -> Place
    ensures { result ≡ syntax.place_of (expr e.now) }
{
    match e {
        Expr::Number(place, _) => *place,
        Expr::Truth(place, _) => *place,
        Expr::Null(place) => *place,
        Expr::Part(place, _, _) => *place,
        Expr::Variable(place, _) => *place,
        Expr::Not(place, _) => *place,
        Expr::Operate(place, _, _, _) => *place,
        Expr::Divide(place, _, _, _) => *place,
        Expr::Connect(place, _, _, _) => *place,
        Expr::Choose(place, _, _, _) => *place,
        Expr::Read(place, _, _) => *place,
        Expr::Old(place, _) => *place,
        Expr::Apply(place, _, _) => *place,
        Expr::Unfolding(place, _, _, _, _) => *place,
    }
}

/// A left part, and then the right one; each is read in the heap of the start.
fn parts(
    alloc: Global,
    program: &Settled,
    left: &Rc<Assertion>,
    right: &Rc<Assertion>,
    x: &Rc<Consumption>,
    hole: Rc<Hole>,
) -> Result<Next, AllocError>
    ensures { IfOk result (λ n. going (settled program.now) n
        ≡ (λ s. consuming (settled program.now) (assertion left.now.value) x.now.value s
        (λ t s1. consuming (settled program.now) (assertion right.now.value) x.now.value s1
        (λ u s2. tree.Step (giving (settled program.now) hole.value (built.pair t u) (rule.with_built_pair (context x.now.value.codes) t u s2)))))) }
{
    let _program = program;
    let after = Consumed::Right(right.clone()?, x.clone()?);
    let rest = Rc::new(alloc, Hole::Consumed(after, hole))?;
    Ok(Next::ConsumeFrom(left.clone()?, x.clone()?, rest))
}

/// A step of consuming an assertion whose snapshot goes into a hole.
pub fn step(
    alloc: Global,
    program: &Settled,
    a: &Assertion,
    x: &Rc<Consumption>,
    hole: Rc<Hole>,
    state: SymState,
    conts: &mut Conts,
) -> Result<Move, AllocError>
    ensures { IfOk result (λ m. Stepped (settled program.now)
        (consuming (settled program.now) (assertion a.now) x.now.value (state_of state) (giving (settled program.now) hole.value)) conts.old.sides.items m
        conts.new.sides.items) }
{
    match a {
        Assertion::Pure(e) => {
            let mut state = state;
            let heap = state.exchange_heap(x.start.clone()?);
            let asking = Consumed::Ask(place_of(e), x.codes.pure, heap);
            conts.eval(alloc, program, e, Hole::Consumed(asking, hole), state)
        }
        Assertion::Points(place, e, field, share) => {
            let mut state = state;
            let heap = state.exchange_heap(x.start.clone()?);
            let share = Consumed::Share(*place, field.clone()?, share.clone()?, x.clone()?, heap);
            conts.eval(alloc, program, e, Hole::Consumed(share, hole), state)
        }
        Assertion::Instance(place, predicate, arguments, share) => {
            let mut state = state;
            let heap = state.exchange_heap(x.start.clone()?);
            let row = Row::Consume(
                *place,
                predicate.clone()?,
                share.clone()?,
                x.clone()?,
                heap,
                hole,
            );
            conts.evals(alloc, program, arguments, row, state)
        }
        Assertion::Both(left, right) => {
            let both = parts(alloc, program, left, right, x, hole)?;
            conts.next(alloc, program, both, state)
        }
        Assertion::Implied(e, right) => {
            let mut state = state;
            let heap = state.exchange_heap(x.start.clone()?);
            let implied = Consumed::Implied(right.clone()?, x.clone()?, heap);
            conts.eval(alloc, program, e, Hole::Consumed(implied, hole), state)
        }
        Assertion::Chosen(e, first, second) => {
            let mut state = state;
            let heap = state.exchange_heap(x.start.clone()?);
            let chosen = Consumed::Chosen(first.clone()?, second.clone()?, x.clone()?, heap);
            conts.eval(alloc, program, e, Hole::Consumed(chosen, hole), state)
        }
    }
}

/// A step of consuming an assertion that is read in the heap that it finds.
pub fn step_here(
    alloc: Global,
    program: &Settled,
    a: &Assertion,
    codes: Codes,
    scale: &Rc<Term>,
    hole: &Rc<Hole>,
    state: SymState,
    conts: &mut Conts,
) -> Result<Move, AllocError>
    ensures { IfOk result (λ m. Stepped (settled program.now)
        (rule.consume (settled program.now) (rules (settled program.now)) (assertion a.now) (context codes) (held_term scale.now) (state_of state).heap
        (state_of state) (giving (settled program.now) hole.now.value)) conts.old.sides.items m conts.new.sides.items) }
{
    let scale = scale.clone()?;
    let start = state.heap.clone()?;
    let consumption = Consumption {
        codes,
        scale,
        start,
    };
    let shared = Rc::new(alloc, consumption)?;
    step(alloc, program, a, &shared, hole.clone()?, state, conts)
}

/// The facts on a pair that is built, where they are given.
fn add_built_pair(
    alloc: Global,
    codes: Codes,
    first: &Rc<Term>,
    second: &Rc<Term>,
    state: &mut SymState,
) -> Result<(), AllocError>
    ensures { IfOk result (λ _. state_of state.new ≡ rule.with_built_pair (context codes) (held_term first.now) (held_term second.now) (state_of state.old)) }
{
    if codes.builds {
        return state.add_pair(alloc, first, second);
    }
    Ok(())
}

/// A value or a snapshot goes on to the assertion that it is of, where no share is to be evaluated.
pub fn step_consumed(
    alloc: Global,
    program: &Settled,
    value: Rc<Term>,
    consumed: &Consumed,
    hole: &Rc<Hole>,
    state: SymState,
    conts: &mut Conts,
) -> Result<Move, AllocError>
    requires { is_evaluated consumed.now ≡ true }
    ensures { IfOk result (λ m. Stepped (settled program.now)
        (consumed_of (settled program.now) consumed.now (giving (settled program.now) hole.now.value) (held_term value) (state_of state)) conts.old.sides.items
        m conts.new.sides.items) }
{
    match consumed {
        Consumed::Ask(place, code, heap) => {
            let after = frame_of_unit(alloc, heap, hole)?;
            let place = state.placed(*place);
            conts.ask(alloc, program, value, place, *code, state, after)
        }
        Consumed::Right(right, x) => {
            let rest = hole_of_right(alloc, value, x.codes, hole)?;
            step(alloc, program, right, x, rest, state, conts)
        }
        Consumed::With(first, codes) => {
            let both = snapshots::pair(alloc, first, &value)?;
            let mut state = state;
            add_built_pair(alloc, *codes, first, &value, &mut state)?;
            conts.give(program, both, hole, state)
        }
        Consumed::Share(_, _, _, _, _) => unreachable!(),
        Consumed::Amount(place, field, receiver, x, heap) => step_amount(
            alloc, program, &value, *place, field, receiver, x, heap, hole, state, conts,
        ),
        Consumed::Wrap(field, codes) => {
            step_wrap(alloc, program, &value, field, *codes, hole, state, conts)
        }
        Consumed::Held(place, predicate, arguments, x, heap) => step_held(
            alloc, program, &value, *place, predicate, arguments, x, heap, hole, state, conts,
        ),
        Consumed::Snapshot => conts.give(program, value, hole, state),
        Consumed::Implied(a, x, heap) => {
            step_implied(alloc, program, value, a, x, heap, hole, state, conts)
        }
        Consumed::Chosen(a, b, x, heap) => {
            step_chosen(alloc, program, value, a, b, x, heap, hole, state, conts)
        }
    }
}

/// A pure part was consumed: the heap is as before, and its snapshot is unit.
pub fn step_unit(
    alloc: Global,
    program: &Settled,
    heap: &Rc<SymHeap>,
    hole: &Rc<Hole>,
    state: SymState,
    conts: &mut Conts,
) -> Result<Move, AllocError>
    ensures { IfOk result (λ m. Stepped (settled program.now) (going (settled program.now) (Next.Unit heap.now hole.now) (state_of state)) conts.old.sides.items
        m conts.new.sides.items) }
{
    let unit = snapshots::unit(alloc)?;
    let mut state = state;
    let _start = state.exchange_heap(heap.clone()?);
    conts.give(program, unit, hole, state)
}
