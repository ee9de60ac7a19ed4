//! A step of what waits for the value of an operand.

ghost use Rattle.std.specs.Prelude.{◌≡◌, IfOk, true};
ghost use Rattle.vx_ast.specs.Syntax.{Program};
ghost use Rattle.vx_eval.specs.Waiting.{is_plain};
ghost use Rattle.vx_heap.specs.Views.{heap as heap_of, held_term};
ghost use Rattle.vx_resolved.specs.Resolved.{connective, division, expr, exprs};
ghost use Rattle.vx_rules.specs.Members.{rules};
ghost use Rattle.vx_rules.specs.Rules as rule;
ghost use Rattle.vx_rules.specs.States as states;
ghost use Rattle.vx_rules.specs.Trees.{AmountCode, Step};
ghost use Rattle.vx_stack.specs.declared.waiting.Operand.TheVariants as waits;
ghost use Rattle.vx_stack.specs.Stack.{operand as operand_of, giving, giving_all, going, with_divisor, Stepped};
ghost use Rattle.vx_states.specs.SymStates.{state as state_of};
ghost use Rattle.vx_terms.specs.Build.{less, zero_amount};
ghost use Rattle.vx_resolved.specs.Settled.{settled};

use crate::divisions::divided;
use crate::made::give_made;
use crate::operators::{connected, operated};
use crate::waits::{before_choice, before_else, evaluation, truth};
use std::alloc::{AllocError, Global};
use std::rc::Rc;
use vx_ast::Place;
use vx_heap::{SymHeap, positive};
use vx_resolved::{Connective, Division, Expr, Exprs, Settled};
use vx_rules::Code;
use vx_stack::{Conts, Frame, Hole, Move, Next, Operand, Row};
use vx_states::SymState;
use vx_terms::{Term, make, numbers};

/// The value of an operand goes on to the expression that it stands in, where that neither reads a field nor applies a function.
pub fn step_operand(
    alloc: Global,
    program: &Settled,
    value: Rc<Term>,
    operand: &Operand,
    hole: &Rc<Hole>,
    state: SymState,
    conts: &mut Conts,
) -> Result<Move, AllocError>
    requires { is_plain operand.now ≡ true }
    ensures { IfOk result (λ m. Stepped (settled program.now)
        (operand_of (settled program.now) operand.now (giving (settled program.now) hole.now.value) (held_term value) (state_of state)) conts.old.sides.items m
        conts.new.sides.items) }
{
    match operand {
        Operand::Negate => give_made(program, make::not(alloc, &value), hole, state, conts),
        Operand::OperateRight(op, b) => {
            let with = Operand::OperateWith(*op, value);
            step_part(alloc, program, b, with, hole, state, conts)
        }
        Operand::OperateWith(op, first) => {
            let both = operated(alloc, *op, first, &value);
            give_made(program, both, hole, state, conts)
        }
        Operand::DivideRight(at, op, b) => {
            let with = Operand::DivideWith(*at, *op, value);
            step_part(alloc, program, b, with, hole, state, conts)
        }
        Operand::DivideWith(at, op, first) => {
            step_divided(alloc, program, *at, *op, first, &value, hole, state, conts)
        }
        Operand::ConnectRight(op, b) => {
            let with = Operand::ConnectWith(*op, value);
            step_part(alloc, program, b, with, hole, state, conts)
        }
        Operand::ConnectWith(op, first) => {
            let both = connected(alloc, *op, first, &value);
            give_made(program, both, hole, state, conts)
        }
        Operand::ConnectSides(op, b) => {
            step_short(alloc, program, value, *op, b, hole, state, conts)
        }
        Operand::ChooseThen(a, b) => {
            let with = before_else(value, b)?;
            step_part(alloc, program, a, with, hole, state, conts)
        }
        Operand::ChooseElse(condition, b) => {
            let with = before_choice(condition, value)?;
            step_part(alloc, program, b, with, hole, state, conts)
        }
        Operand::ChooseWith(condition, first) => {
            let choice = make::ite(alloc, condition, first, &value);
            give_made(program, choice, hole, state, conts)
        }
        Operand::ChooseSides(a, b) => {
            step_sides(alloc, program, value, a, b, hole, state, conts)
        }
        Operand::Receiver(_, _) => unreachable!(),
        Operand::Restore(heap) => step_restored(program, value, heap, hole, state, conts),
        Operand::Unfolding(at, i, es, e, heap) => step_unfolding(
            alloc, program, *at, &value, i, es, e, heap, hole, state, conts,
        ),
        Operand::Applied(_, _, _) => unreachable!(),
        Operand::Measured(_, _, _) => unreachable!(),
    }
}

/// On with a part, before what waits for its value.
fn step_part(
    alloc: Global,
    program: &Settled,
    e: &Rc<Expr>,
    operand: Operand,
    hole: &Rc<Hole>,
    state: SymState,
    conts: &mut Conts,
) -> Result<Move, AllocError>
    ensures { IfOk result (λ m. Stepped (settled program.now)
        (Step (rule.eval (settled program.now) (rules (settled program.now)) (expr e.now.value) (state_of state)
        (operand_of (settled program.now) operand (giving (settled program.now) hole.now.value)))) conts.old.sides.items m conts.new.sides.items) }
{
    let hole = Hole::Operand(operand, hole.clone()?);
    conts.eval(alloc, program, e, hole, state)
}

/// On with both branches, each on a side of its own.
fn step_sides(
    alloc: Global,
    program: &Settled,
    value: Rc<Term>,
    a: &Rc<Expr>,
    b: &Rc<Expr>,
    hole: &Rc<Hole>,
    state: SymState,
    conts: &mut Conts,
) -> Result<Move, AllocError>
    ensures { IfOk result (λ m. Stepped (settled program.now)
        (operand_of (settled program.now) (waits.ChooseSides a.now b.now) (giving (settled program.now) hole.now.value) (held_term value) (state_of state))
        conts.old.sides.items m conts.new.sides.items) }
{
    let left = evaluation(a, hole)?;
    let right = evaluation(b, hole)?;
    conts.fork(alloc, program, value, state, left, right)
}

/// On with a value, in the heap of before.
fn step_restored(
    program: &Settled,
    value: Rc<Term>,
    heap: &Rc<SymHeap>,
    hole: &Rc<Hole>,
    state: SymState,
    conts: &mut Conts,
) -> Result<Move, AllocError>
    ensures { IfOk result (λ m. Stepped (settled program.now)
        (operand_of (settled program.now) (waits.Restore heap.now) (giving (settled program.now) hole.now.value) (held_term value) (state_of state))
        conts.old.sides.items m conts.new.sides.items) }
{
    let mut state = state;
    let _inside = state.exchange_heap(heap.clone()?);
    conts.give(program, value, hole, state)
}

/// On with the arguments of an `unfolding`, and then with the expression in it.
fn step_unfolding(
    alloc: Global,
    program: &Settled,
    at: Place,
    amount: &Rc<Term>,
    i: &Rc<String>,
    es: &Rc<Exprs>,
    e: &Rc<Expr>,
    heap: &Rc<SymHeap>,
    hole: &Rc<Hole>,
    state: SymState,
    conts: &mut Conts,
) -> Result<Move, AllocError>
    ensures { IfOk result (λ m. Stepped (settled program.now)
        (operand_of (settled program.now) (waits.Unfolding at i.now es.now e.now heap.now) (giving (settled program.now) hole.now.value) (held_term amount.now)
        (state_of state)) conts.old.sides.items m conts.new.sides.items) }
{
    let inside = restored(alloc, e, heap, hole)?;
    let row = Row::Unfolding(at, i.clone()?, amount.clone()?, inside);
    step_share(alloc, program, at, amount, es, row, state, conts)
}

/// The expression of an `unfolding` is evaluated, and the heap behind it is the one of before.
fn restored(
    alloc: Global,
    e: &Rc<Expr>,
    heap: &Rc<SymHeap>,
    hole: &Rc<Hole>,
) -> Result<Rc<Next>, AllocError>
    ensures { IfOk result (λ next. (p : Program) → ◌≡◌ {A = rule.Going} (going p next.value)
        (λ s. rule.eval p (rules p) (expr e.now.value) s (λ t s1. Step (giving p hole.now.value t (states.with_heap (heap_of heap.now.value) s1))))) }
{
    let restore = Hole::Operand(Operand::Restore(heap.clone()?), hole.clone()?);
    let behind = Rc::new(alloc, restore)?;
    let next = Rc::new(alloc, Next::Eval(e.clone()?, behind))?;
    Ok(next)
}

/// On with the arguments behind an amount, where that is positive.
fn step_share(
    alloc: Global,
    program: &Settled,
    at: Place,
    amount: &Rc<Term>,
    es: &Rc<Exprs>,
    row: Row,
    state: SymState,
    conts: &mut Conts,
) -> Result<Move, AllocError>
    ensures { IfOk result (λ m. Stepped (settled program.now)
        (rule.ask (less zero_amount (held_term amount.now)) (rule.placed (state_of state) at) AmountCode (state_of state)
        (λ s. rule.evals (settled program.now) (rules (settled program.now)) (exprs es.now.value) s (giving_all (settled program.now) row)))
        conts.old.sides.items m conts.new.sides.items) }
{
    let condition = positive(alloc, amount)?;
    let place = state.placed(at);
    let row = Rc::new(alloc, row)?;
    let next = Rc::new(alloc, Next::Evals(es.clone()?, row))?;
    let frame = Frame::Go(next);
    conts.ask(alloc, program, condition, place, Code::Amount, state, frame)
}

/// On with a quotient or a remainder, where the divisor isn't 0.
fn step_divided(
    alloc: Global,
    program: &Settled,
    at: Place,
    op: Division,
    first: &Rc<Term>,
    divisor: &Rc<Term>,
    hole: &Rc<Hole>,
    state: SymState,
    conts: &mut Conts,
) -> Result<Move, AllocError>
    ensures { IfOk result (λ m. Stepped (settled program.now)
        (with_divisor at (state_of state) (held_term divisor.now)
        (giving (settled program.now) hole.now.value (rule.divided (division op) (held_term first.now) (held_term divisor.now)))) conts.old.sides.items m
        conts.new.sides.items) }
{
    let is_zero = numbers::eq(alloc, divisor, &make::int(alloc, 0)?)?;
    let condition = make::not(alloc, &is_zero)?;
    let place = state.placed(at);
    let frame = Frame::Give(divided(alloc, op, first, divisor)?, hole.clone()?);
    conts.ask(
        alloc,
        program,
        condition,
        place,
        Code::Divisor,
        state,
        frame,
    )
}

/// The two sides of a connective: its right part, or its value without it.
fn step_short(
    alloc: Global,
    program: &Settled,
    value: Rc<Term>,
    op: Connective,
    right: &Rc<Expr>,
    hole: &Rc<Hole>,
    state: SymState,
    conts: &mut Conts,
) -> Result<Move, AllocError>
    ensures { IfOk result (λ m. Stepped (settled program.now) (rule.short (connective op) (held_term value) (state_of state)
        (λ s. rule.eval (settled program.now) (rules (settled program.now)) (expr right.now.value) s (giving (settled program.now) hole.now.value))
        (giving (settled program.now) hole.now.value)) conts.old.sides.items m conts.new.sides.items) }
{
    let more = evaluation(right, hole)?;
    match op {
        Connective::And => {
            let done = truth(alloc, false, hole)?;
            conts.fork(alloc, program, value, state, more, done)
        }
        Connective::Or => {
            let done = truth(alloc, true, hole)?;
            conts.fork(alloc, program, value, state, done, more)
        }
        Connective::Implies => {
            let done = truth(alloc, true, hole)?;
            conts.fork(alloc, program, value, state, more, done)
        }
    }
}
