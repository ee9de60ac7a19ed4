//! A step of an expression.

ghost use Rattle.std.specs.Prelude.{IfOk};
ghost use Rattle.vx_resolved.specs.Resolved.{expr};
ghost use Rattle.vx_rules.specs.Members.{rules};
ghost use Rattle.vx_rules.specs.Rules as rule;
ghost use Rattle.vx_stack.specs.Stack.{giving, Stepped};
ghost use Rattle.vx_states.specs.SymStates.{state as state_of};
ghost use Rattle.vx_resolved.specs.Settled.{settled};

use crate::divisions::{numeral, part};
use crate::made::give_made;
use crate::waits::{before_arguments, before_branches, before_right};
use std::alloc::{AllocError, Global};
use std::rc::Rc;
use vx_resolved::{Expr, Settled};
use vx_stack::{Conts, Hole, Move, Operand, Row};
use vx_states::SymState;
use vx_terms::{make, snapshots};

/// A step of an expression whose value goes into a hole. A numeral past 128 bits, which no text has, is refused as for
/// want of memory.
pub fn step(
    alloc: Global,
    program: &Settled,
    e: &Expr,
    hole: Rc<Hole>,
    state: SymState,
    conts: &mut Conts,
) -> Result<Move, AllocError>
    ensures { IfOk result (λ m. Stepped (settled program.now)
        (rule.eval (settled program.now) (rules (settled program.now)) (expr e.now) (state_of state) (giving (settled program.now) hole.value))
        conts.old.sides.items m conts.new.sides.items) }
{
    match e {
        Expr::Number(_, n) => give_made(program, numeral(alloc, *n), &hole, state, conts),
        Expr::Truth(_, b) => give_made(program, make::boolean(alloc, *b), &hole, state, conts),
        Expr::Null(_) => give_made(program, snapshots::null(alloc), &hole, state, conts),
        Expr::Part(_, n, d) => give_made(program, part(alloc, *n, *d), &hole, state, conts),
        Expr::Variable(_, x) => {
            let value = state.value_of(alloc, x);
            give_made(program, value, &hole, state, conts)
        }
        Expr::Not(_, a) => conts.eval(
            alloc,
            program,
            a,
            Hole::Operand(Operand::Negate, hole),
            state,
        ),
        Expr::Operate(_, op, a, b) => {
            let operand = Operand::OperateRight(*op, b.clone()?);
            conts.eval(alloc, program, a, Hole::Operand(operand, hole), state)
        }
        Expr::Divide(at, op, a, b) => {
            let operand = Operand::DivideRight(*at, *op, b.clone()?);
            conts.eval(alloc, program, a, Hole::Operand(operand, hole), state)
        }
        Expr::Connect(_, op, a, b) => {
            let operand = before_right(*op, b)?;
            conts.eval(alloc, program, a, Hole::Operand(operand, hole), state)
        }
        Expr::Choose(_, c, a, b) => {
            let operand = before_branches(a, b)?;
            conts.eval(alloc, program, c, Hole::Operand(operand, hole), state)
        }
        Expr::Read(at, e, field) => {
            let operand = Operand::Receiver(*at, field.clone()?);
            conts.eval(alloc, program, e, Hole::Operand(operand, hole), state)
        }
        Expr::Old(_, e) => {
            let mut state = state;
            let old = state.old_heap.clone()?;
            let heap = state.exchange_heap(old);
            conts.eval(
                alloc,
                program,
                e,
                Hole::Operand(Operand::Restore(heap), hole),
                state,
            )
        }
        Expr::Apply(at, f, es) => {
            let row = Row::Apply(*at, f.clone()?, hole);
            conts.evals(alloc, program, es, row, state)
        }
        Expr::Unfolding(at, i, es, share, e) => {
            let operand = before_arguments(*at, i, es, e, &state.heap)?;
            conts.eval(alloc, program, share, Hole::Operand(operand, hole), state)
        }
    }
}
