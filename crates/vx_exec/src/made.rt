//! On with what was made, where there was the memory for it.

ghost use Rattle.std.specs.Prelude.{◌≡◌, IfOk};
ghost use Rattle.vx_heap.specs.Views.{held_term};
ghost use Rattle.vx_resolved.specs.Resolved.{expr, exprs};
ghost use Rattle.vx_resolved.specs.Settled.{settled};
ghost use Rattle.vx_rules.specs.Members.{rules};
ghost use Rattle.vx_rules.specs.Rules.{Giving, GivingAll, Going, eval, evals, fork};
ghost use Rattle.vx_rules.specs.Trees.{Step};
ghost use Rattle.vx_stack.specs.Stack.{frame_tree, giving, giving_all, going, Stepped};
ghost use Rattle.vx_states.specs.SymStates.{state as state_of};

use std::alloc::{AllocError, Global};
use std::rc::Rc;
use vx_resolved::{Expr, Exprs, Settled};
use vx_stack::{Conts, Frame, Hole, Move, Next, Row};
use vx_states::SymState;
use vx_terms::Term;

/// On with an expression, for what waits for its value.
pub(crate) fn eval_made(
    alloc: Global,
    program: &Settled,
    e: &Rc<Expr>,
    made: Result<Hole, AllocError>,
    state: SymState,
    conts: &mut Conts,
) -> Result<Move, AllocError>
    ensures { (on : Giving) → IfOk made (λ hole. giving (settled program.now) hole ≡ on)
        → IfOk result (λ m. Stepped (settled program.now) (Step
        (eval (settled program.now) (rules (settled program.now)) (expr e.now.value) (state_of state) on)) conts.old.sides.items m conts.new.sides.items) }
{
    match made {
        Ok(hole) => conts.eval(alloc, program, e, hole, state),
        Err(error) => Err(error),
    }
}

/// On with expressions, for what waits for their values.
pub(crate) fn evals_made(
    alloc: Global,
    program: &Settled,
    es: &Rc<Exprs>,
    made: Result<Row, AllocError>,
    state: SymState,
    conts: &mut Conts,
) -> Result<Move, AllocError>
    ensures { (on : GivingAll) → IfOk made (λ row. giving_all (settled program.now) row ≡ on)
        → IfOk result (λ m. Stepped (settled program.now) (Step
        (evals (settled program.now) (rules (settled program.now)) (exprs es.now.value) (state_of state) on)) conts.old.sides.items m conts.new.sides.items) }
{
    match made {
        Ok(row) => conts.evals(alloc, program, es, row, state),
        Err(error) => Err(error),
    }
}

/// On with what waits for the state.
pub(crate) fn next_made(
    alloc: Global,
    program: &Settled,
    made: Result<Next, AllocError>,
    state: SymState,
    conts: &mut Conts,
) -> Result<Move, AllocError>
    ensures { (on : Going) → IfOk made (λ n. going (settled program.now) n ≡ on)
        → IfOk result (λ m. Stepped (settled program.now) (Step (on (state_of state))) conts.old.sides.items m conts.new.sides.items) }
{
    match made {
        Ok(next) => conts.next(alloc, program, next, state),
        Err(error) => Err(error),
    }
}

/// On with two frames: with one where the condition holds, with the other where it doesn't.
pub(crate) fn fork_made(
    alloc: Global,
    program: &Settled,
    condition: Rc<Term>,
    left: Result<Frame, AllocError>,
    right: Result<Frame, AllocError>,
    state: SymState,
    conts: &mut Conts,
) -> Result<Move, AllocError>
    ensures { (a b : Going) → IfOk left (λ f. frame_tree (settled program.now) f ≡ a) → IfOk right (λ f. frame_tree (settled program.now) f ≡ b)
        → IfOk result (λ m. Stepped (settled program.now) (fork (held_term condition) (state_of state) a b) conts.old.sides.items m conts.new.sides.items) }
{
    conts.fork(alloc, program, condition, state, left?, right?)
}
