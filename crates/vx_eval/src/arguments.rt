//! A step of a list of expressions, and of what waits for their values.

ghost use Rattle.std.specs.Prelude.{◌≡◌, ◌∷◌, IfOk};
ghost use Rattle.vx_resolved.specs.Resolved.{exprs};
ghost use Rattle.vx_resolved.specs.Settled.{settled};
ghost use Rattle.vx_rules.specs.Members.{rules};
ghost use Rattle.vx_rules.specs.Rules as rule;
ghost use Rattle.vx_rules.specs.Trees.{Step};
ghost use Rattle.vx_stack.specs.Stack.{giving_all, Stepped};
ghost use Rattle.vx_states.specs.SymStates.{state as state_of};
ghost use Rattle.vx_heap.specs.Views.{held_term};

use std::alloc::{AllocError, Global};
use std::rc::Rc;
use vx_resolved::{Exprs, Settled};
use vx_stack::{Conts, Hole, Move, Row, Values};
use vx_states::SymState;
use vx_terms::Term;

/// A step of a list of expressions, whose values go into a row.
pub fn step_all(
    alloc: Global,
    program: &Settled,
    es: &Exprs,
    row: &Rc<Row>,
    state: SymState,
    conts: &mut Conts,
) -> Result<Move, AllocError>
    ensures { IfOk result (λ m. Stepped (settled program.now)
        (rule.evals (settled program.now) (rules (settled program.now)) (exprs es.now) (state_of state) (giving_all (settled program.now) row.now.value))
        conts.old.sides.items m conts.new.sides.items) }
{
    match es {
        Exprs::NoMore => {
            let none = Rc::new(alloc, Values::None)?;
            conts.give_all(program, none, row, state)
        }
        Exprs::More(first, others) => {
            let hole = Hole::Argument(others.clone()?, row.clone()?);
            conts.eval(alloc, program, first, hole, state)
        }
    }
}

/// The value of the first of a list goes before those of the others.
pub fn step_argument(
    alloc: Global,
    program: &Settled,
    value: Rc<Term>,
    es: &Rc<Exprs>,
    row: &Rc<Row>,
    state: SymState,
    conts: &mut Conts,
) -> Result<Move, AllocError>
    ensures { IfOk result (λ m. Stepped (settled program.now)
        (rule.evals (settled program.now) (rules (settled program.now)) (exprs es.now.value) (state_of state)
        (λ ts s. Step (giving_all (settled program.now) row.now.value (held_term value ∷ ts) s))) conts.old.sides.items m conts.new.sides.items) }
{
    let row = Rc::new(alloc, Row::After(value, row.clone()?))?;
    step_all(alloc, program, es, &row, state, conts)
}
