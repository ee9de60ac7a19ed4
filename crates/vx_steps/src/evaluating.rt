//! A value goes on to the expression that it is an operand of.

ghost use Rattle.std.specs.Prelude.{◌≡◌, IfOk};
ghost use Rattle.vx_heap.specs.Views.{held_term};
ghost use Rattle.vx_resolved.specs.Settled.{settled};
ghost use Rattle.vx_stack.specs.Stack.{giving, operand as operand_of, Stepped};
ghost use Rattle.vx_states.specs.SymStates.{state as state_of};

use std::alloc::{AllocError, Global};
use std::rc::Rc;
use vx_funcs::{step_applied, step_measured};
use vx_probes::read_field;
use vx_resolved::Settled;
use vx_stack::{Conts, Hole, Move, Operand};
use vx_states::SymState;
use vx_terms::Term;

/// The value of an operand goes on to the expression that it stands in.
pub fn step_operand(
    alloc: Global,
    program: &Settled,
    value: Rc<Term>,
    operand: &Operand,
    hole: &Rc<Hole>,
    state: SymState,
    conts: &mut Conts,
) -> Result<Move, AllocError>
    ensures { IfOk result (λ m. Stepped (settled program.now)
        (operand_of (settled program.now) operand.now (giving (settled program.now) hole.now.value) (held_term value) (state_of state)) conts.old.sides.items m
        conts.new.sides.items) }
{
    match operand {
        Operand::Receiver(at, field) => {
            let place = state.placed(*at);
            read_field(alloc, program, place, field, value, hole, state, conts)
        }
        Operand::Applied(x, caller, heap) => step_applied(
            alloc, program, value, x, caller, heap, hole, state, conts,
        ),
        Operand::Measured(x, own, caller) => step_measured(
            alloc, program, &value, x, own, caller, hole, state, conts,
        ),
        _ => vx_eval::step_operand(alloc, program, value, operand, hole, state, conts),
    }
}
