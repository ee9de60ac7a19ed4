//! On with a value that was made.

ghost use Rattle.std.specs.Prelude.{◌≡◌, IfOk};
ghost use Rattle.vx_heap.specs.Views.{held_term};
ghost use Rattle.vx_resolved.specs.Settled.{settled};
ghost use Rattle.vx_rules.specs.Trees.{Step};
ghost use Rattle.vx_stack.specs.Stack.{giving, Stepped};
ghost use Rattle.vx_states.specs.SymStates.{state as state_of};
ghost use Rattle.vx_terms.specs.Terms as written;

use std::alloc::AllocError;
use std::rc::Rc;
use vx_resolved::Settled;
use vx_stack::{Conts, Hole, Move};
use vx_states::SymState;
use vx_terms::Term;

/// On with a value, where there was the memory to make it.
pub(crate) fn give_made(
    program: &Settled,
    made: Result<Rc<Term>, AllocError>,
    hole: &Rc<Hole>,
    state: SymState,
    conts: &mut Conts,
) -> Result<Move, AllocError>
    ensures { (t : written.Term) → IfOk made (λ v. held_term v ≡ t)
        → IfOk result (λ m. Stepped (settled program.now) (Step (giving (settled program.now) hole.now.value t (state_of state))) conts.old.sides.items m
        conts.new.sides.items) }
{
    match made {
        Ok(value) => conts.give(program, value, hole, state),
        Err(e) => Err(e),
    }
}
