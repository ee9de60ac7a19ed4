//! The instance that a function's measure names becomes the root.

ghost use Rattle.std.specs.Prelude.{◌≡◌, IfOk, true, slice_set};
ghost use Rattle.vx_heap.specs.Views.{candidate, heap};
ghost use Rattle.vx_rules.specs.Members.{rooted};
ghost use Rattle.vx_states.specs.SymStates.{state as state_of};

use crate::SymState;
use std::alloc::{AllocError, Global};
use std::rc::Rc;
use vx_heap::{Candidate, SymHeap};

/// Marks a candidate in a heap, in place where nobody else holds it.
fn mark_in(alloc: Global, held: &mut Rc<SymHeap>, at: &Candidate) -> Result<(), AllocError>
    ensures { IfOk result (λ _. heap held.new.value ≡ slice_set (heap held.old.value) at.now.number (record (candidate at.now).chunk { root = true })) }
{
    match Rc::get_mut(held) {
        Some(own) => own.mark_root(alloc, at),
        None => {
            let mut own = held.copy(alloc)?;
            own.mark_root(alloc, at)?;
            *held = Rc::new(alloc, own)?;
            Ok(())
        }
    }
}

/// A candidate becomes the root.
pub fn mark_root(alloc: Global, state: &mut SymState, at: &Candidate) -> Result<(), AllocError>
    ensures { IfOk result (λ _. state_of state.new ≡ rooted (candidate at.now) (state_of state.old)) }
{
    mark_in(alloc, &mut state.heap, at)
}
