//! What waits for a part of an assertion that is consumed, made of copies of its parts.

ghost use Rattle.std.specs.Prelude.{◌≡◌, IfOk, string_bytes};
ghost use Rattle.vx_ast.specs.Syntax.{Program};
ghost use Rattle.vx_heap.specs.Views.{heap as heap_of};
ghost use Rattle.vx_rules.specs.States.{with_heap};
ghost use Rattle.vx_rules.specs.Trees as tree;
ghost use Rattle.vx_stack.specs.Stack.{consumed as consumed_of, context, frame_tree, giving, wrapped};
ghost use Rattle.vx_stack.specs.declared.waiting.Consumed.TheVariants as waits;
ghost use Rattle.vx_states.specs.SymStates.{state as state_of};
ghost use Rattle.vx_terms.specs.Build as built;

use std::alloc::{AllocError, Global};
use std::rc::Rc;
use vx_heap::SymHeap;
use vx_stack::{Codes, Consumed, Frame, Hole, Next};
use vx_states::SymState;
use vx_terms::Term;

/// A state with this heap.
pub(crate) fn in_heap(heap: &Rc<SymHeap>, state: SymState) -> Result<SymState, AllocError>
    ensures { IfOk result (λ s. state_of s ≡ with_heap (heap_of heap.now.value) (state_of state)) }
{
    let mut state = state;
    let _before = state.exchange_heap(heap.clone()?);
    Ok(state)
}

/// On behind a pure part, in the heap of before it.
pub(crate) fn frame_of_unit(
    alloc: Global,
    heap: &Rc<SymHeap>,
    hole: &Rc<Hole>,
) -> Result<Frame, AllocError>
    ensures { (p : Program) → IfOk result (λ f. frame_tree p f ≡ (λ s. tree.Step (giving p hole.now.value built.unit (with_heap (heap_of heap.now.value) s)))) }
{
    let unit = Next::Unit(heap.clone()?, hole.clone()?);
    Ok(Frame::Go(Rc::new(alloc, unit)?))
}

/// The right snapshot, after the left one.
pub(crate) fn hole_of_right(
    alloc: Global,
    left: Rc<Term>,
    codes: Codes,
    hole: &Rc<Hole>,
) -> Result<Rc<Hole>, AllocError>
    ensures { (p : Program) → IfOk result (λ h. giving p h.value ≡ consumed_of p (waits.With left codes) (giving p hole.now.value)) }
{
    let waits = Consumed::With(left, codes);
    Ok(Rc::new(alloc, Hole::Consumed(waits, hole.clone()?))?)
}

/// The value of a location that is taken.
pub(crate) fn hole_of_wrap(
    alloc: Global,
    field: &Rc<String>,
    codes: Codes,
    hole: &Rc<Hole>,
) -> Result<Rc<Hole>, AllocError>
    ensures { (p : Program) → IfOk result (λ h. giving p h.value ≡ wrapped p (string_bytes field.now.value) (context codes) (giving p hole.now.value)) }
{
    let waits = Consumed::Wrap(field.clone()?, codes);
    Ok(Rc::new(alloc, Hole::Consumed(waits, hole.clone()?))?)
}
