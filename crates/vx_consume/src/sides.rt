//! The steps of `==>` and `?:` that are consumed, after their condition.

ghost use Rattle.std.specs.Prelude.{◌≡◌, IfOk};
ghost use Rattle.vx_heap.specs.Views.{heap as heap_of, held_term};
ghost use Rattle.vx_resolved.specs.Resolved.{assertion};
ghost use Rattle.vx_resolved.specs.Settled.{settled};
ghost use Rattle.vx_rules.specs.Rules as rule;
ghost use Rattle.vx_rules.specs.States.{with_heap};
ghost use Rattle.vx_stack.specs.Stack.{consuming, frame_tree, giving, Stepped};
ghost use Rattle.vx_states.specs.SymStates.{state as state_of};
ghost use Rattle.vx_terms.specs.Build as built;

use crate::waits::in_heap;
use std::alloc::{AllocError, Global};
use std::rc::Rc;
use vx_heap::SymHeap;
use vx_resolved::{Assertion, Settled};
use vx_stack::{Consumption, Conts, Frame, Hole, Move, Next};
use vx_states::SymState;
use vx_terms::{Term, snapshots};

/// On with an assertion.
fn frame_of(
    alloc: Global,
    program: &Settled,
    a: &Rc<Assertion>,
    x: &Rc<Consumption>,
    hole: &Rc<Hole>,
) -> Result<Frame, AllocError>
    ensures { IfOk result (λ f. frame_tree (settled program.now) f
        ≡ (λ s. consuming (settled program.now) (assertion a.now.value) x.now.value s (giving (settled program.now) hole.now.value))) }
{
    let _program = program;
    let consume = Next::ConsumeFrom(a.clone()?, x.clone()?, hole.clone()?);
    Ok(Frame::Go(Rc::new(alloc, consume)?))
}

/// On behind `==>`, whose right part isn't looked at: its snapshot is unit.
fn frame_past(alloc: Global, program: &Settled, hole: &Rc<Hole>) -> Result<Frame, AllocError>
    ensures { IfOk result (λ f. frame_tree (settled program.now) f ≡ giving (settled program.now) hole.now.value built.unit) }
{
    let _program = program;
    let unit = snapshots::unit(alloc)?;
    Ok(Frame::Give(unit, hole.clone()?))
}

/// The sides of `==>`, in the heap of before; a right part that isn't looked at has the snapshot unit.
pub fn step_implied(
    alloc: Global,
    program: &Settled,
    condition: Rc<Term>,
    a: &Rc<Assertion>,
    x: &Rc<Consumption>,
    heap: &Rc<SymHeap>,
    hole: &Rc<Hole>,
    state: SymState,
    conts: &mut Conts,
) -> Result<Move, AllocError>
    ensures { IfOk result (λ m. Stepped (settled program.now) (rule.fork (held_term condition) (with_heap (heap_of heap.now.value) (state_of state))
        (λ s. consuming (settled program.now) (assertion a.now.value) x.now.value s (giving (settled program.now) hole.now.value))
        (giving (settled program.now) hole.now.value built.unit)) conts.old.sides.items m conts.new.sides.items) }
{
    let state = in_heap(heap, state)?;
    let left = frame_of(alloc, program, a, x, hole)?;
    let right = frame_past(alloc, program, hole)?;
    conts.fork(alloc, program, condition, state, left, right)
}

/// The sides of `?:`, in the heap of before.
pub fn step_chosen(
    alloc: Global,
    program: &Settled,
    condition: Rc<Term>,
    a: &Rc<Assertion>,
    b: &Rc<Assertion>,
    x: &Rc<Consumption>,
    heap: &Rc<SymHeap>,
    hole: &Rc<Hole>,
    state: SymState,
    conts: &mut Conts,
) -> Result<Move, AllocError>
    ensures { IfOk result (λ m. Stepped (settled program.now) (rule.fork (held_term condition) (with_heap (heap_of heap.now.value) (state_of state))
        (λ s. consuming (settled program.now) (assertion a.now.value) x.now.value s (giving (settled program.now) hole.now.value))
        (λ s. consuming (settled program.now) (assertion b.now.value) x.now.value s (giving (settled program.now) hole.now.value))) conts.old.sides.items m
        conts.new.sides.items) }
{
    let state = in_heap(heap, state)?;
    let left = frame_of(alloc, program, a, x, hole)?;
    let right = frame_of(alloc, program, b, x, hole)?;
    conts.fork(alloc, program, condition, state, left, right)
}
