//! The steps of an amount of a predicate's instance that is consumed.

ghost use Rattle.std.specs.Prelude.{◌≡◌, IfOk, string_bytes};
ghost use Rattle.vx_heap.specs.Views.{heap as heap_of, held_term};
ghost use Rattle.vx_resolved.specs.Settled.{settled};
ghost use Rattle.vx_rules.specs.Codes.{code as code_of};
ghost use Rattle.vx_rules.specs.Trees as tree;
ghost use Rattle.vx_stack.specs.Stack.{frame_tree, giving, Stepped, take_instance, taking_instance};
ghost use Rattle.vx_stack.specs.Values.{values};
ghost use Rattle.vx_states.specs.SymStates.{state as state_of};
ghost use Rattle.vx_terms.specs.Build.{multiply};

use std::alloc::{AllocError, Global};
use std::rc::Rc;
use vx_ast::Place;
use vx_heap::{SymHeap, not_negative};
use vx_resolved::Settled;
use vx_rules::Code;
use vx_stack::{Consumed, Consumption, Conts, Frame, Hole, Instance, Move, Next, Values};
use vx_states::SymState;
use vx_terms::{Term, arithmetic};

/// On with the amount that is taken from this heap; its snapshot is that of the chunk.
fn take_frame(
    alloc: Global,
    program: &Settled,
    instance: Instance,
    code: Code,
    heap: &Rc<SymHeap>,
    hole: &Rc<Hole>,
) -> Result<Frame, AllocError>
    ensures { IfOk result (λ f. frame_tree (settled program.now) f
        ≡ (λ s. take_instance (settled program.now) instance.place (string_bytes instance.predicate.value) (values instance.arguments.value)
        (held_term instance.amount) (code_of code) (heap_of heap.now.value) s (λ v s1. tree.Step (giving (settled program.now) hole.now.value v s1)))) }
{
    let _program = program;
    let after = Rc::new(alloc, Hole::Consumed(Consumed::Snapshot, hole.clone()?))?;
    let instance = Rc::new(alloc, instance)?;
    let take = Next::TakeInstance(instance, code, heap.clone()?, after);
    Ok(Frame::Go(Rc::new(alloc, take)?))
}

/// An instance's share, by the scale: it may not be negative, and then it is taken.
pub fn step_held(
    alloc: Global,
    program: &Settled,
    share: &Rc<Term>,
    place: Place,
    predicate: &Rc<String>,
    arguments: &Rc<Values>,
    x: &Consumption,
    heap: &Rc<SymHeap>,
    hole: &Rc<Hole>,
    state: SymState,
    conts: &mut Conts,
) -> Result<Move, AllocError>
    ensures { IfOk result (λ m. Stepped (settled program.now)
        (taking_instance (settled program.now) place (string_bytes predicate.now.value) (values arguments.now.value)
        (multiply (held_term x.now.scale) (held_term share.now)) (code_of x.now.codes.permission) (heap_of heap.now.value) (state_of state)
        (λ v s. tree.Step (giving (settled program.now) hole.now.value v s))) conts.old.sides.items m conts.new.sides.items) }
{
    let amount = arithmetic::mul(alloc, &x.scale, share)?;
    let allowed = not_negative(alloc, &amount)?;
    let instance = Instance {
        place,
        predicate: predicate.clone()?,
        arguments: arguments.clone()?,
        amount,
    };
    let take = take_frame(alloc, program, instance, x.codes.permission, heap, hole)?;
    let at = state.placed(place);
    conts.ask(alloc, program, allowed, at, Code::Amount, state, take)
}
