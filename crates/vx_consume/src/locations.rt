//! The steps of an amount of a field's location that is consumed.

ghost use Rattle.std.specs.Prelude.{◌≡◌, IfOk, string_bytes};
ghost use Rattle.vx_heap.specs.Views.{heap as heap_of, held_term};
ghost use Rattle.vx_resolved.specs.Settled.{settled};
ghost use Rattle.vx_rules.specs.Codes.{code as code_of};
ghost use Rattle.vx_rules.specs.Members.{rules};
ghost use Rattle.vx_rules.specs.Rules as rule;
ghost use Rattle.vx_stack.specs.Stack.{context, frame_tree, giving, Stepped, take_location, taking, wrapped};
ghost use Rattle.vx_states.specs.SymStates.{state as state_of};
ghost use Rattle.vx_terms.specs.Build.{multiply};
ghost use Rattle.vx_terms.specs.Views.{sort};

use crate::waits::hole_of_wrap;
use std::alloc::{AllocError, Global};
use std::rc::Rc;
use vx_ast::Place;
use vx_heap::{SymHeap, not_negative};
use vx_resolved::Settled;
use vx_rules::Code;
use vx_stack::{Codes, Consumption, Conts, Frame, Hole, Location, Move, Next, field_sort};
use vx_states::SymState;
use vx_terms::{Sort, Term, arithmetic, snapshots};

/// On with the amount that is taken from this heap.
fn take_frame(
    alloc: Global,
    program: &Settled,
    location: Location,
    codes: Codes,
    heap: &Rc<SymHeap>,
    hole: &Rc<Hole>,
) -> Result<Frame, AllocError>
    ensures { IfOk result (λ f. frame_tree (settled program.now) f
        ≡ (λ s. take_location (settled program.now) location.place (string_bytes location.field.value) (held_term location.receiver) (held_term location.amount)
        (code_of codes.permission) (heap_of heap.now.value) s (wrapped (settled program.now) (string_bytes location.field.value) (context codes)
        (giving (settled program.now) hole.now.value)))) }
{
    let _program = program;
    let after = hole_of_wrap(alloc, &location.field, codes, hole)?;
    let location = Rc::new(alloc, location)?;
    let take = Next::Take(location, codes.permission, heap.clone()?, after);
    Ok(Frame::Go(Rc::new(alloc, take)?))
}

/// A location's share, by the scale: it may not be negative, and then it is taken.
pub fn step_amount(
    alloc: Global,
    program: &Settled,
    share: &Rc<Term>,
    place: Place,
    field: &Rc<String>,
    receiver: &Rc<Term>,
    x: &Consumption,
    heap: &Rc<SymHeap>,
    hole: &Rc<Hole>,
    state: SymState,
    conts: &mut Conts,
) -> Result<Move, AllocError>
    ensures { IfOk result (λ m. Stepped (settled program.now)
        (taking (settled program.now) place (string_bytes field.now.value) (held_term receiver.now) (multiply (held_term x.now.scale) (held_term share.now))
        (code_of x.now.codes.permission) (heap_of heap.now.value) (state_of state)
        (wrapped (settled program.now) (string_bytes field.now.value) (context x.now.codes) (giving (settled program.now) hole.now.value)))
        conts.old.sides.items m conts.new.sides.items) }
{
    let amount = arithmetic::mul(alloc, &x.scale, share)?;
    let allowed = not_negative(alloc, &amount)?;
    let location = Location {
        place,
        field: field.clone()?,
        receiver: receiver.clone()?,
        amount,
    };
    let take = take_frame(alloc, program, location, x.codes, heap, hole)?;
    let at = state.placed(place);
    conts.ask(alloc, program, allowed, at, Code::Amount, state, take)
}

/// The fact on a wrapped value that is built, where it is given.
fn add_built_wrap(
    alloc: Global,
    codes: Codes,
    of: &Sort,
    value: &Rc<Term>,
    state: &mut SymState,
) -> Result<(), AllocError>
    ensures { IfOk result (λ _. state_of state.new ≡ rule.with_built_wrap (context codes) (sort of.now) (held_term value.now) (state_of state.old)) }
{
    if codes.builds {
        return state.add_wrap(alloc, of, value);
    }
    Ok(())
}

/// The value of a location that was taken, as its snapshot.
pub fn step_wrap(
    alloc: Global,
    program: &Settled,
    value: &Rc<Term>,
    field: &Rc<String>,
    codes: Codes,
    hole: &Rc<Hole>,
    state: SymState,
    conts: &mut Conts,
) -> Result<Move, AllocError>
    ensures { IfOk result (λ m. Stepped (settled program.now)
        (wrapped (settled program.now) (string_bytes field.now.value) (context codes) (giving (settled program.now) hole.now.value) (held_term value.now)
        (state_of state)) conts.old.sides.items m conts.new.sides.items) }
{
    let of = field_sort(program, field);
    let snapshot = snapshots::wrap(alloc, &of, value)?;
    let mut state = state;
    add_built_wrap(alloc, codes, &of, value, &mut state)?;
    conts.give(program, snapshot, hole, state)
}
