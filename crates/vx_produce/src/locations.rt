//! The steps of an amount of a field's location that is produced.

ghost use Rattle.std.specs.Prelude.{◌≡◌, IfOk, string_bytes};
ghost use Rattle.vx_heap.specs.Views.{chunk as chunk_view, held_term};
ghost use Rattle.vx_resolved.specs.Settled.{settled};
ghost use Rattle.vx_rules.specs.Chunks.{field_key};
ghost use Rattle.vx_rules.specs.Trees as tree;
ghost use Rattle.vx_stack.specs.Stack.{frame_tree, going, putting, Stepped, with_location};
ghost use Rattle.vx_states.specs.SymStates.{optional_term, state as state_of};
ghost use Rattle.vx_terms.specs.Build.{multiply};

use crate::waits::on_with;
use std::alloc::{AllocError, Global};
use std::rc::Rc;
use vx_ast::Place;
use vx_heap::{Chunk, Resource, not_negative};
use vx_resolved::Settled;
use vx_rules::Code;
use vx_stack::{Conts, Frame, Location, Move, Next, Production, field_sort};
use vx_states::SymState;
use vx_terms::{Term, arithmetic};

/// An amount: a share, by the scale.
pub fn scaled(alloc: Global, x: &Production, share: &Rc<Term>) -> Result<Rc<Term>, AllocError>
    ensures { IfOk result (λ t. held_term t ≡ multiply (held_term x.now.scale) (held_term share.now)) }
{
    arithmetic::mul(alloc, &x.scale, share)
}

/// On with the amount that is put.
fn put_frame(
    alloc: Global,
    program: &Settled,
    location: Location,
    x: &Rc<Production>,
    is_inner: bool,
    next: &Rc<Next>,
) -> Result<Frame, AllocError>
    ensures { IfOk result (λ f. frame_tree (settled program.now) f
        ≡ (λ s. tree.Step (going (settled program.now) next.now.value
        (with_location (settled program.now) (string_bytes location.field.value) (held_term location.receiver) (held_term location.amount)
        (optional_term x.now.value.snapshot) is_inner s)))) }
{
    let _program = program;
    let location = Rc::new(alloc, location)?;
    let put = Next::Put(location, x.clone()?, is_inner, next.clone()?);
    Ok(Frame::Go(Rc::new(alloc, put)?))
}

/// A location's share, by the scale: it may not be negative, and then it is put.
pub fn step_amount(
    alloc: Global,
    program: &Settled,
    share: &Rc<Term>,
    place: Place,
    field: &Rc<String>,
    receiver: &Rc<Term>,
    x: &Rc<Production>,
    is_inner: bool,
    next: &Rc<Next>,
    state: SymState,
    conts: &mut Conts,
) -> Result<Move, AllocError>
    ensures { IfOk result (λ m. Stepped (settled program.now)
        (putting (settled program.now) place (string_bytes field.now.value) (held_term receiver.now)
        (multiply (held_term x.now.value.scale) (held_term share.now)) (optional_term x.now.value.snapshot) is_inner (state_of state)
        (going (settled program.now) next.now.value)) conts.old.sides.items m conts.new.sides.items) }
{
    let amount = scaled(alloc, x, share)?;
    let allowed = not_negative(alloc, &amount)?;
    let location = Location {
        place,
        field: field.clone()?,
        receiver: receiver.clone()?,
        amount,
    };
    let put = put_frame(alloc, program, location, x, is_inner, next)?;
    let at = state.placed(place);
    conts.ask(alloc, program, allowed, at, Code::Amount, state, put)
}

/// The chunk of a location with this value.
fn chunk_of(
    alloc: Global,
    location: &Location,
    value: Rc<Term>,
    is_inner: bool,
) -> Result<Chunk, AllocError>
    ensures { IfOk result (λ c. chunk_view c ≡ record (field_key (string_bytes location.now.field.value) (held_term location.now.receiver))
        { amount = held_term location.now.amount; value = held_term value; inner = is_inner }) }
{
    let mut arguments = Vec::new(alloc);
    arguments.push(location.receiver.clone()?)?;
    Ok(Chunk {
        resource: Resource::Field(location.field.clone()?),
        arguments,
        amount: location.amount.clone()?,
        value,
        is_root: false,
        is_inner,
    })
}

/// A location's amount is put, with a value that is new or by the snapshot.
pub fn step_put(
    alloc: Global,
    program: &Settled,
    location: &Location,
    x: &Production,
    is_inner: bool,
    next: &Rc<Next>,
    state: SymState,
    conts: &mut Conts,
) -> Result<Move, AllocError>
    ensures { IfOk result (λ m. Stepped (settled program.now)
        (tree.Step (going (settled program.now) next.now.value
        (with_location (settled program.now) (string_bytes location.now.field.value) (held_term location.now.receiver) (held_term location.now.amount)
        (optional_term x.now.snapshot) is_inner (state_of state)))) conts.old.sides.items m conts.new.sides.items) }
{
    let mut state = state;
    let of = field_sort(program, &location.field);
    let value = state.produced_value(alloc, of, &x.snapshot)?;
    let chunk = chunk_of(alloc, location, value, is_inner)?;
    state.put(alloc, chunk)?;
    on_with(program, next, state, conts)
}
