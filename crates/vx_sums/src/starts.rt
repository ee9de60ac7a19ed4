//! A location is used: by a chunk of its own that is literally as wanted, else by one question on the sum of all.

ghost use Rattle.std.specs.Prelude.{◌≡◌, [], ◌∷◌, true, IfOk, Some, option_map, string_bytes};
ghost use Rattle.vx_heap.specs.Views.{candidate, heap as heap_of, held_term};
ghost use Rattle.vx_resolved.specs.Settled.{settled};
ghost use Rattle.vx_rules.specs.Chunks.{candidates, chosen, field_key, holds_amount, holds_some, reduced, sum_at, surely};
ghost use Rattle.vx_rules.specs.Codes.{code as code_of};
ghost use Rattle.vx_rules.specs.Rules as rule;
ghost use Rattle.vx_rules.specs.States as states;
ghost use Rattle.vx_rules.specs.Trees.{PermissionCode};
ghost use Rattle.vx_stack.specs.Stack.{giving, going, read_over, take_over, write_over, wanted_by, Stepped};
ghost use Rattle.vx_states.specs.SymStates.{state as state_of};
ghost use Rattle.vx_terms.specs.Build.{less, less_equal, whole_amount, zero_amount};

use crate::located::{held_at, held_surely};
use std::alloc::{AllocError, Global};
use std::rc::Rc;
use vx_ast::Place;
use vx_heap::{Candidate, SymHeap, positive, whole};
use vx_resolved::Settled;
use vx_rules::Code;
use vx_stack::{Conts, Frame, Hole, Location, Move, Next};
use vx_states::SymState;
use vx_terms::{Term, numbers};

/// A location is read where its chunks have an amount together.
fn ask_to_read(
    alloc: Global,
    program: &Settled,
    place: Place,
    field: &Rc<String>,
    receiver: Rc<Term>,
    hole: &Rc<Hole>,
    state: SymState,
    conts: &mut Conts,
) -> Result<Move, AllocError>
    ensures { IfOk result (λ m. Stepped (settled program.now)
        (rule.ask (less zero_amount (sum_at (held_term receiver)
        (candidates (field_key (string_bytes field.now.value) (held_term receiver)) (state_of state).heap))) place PermissionCode (state_of state)
        (read_over (settled program.now) (string_bytes field.now.value) (held_term receiver) (giving (settled program.now) hole.now.value)))
        conts.old.sides.items m conts.new.sides.items) }
{
    let sum = held_at(alloc, field, &receiver, &state.heap)?;
    let condition = positive(alloc, &sum)?;
    let next = Rc::new(
        alloc,
        Next::ReadOver(field.clone()?, receiver, hole.clone()?),
    )?;
    conts.ask(
        alloc,
        program,
        condition,
        place,
        Code::Permission,
        state,
        Frame::Go(next),
    )
}

/// A location is read.
pub fn read(
    alloc: Global,
    program: &Settled,
    place: Place,
    field: &Rc<String>,
    receiver: Rc<Term>,
    hole: &Rc<Hole>,
    state: SymState,
    conts: &mut Conts,
) -> Result<Move, AllocError>
    ensures { IfOk result (λ m. Stepped (settled program.now)
        (rule.by_sum (holds_some (held_term receiver ∷ [])) (less zero_amount)
        (field_key (string_bytes field.now.value) (held_term receiver)) place PermissionCode (state_of state)
        (λ c. giving (settled program.now) hole.now.value c.chunk.value (state_of state))
        (read_over (settled program.now) (string_bytes field.now.value) (held_term receiver) (giving (settled program.now) hole.now.value)))
        conts.old.sides.items m conts.new.sides.items) }
{
    let own = held_surely(alloc, field, &receiver, &None, &state.heap)?;
    match own {
        Some(it) => conts.give(program, it.chunk.value.clone()?, hole, state),
        None => ask_to_read(alloc, program, place, field, receiver, hole, state, conts),
    }
}

/// A location is written where its chunks have all of it together.
fn ask_to_write(
    alloc: Global,
    program: &Settled,
    place: Place,
    field: &Rc<String>,
    receiver: Rc<Term>,
    value: &Rc<Term>,
    next: &Rc<Next>,
    state: SymState,
    conts: &mut Conts,
) -> Result<Move, AllocError>
    ensures { IfOk result (λ m. Stepped (settled program.now)
        (rule.ask (less_equal whole_amount (sum_at (held_term receiver)
        (candidates (field_key (string_bytes field.now.value) (held_term receiver)) (state_of state).heap))) place PermissionCode (state_of state)
        (write_over (settled program.now) (string_bytes field.now.value) (held_term receiver) (held_term value.now)
        (going (settled program.now) next.now.value))) conts.old.sides.items m conts.new.sides.items) }
{
    let sum = held_at(alloc, field, &receiver, &state.heap)?;
    let condition = numbers::le(alloc, &whole(alloc)?, &sum)?;
    let after = Next::WriteOver(field.clone()?, receiver, value.clone()?, next.clone()?);
    let after = Rc::new(alloc, after)?;
    conts.ask(
        alloc,
        program,
        condition,
        place,
        Code::Permission,
        state,
        Frame::Go(after),
    )
}

/// A location is written.
pub fn write(
    alloc: Global,
    program: &Settled,
    place: Place,
    field: &Rc<String>,
    receiver: Rc<Term>,
    value: &Rc<Term>,
    next: &Rc<Next>,
    state: SymState,
    conts: &mut Conts,
) -> Result<Move, AllocError>
    ensures { IfOk result (λ m. Stepped (settled program.now)
        (rule.write_field (string_bytes field.now.value) (held_term receiver) (held_term value.now) place (state_of state)
        (going (settled program.now) next.now.value)) conts.old.sides.items m conts.new.sides.items) }
{
    let all = Some(whole(alloc)?);
    let own = held_surely(alloc, field, &receiver, &all, &state.heap)?;
    match own {
        Some(it) => {
            let mut state = state;
            state.write(alloc, &it, value.clone()?)?;
            conts.go(program, Frame::Go(next.clone()?), state)
        }
        None => ask_to_write(
            alloc, program, place, field, receiver, value, next, state, conts,
        ),
    }
}

/// The own chunk of a location that literally has its amount.
fn own_share(
    alloc: Global,
    location: &Location,
    heap: &SymHeap,
) -> Result<Option<Candidate>, AllocError>
    ensures { IfOk result (λ found. option_map candidate found
        ≡ surely (wanted_by (Some (held_term location.now.amount)) (held_term location.now.receiver ∷ []))
        (chosen true (field_key (string_bytes location.now.field.value) (held_term location.now.receiver)) 0 (heap_of heap.now))) }
{
    let all = Some(location.amount.clone()?);
    held_surely(alloc, &location.field, &location.receiver, &all, heap)
}

/// That the chunks of a location have its amount together.
fn together(alloc: Global, location: &Location, heap: &SymHeap) -> Result<Rc<Term>, AllocError>
    ensures { IfOk result (λ t. held_term t ≡ less_equal (held_term location.now.amount)
        (sum_at (held_term location.now.receiver) (candidates (field_key (string_bytes location.now.field.value) (held_term location.now.receiver))
        (heap_of heap.now)))) }
{
    let sum = held_at(alloc, &location.field, &location.receiver, heap)?;
    numbers::le(alloc, &location.amount, &sum)
}

/// An amount of a location is taken where its chunks have it together.
fn ask_to_take(
    alloc: Global,
    program: &Settled,
    place: Place,
    code: Code,
    location: &Rc<Location>,
    hole: &Rc<Hole>,
    state: SymState,
    conts: &mut Conts,
) -> Result<Move, AllocError>
    ensures { IfOk result (λ m. Stepped (settled program.now)
        (rule.ask (less_equal (held_term location.now.value.amount)
        (sum_at (held_term location.now.value.receiver) (candidates
        (field_key (string_bytes location.now.value.field.value) (held_term location.now.value.receiver)) (state_of state).heap))) place (code_of code)
        (state_of state) (take_over (settled program.now) (string_bytes location.now.value.field.value) (held_term location.now.value.receiver)
        (held_term location.now.value.amount) (giving (settled program.now) hole.now.value))) conts.old.sides.items m conts.new.sides.items) }
{
    let condition = together(alloc, location, &state.heap)?;
    let next = Rc::new(alloc, Next::TakeOver(location.clone()?, hole.clone()?))?;
    conts.ask(
        alloc,
        program,
        condition,
        place,
        code,
        state,
        Frame::Go(next),
    )
}

/// An amount of a location is taken.
pub fn take(
    alloc: Global,
    program: &Settled,
    place: Place,
    code: Code,
    location: &Rc<Location>,
    hole: &Rc<Hole>,
    state: SymState,
    conts: &mut Conts,
) -> Result<Move, AllocError>
    ensures { IfOk result (λ m. Stepped (settled program.now)
        (rule.by_sum (holds_amount (held_term location.now.value.amount) (held_term location.now.value.receiver ∷ []))
        (less_equal (held_term location.now.value.amount)) (field_key (string_bytes location.now.value.field.value) (held_term location.now.value.receiver))
        place (code_of code) (state_of state) (λ c. giving (settled program.now) hole.now.value c.chunk.value
        (states.with_heap (reduced c (held_term location.now.value.amount) (state_of state).heap) (state_of state)))
        (take_over (settled program.now) (string_bytes location.now.value.field.value) (held_term location.now.value.receiver)
        (held_term location.now.value.amount) (giving (settled program.now) hole.now.value))) conts.old.sides.items m conts.new.sides.items) }
{
    let own = own_share(alloc, location, &state.heap)?;
    match own {
        Some(it) => {
            let mut state = state;
            state.take(alloc, &it, &location.amount)?;
            conts.give(program, it.chunk.value.clone()?, hole, state)
        }
        None => ask_to_take(alloc, program, place, code, location, hole, state, conts),
    }
}
