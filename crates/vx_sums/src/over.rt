//! A location is read, written or taken over all its chunks, of whose sum was asked.

ghost use Rattle.std.specs.Prelude.{◌≡◌, IfOk, string_bytes};
ghost use Rattle.vx_ast.specs.Syntax.{Program};
ghost use Rattle.vx_heap.specs.Views.{held_term};
ghost use Rattle.vx_resolved.specs.Settled.{settled};
ghost use Rattle.vx_rules.specs.Rules as rule;
ghost use Rattle.vx_stack.specs.Stack as stack;
ghost use Rattle.vx_states.specs.SymStates.{state as state_of};

use crate::located::candidates_at;
use std::alloc::{AllocError, Global};
use std::rc::Rc;
use vx_resolved::Settled;
use vx_stack::{Left, Location, field_sort};
use vx_states::SymState;
use vx_terms::Term;

/// The value of a location.
pub fn read_over(
    alloc: Global,
    program: &Settled,
    field: &Rc<String>,
    receiver: &Rc<Term>,
    state: SymState,
) -> Result<Left, AllocError>
    ensures { (on : rule.Giving) → IfOk result (λ left. stack.read_over (settled program.now) (string_bytes field.now.value) (held_term receiver.now) on
        (state_of state) ≡ on (held_term left.value) (state_of left.state)) }
{
    let mut state = state;
    let all = candidates_at(alloc, field, receiver, &state.heap)?;
    let value = state.value_at(alloc, receiver, field_sort(program, field), &all)?;
    Ok(Left { value, state })
}

/// An amount of a location is taken, with its value.
pub fn take_over(
    alloc: Global,
    program: &Settled,
    location: &Location,
    state: SymState,
) -> Result<Left, AllocError>
    ensures { (on : rule.Giving) → IfOk result (λ left. stack.take_over (settled program.now) (string_bytes location.now.field.value)
        (held_term location.now.receiver) (held_term location.now.amount) on (state_of state) ≡ on (held_term left.value) (state_of left.state)) }
{
    let mut state = state;
    let receiver = &location.receiver;
    let all = candidates_at(alloc, &location.field, receiver, &state.heap)?;
    state.share_out(alloc, receiver, &location.amount, &all)?;
    state.drop_empty(alloc)?;
    let of = field_sort(program, &location.field);
    let value = state.value_at(alloc, receiver, of, &all)?;
    Ok(Left { value, state })
}

/// A value is written to a location.
pub fn write_over(
    alloc: Global,
    field: &Rc<String>,
    receiver: &Rc<Term>,
    value: &Rc<Term>,
    state: SymState,
) -> Result<SymState, AllocError>
    ensures { (p : Program) (on : rule.Going) → IfOk result
        (λ after. stack.write_over p (string_bytes field.now.value) (held_term receiver.now) (held_term value.now) on (state_of state) ≡ on (state_of after)) }
{
    let mut state = state;
    let all = candidates_at(alloc, field, receiver, &state.heap)?;
    state.write_each(alloc, receiver, value, &all)?;
    Ok(state)
}
