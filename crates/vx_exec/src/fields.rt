//! The steps of `new` and of a field that is written.

ghost use Rattle.std.specs.Prelude.{◌≡◌, IfOk, map, string_bytes};
ghost use Rattle.vx_heap.specs.Views.{chunk as chunk_view, held_term};
ghost use Rattle.vx_resolved.specs.Settled.{settled};
ghost use Rattle.vx_rules.specs.Chunks as chunks;
ghost use Rattle.vx_rules.specs.Chunks.{field_key};
ghost use Rattle.vx_rules.specs.Members as rule;
ghost use Rattle.vx_rules.specs.Rules.{field_sort as field_sort_of};
ghost use Rattle.vx_rules.specs.States as states;
ghost use Rattle.vx_rules.specs.Trees as tree;
ghost use Rattle.vx_stack.specs.Stack.{going, Stepped};
ghost use Rattle.vx_states.specs.SymStates.{state as state_of};
ghost use Rattle.vx_terms.specs.Build.{whole_amount};
ghost use Rattle.vx_terms.specs.Sorts.{RefSort};

use crate::waits::on_with;
use std::alloc::{AllocError, Global};
use std::rc::Rc;
use vx_heap::{Chunk, Resource};
use vx_resolved::Settled;
use vx_stack::{Conts, Move, Next, field_sort};
use vx_states::SymState;
use vx_terms::Term;

/// All of a field's location, with this value.
fn whole_chunk(
    alloc: Global,
    field: &Rc<String>,
    receiver: &Rc<Term>,
    value: Rc<Term>,
) -> Result<Chunk, AllocError>
    ensures { IfOk result (λ c. chunk_view c ≡ record (field_key (string_bytes field.now.value) (held_term receiver.now)) { amount = whole_amount; value = held_term value }) }
{
    let mut arguments = Vec::new(alloc);
    arguments.push(receiver.clone()?)?;
    Ok(Chunk {
        resource: Resource::Field(field.clone()?),
        arguments,
        amount: vx_heap::whole(alloc)?,
        value,
        is_root: false,
        is_inner: false,
    })
}

/// All of a field of a new reference is put, with a new value.
fn put_field(
    alloc: Global,
    program: &Settled,
    field: &Rc<String>,
    reference: &Rc<Term>,
    state: &mut SymState,
) -> Result<(), AllocError>
    ensures { IfOk result (λ _. state_of state.new ≡ chunks.put
        (record (field_key (string_bytes field.now.value) (held_term reference.now)) {
          amount = whole_amount;
          value = states.fresh
              (field_sort_of (settled program.now) (string_bytes field.now.value)) (state_of state.old);
        }) (states.after_fresh (state_of state.old))) }
{
    let value = state.new_symbol(alloc, field_sort(program, field))?;
    let chunk = whole_chunk(alloc, field, reference, value)?;
    state.put(alloc, chunk)
}

/// These fields of a new reference are put, in the order listed.
fn put_fields(
    alloc: Global,
    program: &Settled,
    fields: &[Rc<String>],
    reference: &Rc<Term>,
    state: &mut SymState,
) -> Result<(), AllocError>
    ensures { IfOk result (λ _. state_of state.new ≡ rule.put_fields (settled program.now) (map (λ f. string_bytes f.value) fields.now)
        (held_term reference.now) (state_of state.old)) }
{
    for field in fields {
        put_field(alloc, program, field, reference, state)?;
    }
    Ok(())
}

/// A new reference, with the fields that are permitted.
pub fn step_new(
    alloc: Global,
    program: &Settled,
    x: &Rc<String>,
    fields: &[Rc<String>],
    next: &Rc<Next>,
    state: SymState,
    conts: &mut Conts,
) -> Result<Move, AllocError>
    ensures { IfOk result (λ m. let v = states.fresh RefSort (state_of state) in
        let s = rule.put_fields (settled program.now) (map (λ f. string_bytes f.value) fields.now) v
        (states.with_facts (rule.distinct v (state_of state)) (states.after_fresh (state_of state))) in
        Stepped (settled program.now) (tree.Step (going (settled program.now) next.now.value
        (states.with_store (states.assign (string_bytes x.now.value) v s.store) s))) conts.old.sides.items m conts.new.sides.items) }
{
    let mut state = state;
    let reference = state.new_reference(alloc)?;
    put_fields(alloc, program, fields, &reference, &mut state)?;
    state.assign(x, reference);
    on_with(program, next, state, conts)
}
