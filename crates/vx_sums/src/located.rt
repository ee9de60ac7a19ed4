//! The chunks of a field that may be at a receiver.

ghost use Rattle.std.specs.Prelude.{◌≡◌, [], ◌∷◌, true, IfOk, option_map, string_bytes};
ghost use Rattle.vx_heap.specs.Views.{candidate, candidates_of, chunk as chunk_view, heap as heap_of, held_term, key, terms_of};
ghost use Rattle.vx_rules.specs.Chunks as chunks;
ghost use Rattle.vx_rules.specs.Chunks.{chosen, field_key};
ghost use Rattle.vx_stack.specs.Stack.{wanted_by};
ghost use Rattle.vx_states.specs.SymStates.{optional_term};
ghost use Rattle.vx_terms.specs.Build.{true_term};
ghost use Rattle.vx_terms.specs.Terms.{same};

use std::alloc::{AllocError, Global};
use std::rc::Rc;
use vx_heap::{Candidate, Chunk, Resource, SymHeap, holds_amount, holds_some, sum_at};
use vx_terms::Term;

/// A field at a receiver, as chunks are looked up.
struct Key {
    resource: Resource,
    arguments: Vec<Rc<Term>>,
}

impl Drop for Key {
    fn drop(self) {
        let Self {
            resource,
            arguments,
        } = self;
    }
}

fn field_at(alloc: Global, field: &Rc<String>, receiver: &Rc<Term>) -> Result<Key, AllocError>
    ensures key { IfOk result (λ k. key k.resource k.arguments.items ≡ field_key (string_bytes field.now.value) (held_term receiver.now)) }
    ensures arguments { IfOk result (λ k. terms_of k.arguments.items ≡ held_term receiver.now ∷ []) }
{
    let mut arguments = Vec::new(alloc);
    arguments.push(receiver.clone()?)?;
    let resource = Resource::Field(field.clone()?);
    Ok(Key {
        resource,
        arguments,
    })
}

/// The chunks of a field: those of the receiver first.
pub(crate) fn candidates_at(
    alloc: Global,
    field: &Rc<String>,
    receiver: &Rc<Term>,
    heap: &SymHeap,
) -> Result<Vec<Candidate>, AllocError>
    ensures { IfOk result (λ found. candidates_of found.items ≡ chunks.candidates (field_key (string_bytes field.now.value) (held_term receiver.now)) (heap_of heap.now)) }
{
    let at = field_at(alloc, field, receiver)?;
    heap.candidates(alloc, &at.resource, &at.arguments)
}

/// What all the chunks of a field have together at a receiver.
pub(crate) fn held_at(
    alloc: Global,
    field: &Rc<String>,
    receiver: &Rc<Term>,
    heap: &SymHeap,
) -> Result<Rc<Term>, AllocError>
    ensures { IfOk result (λ t. held_term t ≡ chunks.sum_at (held_term receiver.now)
        (chunks.candidates (field_key (string_bytes field.now.value) (held_term receiver.now)) (heap_of heap.now))) }
{
    let all = candidates_at(alloc, field, receiver, heap)?;
    sum_at(alloc, receiver, &all)
}

/// That a chunk has these arguments and some amount, or this one or more.
fn wanted(
    alloc: Global,
    amount: &Option<Rc<Term>>,
    arguments: &[Rc<Term>],
    chunk: &Chunk,
) -> Result<Rc<Term>, AllocError>
    ensures { IfOk result (λ t. held_term t ≡ wanted_by (optional_term amount.now) (terms_of arguments.now) (chunk_view chunk.now)) }
{
    match amount {
        Some(amount) => holds_amount(alloc, amount, arguments, chunk),
        None => holds_some(alloc, arguments, chunk),
    }
}

/// Whether a candidate is literally as wanted.
fn is_held(
    alloc: Global,
    amount: &Option<Rc<Term>>,
    arguments: &[Rc<Term>],
    of: &Candidate,
) -> Result<bool, AllocError>
    ensures { IfOk result (λ b. b ≡ same (wanted_by (optional_term amount.now) (terms_of arguments.now) (candidate of.now).chunk) true_term) }
{
    let condition = wanted(alloc, amount, arguments, &of.chunk)?;
    Ok(condition.is_same(&Term::Truth(true)))
}

/// The first of some candidates that is literally as wanted.
fn first_held(
    alloc: Global,
    amount: &Option<Rc<Term>>,
    arguments: &[Rc<Term>],
    candidates: &[Candidate],
) -> Result<Option<Candidate>, AllocError>
    ensures { IfOk result (λ found. option_map candidate found ≡ chunks.surely (wanted_by (optional_term amount.now) (terms_of arguments.now)) (candidates_of candidates.now)) }
{
    for c in candidates {
        if is_held(alloc, amount, arguments, c)? {
            let chunk = c.chunk.clone()?;
            return Ok(Some(Candidate {
                number: c.number,
                chunk,
            }));
        }
    }
    Ok(None)
}

/// The first own chunk of a location that literally has some amount, or this one or more.
pub(crate) fn held_surely(
    alloc: Global,
    field: &Rc<String>,
    receiver: &Rc<Term>,
    amount: &Option<Rc<Term>>,
    heap: &SymHeap,
) -> Result<Option<Candidate>, AllocError>
    ensures { IfOk result (λ found. option_map candidate found
        ≡ chunks.surely (wanted_by (optional_term amount.now) (held_term receiver.now ∷ []))
        (chosen true (field_key (string_bytes field.now.value) (held_term receiver.now)) 0 (heap_of heap.now))) }
{
    let at = field_at(alloc, field, receiver)?;
    let own = heap.own_candidates(alloc, &at.resource, &at.arguments)?;
    first_held(alloc, amount, &at.arguments, &own)
}
