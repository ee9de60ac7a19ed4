//! What the chunks of a field have together at a receiver.

ghost use Rattle.std.specs.Prelude.{◌≡◌, ◌∷◌, [], IfOk};
ghost use Rattle.vx_heap.specs.Views.{candidates_of, chunk as chunk_view, held_term, terms_of};
ghost use Rattle.vx_rules.specs.Chunks as chunks;
ghost use Rattle.vx_terms.specs.Build as built;

use crate::amounts::zero;
use crate::conditions::holds_some;
use crate::facts::first_argument;
use crate::{Candidate, Chunk};
use std::alloc::{AllocError, Global};
use std::rc::Rc;
use std::slice;
use vx_terms::{Term, arithmetic, make, numbers};

/// That a chunk is of a receiver.
fn is_at(alloc: Global, receiver: &Rc<Term>, chunk: &Chunk) -> Result<Rc<Term>, AllocError>
    ensures { IfOk result (λ t. held_term t ≡ built.equals (chunks.first_argument (chunk_view chunk.now).arguments) (held_term receiver.now)) }
{
    numbers::eq(alloc, &first_argument(alloc, chunk)?, receiver)
}

/// What a chunk has at a receiver.
fn part_at(alloc: Global, receiver: &Rc<Term>, chunk: &Chunk) -> Result<Rc<Term>, AllocError>
    ensures { IfOk result (λ t. held_term t ≡ chunks.part_at (held_term receiver.now) (chunk_view chunk.now)) }
{
    let there = is_at(alloc, receiver, chunk)?;
    make::ite(alloc, &there, &chunk.amount, &zero(alloc)?)
}

/// What candidates have at a receiver, added up from the left in their order: 0 without one.
pub fn sum_at(
    alloc: Global,
    receiver: &Rc<Term>,
    candidates: &[Candidate],
) -> Result<Rc<Term>, AllocError>
    ensures { IfOk result (λ t. held_term t ≡ chunks.sum_at (held_term receiver.now) (candidates_of candidates.now)) }
{
    let mut sum = zero(alloc)?;
    for candidate in candidates {
        let part = part_at(alloc, receiver, &candidate.chunk)?;
        sum = arithmetic::add(alloc, &sum, &part)?;
    }
    Ok(sum)
}

/// That the value at a receiver is that of a chunk, where its amount there is positive.
fn value_fact(
    alloc: Global,
    receiver: &Rc<Term>,
    value: &Rc<Term>,
    chunk: &Chunk,
) -> Result<Rc<Term>, AllocError>
    ensures { IfOk result (λ t. held_term t ≡ built.implies (chunks.holds_some (held_term receiver.now ∷ []) (chunk_view chunk.now))
        (built.equals (held_term value.now) (chunk_view chunk.now).value)) }
{
    let held = holds_some(alloc, slice::from_ref(receiver), chunk)?;
    make::implies(alloc, &held, &numbers::eq(alloc, value, &chunk.value)?)
}

/// That the value at a receiver is that of each candidate with a positive amount there.
pub fn value_facts(
    alloc: Global,
    receiver: &Rc<Term>,
    value: &Rc<Term>,
    candidates: &[Candidate],
) -> Result<Vec<Rc<Term>>, AllocError>
    ensures { IfOk result (λ facts. terms_of facts.items ≡ chunks.value_facts (held_term receiver.now) (held_term value.now) (candidates_of candidates.now)) }
{
    let mut facts = Vec::new(alloc);
    for candidate in candidates {
        facts.push(value_fact(alloc, receiver, value, &candidate.chunk)?)?;
    }
    Ok(facts)
}

/// The lesser of an amount and what is still wanted.
fn at_most(alloc: Global, wanted: &Rc<Term>, amount: &Rc<Term>) -> Result<Rc<Term>, AllocError>
    ensures { IfOk result (λ t. held_term t ≡ built.ite (built.less_equal (held_term amount.now) (held_term wanted.now)) (held_term amount.now) (held_term wanted.now)) }
{
    let is_less = numbers::le(alloc, amount, wanted)?;
    make::ite(alloc, &is_less, amount, wanted)
}

/// What a chunk gives of an amount that is still wanted at a receiver: what it has there, and no more than that.
pub fn share(
    alloc: Global,
    receiver: &Rc<Term>,
    wanted: &Rc<Term>,
    chunk: &Chunk,
) -> Result<Rc<Term>, AllocError>
    ensures { IfOk result (λ t. held_term t ≡ chunks.share (held_term receiver.now) (held_term wanted.now) (chunk_view chunk.now)) }
{
    let there = is_at(alloc, receiver, chunk)?;
    let given = at_most(alloc, wanted, &chunk.amount)?;
    make::ite(alloc, &there, &given, &zero(alloc)?)
}

/// The value of a chunk once another one is written at a receiver: that one, where the chunk is there.
pub fn value_where(
    alloc: Global,
    receiver: &Rc<Term>,
    value: &Rc<Term>,
    chunk: &Chunk,
) -> Result<Rc<Term>, AllocError>
    ensures { IfOk result (λ t. held_term t ≡ chunks.value_where (held_term receiver.now) (held_term value.now) (chunk_view chunk.now)) }
{
    let there = is_at(alloc, receiver, chunk)?;
    make::ite(alloc, &there, value, &chunk.value)
}
