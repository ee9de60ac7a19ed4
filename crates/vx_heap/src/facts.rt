//! The facts that the put of a chunk gives.

ghost use Rattle.std.specs.Prelude.{◌≡◌, ◌++◌, ◌∷◌, ◌&&◌, [], ℕ, true, List, length, IfOk, OnOk};
ghost use Rattle.vx_heap.specs.Heaps.{apart_onto, rest_of, standing, sum_fact};
ghost use Rattle.vx_heap.specs.Views.{candidate, candidates_of, chunk as chunk_view, heap, shared, terms_of, held_term};
ghost use Rattle.vx_rules.specs.Chunks as chunks;
ghost use Rattle.vx_rules.specs.Chunks.{apart, bounding, chosen};
ghost use Rattle.vx_terms.specs.Build as built;
ghost use Rattle.vx_terms.specs.Build.{whole_amount};
ghost use Rattle.vx_terms.specs.Terms as written;

use crate::amounts::{at_most_whole, positive};
use crate::sums::sum_at;
use crate::{Candidate, Chunk, SymHeap};
use std::alloc::{AllocError, Global};
use std::rc::Rc;
use vx_terms::{Term, arithmetic, make, numbers, snapshots};

/// The value of two chunks that are merged.
fn merged_value(alloc: Global, new: &Chunk, old: &Chunk) -> Result<Rc<Term>, AllocError>
    ensures { IfOk result (λ t. held_term t ≡ (chunks.merged (chunk_view new.now) (chunk_view old.now)).value) }
{
    make::ite(
        alloc,
        &positive(alloc, &old.amount)?,
        &old.value,
        &new.value,
    )
}

/// A chunk merged into one of identical arguments.
pub fn merged(alloc: Global, new: &Chunk, old: &Chunk) -> Result<Chunk, AllocError>
    ensures { IfOk result (λ whole. chunk_view whole ≡ chunks.merged (chunk_view new.now) (chunk_view old.now)) }
{
    let mut whole = old.copy(alloc)?;
    whole.amount = arithmetic::add(alloc, &old.amount, &new.amount)?;
    whole.value = merged_value(alloc, new, old)?;
    whole.is_root = old.is_root || new.is_root;
    whole.is_inner = old.is_inner || new.is_inner;
    Ok(whole)
}

/// That two chunks of positive amounts have one value.
fn agree(alloc: Global, new: &Chunk, old: &Chunk) -> Result<Rc<Term>, AllocError>
    ensures { IfOk result (λ t. held_term t ≡ chunks.agree (chunk_view new.now) (chunk_view old.now)) }
{
    let held = positive(alloc, &old.amount)?;
    let both = make::and(alloc, &held, &positive(alloc, &new.amount)?)?;
    make::implies(alloc, &both, &numbers::eq(alloc, &old.value, &new.value)?)
}

/// A chunk's first argument, which is a location's receiver.
pub(crate) fn first_argument(alloc: Global, chunk: &Chunk) -> Result<Rc<Term>, AllocError>
    ensures { IfOk result (λ t. held_term t ≡ chunks.first_argument (chunk_view chunk.now).arguments) }
{
    match &*chunk.arguments {
        [t, ..] => t.clone(),
        [] => snapshots::null(alloc),
    }
}

/// That the receiver of a positive amount isn't null.
fn is_not_null(alloc: Global, new: &Chunk) -> Result<Rc<Term>, AllocError>
    ensures { IfOk result (λ t. held_term t ≡ chunks.is_not_null (chunk_view new.now)) }
{
    let receiver = first_argument(alloc, new)?;
    let is_null = numbers::eq(alloc, &receiver, &snapshots::null(alloc)?)?;
    let held = positive(alloc, &new.amount)?;
    make::implies(alloc, &held, &make::not(alloc, &is_null)?)
}

/// That two chunks of one receiver are the whole at most.
fn apart_from(alloc: Global, whole: &Chunk, other: &Chunk) -> Result<Rc<Term>, AllocError>
    ensures { IfOk result (λ t. held_term t ≡ chunks.at_most_whole (chunk_view whole.now) (chunk_view other.now)) }
{
    let receiver = first_argument(alloc, other)?;
    let same = numbers::eq(alloc, &receiver, &first_argument(alloc, whole)?)?;
    let both = arithmetic::add(alloc, &whole.amount, &other.amount)?;
    make::implies(alloc, &same, &at_most_whole(alloc, &both)?)
}

/// That two chunks of one receiver and of positive amounts have one value.
fn one_value(alloc: Global, whole: &Chunk, other: &Chunk) -> Result<Rc<Term>, AllocError>
    ensures { IfOk result (λ t. held_term t ≡ chunks.one_value (chunk_view whole.now) (chunk_view other.now)) }
{
    let receiver = first_argument(alloc, whole)?;
    let same = numbers::eq(alloc, &receiver, &first_argument(alloc, other)?)?;
    let held = make::and(alloc, &same, &positive(alloc, &whole.amount)?)?;
    let both = make::and(alloc, &held, &positive(alloc, &other.amount)?)?;
    make::implies(
        alloc,
        &both,
        &numbers::eq(alloc, &whole.value, &other.value)?,
    )
}

/// Adds that two chunks of one receiver are the whole at most, where amounts are bounded.
fn add_at_most(
    alloc: Global,
    bounded: bool,
    whole: &Chunk,
    other: &Chunk,
    facts: &mut Vec<Rc<Term>>,
) -> Result<(), AllocError>
    ensures { OnOk result ((rest : List written.Term) → terms_of facts.new.items ++ rest
        ≡ terms_of facts.old.items ++ (bounding bounded (chunks.at_most_whole (chunk_view whole.now) (chunk_view other.now) ∷ []) ++ rest)) }
{
    if !bounded {
        return Ok(());
    }
    facts.push(apart_from(alloc, whole, other)?)?;
    Ok(())
}

/// Adds that two chunks of one receiver have one value, where locations are summed.
fn add_one_value(
    alloc: Global,
    summed: bool,
    whole: &Chunk,
    other: &Chunk,
    facts: &mut Vec<Rc<Term>>,
) -> Result<(), AllocError>
    ensures { OnOk result ((rest : List written.Term) → terms_of facts.new.items ++ rest
        ≡ terms_of facts.old.items ++ (bounding summed (chunks.one_value (chunk_view whole.now) (chunk_view other.now) ∷ []) ++ rest)) }
{
    if !summed {
        return Ok(());
    }
    facts.push(one_value(alloc, whole, other)?)?;
    Ok(())
}

/// Adds for each of the field's other chunks what holds with it where both are of one receiver.
fn add_apart(
    alloc: Global,
    summed: bool,
    bounded: bool,
    whole: &Chunk,
    others: &[Candidate],
    facts: &mut Vec<Rc<Term>>,
) -> Result<(), AllocError>
    ensures { OnOk result ((rest : List written.Term) → terms_of facts.new.items ++ rest
        ≡ terms_of facts.old.items ++ apart_onto summed bounded (chunk_view whole.now) (candidates_of others.now) rest) }
{
    for other in others {
        add_at_most(alloc, bounded, whole, &other.chunk, facts)?;
        add_one_value(alloc, summed, whole, &other.chunk, facts)?;
    }
    Ok(())
}

/// Adds that the sum of three candidates or more is the whole at most.
fn add_at_most_three(
    alloc: Global,
    receiver: &Rc<Term>,
    candidates: &[Candidate],
    facts: &mut Vec<Rc<Term>>,
) -> Result<(), AllocError>
    ensures { OnOk result (terms_of facts.new.items ≡ terms_of facts.old.items ++ chunks.at_most_three (held_term receiver.now) (candidates_of candidates.now)) }
{
    match candidates {
        [] => Ok(()),
        [_] => Ok(()),
        [_, _] => Ok(()),
        [_, _, _, ..] => {
            let sum = sum_at(alloc, receiver, candidates)?;
            facts.push(at_most_whole(alloc, &sum)?)?;
            Ok(())
        }
    }
}

/// Adds that the candidates of a chunk that is put are the whole at most together, where there are three or more and both
/// sums and bounds are given.
fn add_sum(
    alloc: Global,
    summed: bool,
    bounded: bool,
    whole: Candidate,
    held: &SymHeap,
    others: Vec<Candidate>,
    facts: &mut Vec<Rc<Term>>,
) -> Result<(), AllocError>
    ensures { OnOk result (terms_of facts.new.items ≡ terms_of facts.old.items ++ bounding (summed && bounded)
        (chunks.at_most_three (chunks.first_argument (shared whole.chunk).arguments)
        (candidate whole ∷ (rest_of (chosen true (shared whole.chunk) 0 (heap held.now)) ++ candidates_of others.items)))) }
{
    if !summed {
        return Ok(());
    }
    if !bounded {
        return Ok(());
    }
    let receiver = first_argument(alloc, &whole.chunk)?;
    let all = held.candidates_behind(alloc, whole, others)?;
    add_at_most_three(alloc, &receiver, &all, facts)
}

/// Adds what holds with the field's other chunks, once a chunk stands at its number.
fn add_behind(
    alloc: Global,
    summed: bool,
    bounded: bool,
    whole: Candidate,
    held: &SymHeap,
    facts: &mut Vec<Rc<Term>>,
) -> Result<(), AllocError>
    ensures { OnOk result (terms_of facts.new.items ≡ terms_of facts.old.items
        ++ (apart summed bounded (shared whole.chunk) (heap held.now) ++ sum_fact (summed && bounded) whole.number (shared whole.chunk) (heap held.now))) }
{
    let others = held.others(alloc, &whole.chunk)?;
    add_apart(alloc, summed, bounded, &whole.chunk, &others, facts)?;
    add_sum(alloc, summed, bounded, whole, held, others, facts)?;
    Ok(())
}

/// What a put of a field's chunk gives first, of its own amount alone.
fn own_facts(alloc: Global, bounded: bool, new: &Chunk) -> Result<Vec<Rc<Term>>, AllocError>
    ensures { IfOk result (λ facts. terms_of facts.items ≡ chunks.is_not_null (chunk_view new.now) ∷ bounding bounded (built.less_equal (held_term new.now.amount) whole_amount ∷ [])) }
{
    let mut facts = Vec::new(alloc);
    facts.push(is_not_null(alloc, new)?)?;
    if !bounded {
        return Ok(facts);
    }
    facts.push(at_most_whole(alloc, &new.amount)?)?;
    Ok(facts)
}

/// The facts of a field's chunk that is put beside the others.
pub fn facts_beside(
    alloc: Global,
    summed: bool,
    bounded: bool,
    new: &Rc<Chunk>,
    held: &SymHeap,
) -> Result<Vec<Rc<Term>>, AllocError>
    ensures { IfOk result (λ facts. terms_of facts.items ≡ chunks.field_facts summed bounded [] (shared new.now) (heap held.now) ++ sum_fact (summed && bounded)
        (length (heap held.now)) (shared new.now) (heap held.now)) }
{
    let mut facts = own_facts(alloc, bounded, new)?;
    let whole = Candidate {
        number: held.len(),
        chunk: new.clone()?,
    };
    add_behind(alloc, summed, bounded, whole, held, &mut facts)?;
    Ok(facts)
}

/// What a put of a field's chunk into another gives of these two alone.
fn pair_facts(
    alloc: Global,
    bounded: bool,
    new: &Chunk,
    old: &Chunk,
    whole: &Chunk,
) -> Result<Vec<Rc<Term>>, AllocError>
    ensures { IfOk result (λ facts. terms_of facts.items ≡ (chunks.is_not_null (chunk_view new.now)
        ∷ bounding bounded (built.less_equal (held_term new.now.amount) whole_amount ∷ []))
        ++ (chunks.agree (chunk_view new.now) (chunk_view old.now) ∷ bounding bounded (built.less_equal (held_term whole.now.amount) whole_amount ∷ []))) }
{
    let mut facts = own_facts(alloc, bounded, new)?;
    facts.push(agree(alloc, new, old)?)?;
    if !bounded {
        return Ok(facts);
    }
    facts.push(at_most_whole(alloc, &whole.amount)?)?;
    Ok(facts)
}

/// The facts of a field's chunk that is merged into another.
pub fn facts_merged(
    alloc: Global,
    summed: bool,
    bounded: bool,
    new: &Chunk,
    old: &Chunk,
    whole: Candidate,
    held: &SymHeap,
) -> Result<Vec<Rc<Term>>, AllocError>
    requires { shared whole.chunk ≡ chunks.merged (chunk_view new.now) (chunk_view old.now) }
    ensures { IfOk result (λ facts. terms_of facts.items ≡ chunks.field_facts summed bounded (standing whole.number (chunk_view old.now)) (chunk_view new.now)
        (heap held.now) ++ sum_fact (summed && bounded) whole.number (shared whole.chunk) (heap held.now)) }
{
    let mut facts = pair_facts(alloc, bounded, new, old, &whole.chunk)?;
    add_behind(alloc, summed, bounded, whole, held, &mut facts)?;
    Ok(facts)
}

/// The one fact of an instance that is merged into another.
pub fn facts_agree(alloc: Global, new: &Chunk, old: &Chunk) -> Result<Vec<Rc<Term>>, AllocError>
    ensures { IfOk result (λ facts. (n : ℕ) → terms_of facts.items ≡ chunks.instance_facts (record { number = n; chunk = chunk_view old.now } ∷ []) (chunk_view new.now)) }
{
    let fact = agree(alloc, new, old)?;
    let mut facts = Vec::new(alloc);
    facts.push(fact)?;
    Ok(facts)
}
