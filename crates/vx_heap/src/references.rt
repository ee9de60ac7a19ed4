//! What a reference that is new differs from.

ghost use Rattle.std.specs.Prelude.{◌≡◌, ◌++◌, ◌∷◌, [], if◌then◌else◌, List, IfOk, OnOk};
ghost use Rattle.vx_heap.specs.Views.{chunk as chunk_view, heap, terms_of, held_term};
ghost use Rattle.vx_rules.specs.Chunks as chunks;
ghost use Rattle.vx_rules.specs.Members as members;
ghost use Rattle.vx_terms.specs.Build as built;
ghost use Rattle.vx_terms.specs.Build.{zero_amount};
ghost use Rattle.vx_terms.specs.Terms as written;
ghost use Rattle.vx_terms.specs.Views.{term};

use crate::amounts::positive;
use crate::facts::first_argument;
use crate::{Chunk, Resource, SymHeap};
use std::alloc::{AllocError, Global};
use std::rc::Rc;
use vx_terms::{Sort, Term, make, numbers};

/// Whether a term is of Ref.
fn is_ref(t: &Term) -> Result<bool, AllocError>
    ensures { IfOk result (λ b. b ≡ members.is_ref (term t.now)) }
{
    let sort = t.sort()?;
    Ok(sort.is_same(&Sort::Ref))
}

/// That a reference isn't another one.
pub fn unlike(alloc: Global, x: &Rc<Term>, t: &Rc<Term>) -> Result<Rc<Term>, AllocError>
    ensures { IfOk result (λ r. held_term r ≡ members.unlike (held_term x.now) (held_term t.now)) }
{
    let same = numbers::eq(alloc, x, t)?;
    make::not(alloc, &same)
}

/// Adds that a reference isn't this value, where that is a reference.
pub fn add_unlike(
    alloc: Global,
    x: &Rc<Term>,
    t: &Rc<Term>,
    facts: &mut Vec<Rc<Term>>,
) -> Result<(), AllocError>
    ensures { OnOk result ((rest : List written.Term) → terms_of facts.new.items ++ rest
        ≡ terms_of facts.old.items ++ (if members.is_ref (held_term t.now) then members.unlike (held_term x.now) (held_term t.now) ∷ rest else rest)) }
{
    if !is_ref(t)? {
        return Ok(());
    }
    facts.push(unlike(alloc, x, t)?)?;
    Ok(())
}

/// That a reference isn't the receiver of a chunk that is held.
fn unlike_receiver(
    alloc: Global,
    x: &Rc<Term>,
    held: &Rc<Term>,
    chunk: &Chunk,
) -> Result<Rc<Term>, AllocError>
    ensures { IfOk result (λ r. held_term r ≡ built.implies (held_term held.now) (members.unlike (held_term x.now) (chunks.first_argument (chunk_view chunk.now).arguments))) }
{
    let receiver = first_argument(alloc, chunk)?;
    make::implies(alloc, held, &unlike(alloc, x, &receiver)?)
}

/// Adds that a reference isn't this value where its chunk is held, if that is a reference.
fn add_unlike_value(
    alloc: Global,
    x: &Rc<Term>,
    held: &Rc<Term>,
    t: &Rc<Term>,
    facts: &mut Vec<Rc<Term>>,
) -> Result<(), AllocError>
    ensures { OnOk result ((rest : List written.Term) → terms_of facts.new.items ++ rest
        ≡ terms_of facts.old.items ++ ((if members.is_ref (held_term t.now) then built.implies (held_term held.now)
        (members.unlike (held_term x.now) (held_term t.now)) ∷ [] else []) ++ rest)) }
{
    if !is_ref(t)? {
        return Ok(());
    }
    let other = unlike(alloc, x, t)?;
    facts.push(make::implies(alloc, held, &other)?)?;
    Ok(())
}

/// Adds what a new reference differs from by a location's chunk.
fn add_unlike_chunk(
    alloc: Global,
    x: &Rc<Term>,
    chunk: &Chunk,
    facts: &mut Vec<Rc<Term>>,
) -> Result<(), AllocError>
    ensures { OnOk result ((rest : List written.Term) → terms_of facts.new.items ++ rest
        ≡ terms_of facts.old.items ++ (members.unlike_chunk (held_term x.now) (chunk_view chunk.now) ++ rest)) }
{
    let held = positive(alloc, &chunk.amount)?;
    facts.push(unlike_receiver(alloc, x, &held, chunk)?)?;
    add_unlike_value(alloc, x, &held, &chunk.value, facts)
}

/// Adds what a new reference differs from by a chunk, if it is a location's.
fn add_unlike_held(
    alloc: Global,
    x: &Rc<Term>,
    chunk: &Chunk,
    facts: &mut Vec<Rc<Term>>,
) -> Result<(), AllocError>
    ensures { OnOk result ((rest : List written.Term) → terms_of facts.new.items ++ rest
        ≡ terms_of facts.old.items ++ (if (chunk_view chunk.now).is_field then members.unlike_chunk (held_term x.now) (chunk_view chunk.now) ++ rest else rest)) }
{
    match &chunk.resource {
        Resource::Field(_) => add_unlike_chunk(alloc, x, chunk, facts),
        Resource::Predicate(_) => Ok(()),
    }
}

impl SymHeap {
    /// Adds what a new reference differs from by what is held.
    pub fn add_unlike(
        &self,
        alloc: Global,
        x: &Rc<Term>,
        facts: &mut Vec<Rc<Term>>,
    ) -> Result<(), AllocError>
        ensures { OnOk result ((rest : List written.Term) → terms_of facts.new.items ++ rest
            ≡ terms_of facts.old.items ++ (members.unlike_held (held_term x.now) (heap self.now) ++ rest)) }
    {
        for chunk in &self.chunks {
            add_unlike_held(alloc, x, chunk, facts)?;
        }
        Ok(())
    }
}
