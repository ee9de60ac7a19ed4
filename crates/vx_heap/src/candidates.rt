//! The chunks that a probe looks at.

ghost use Rattle.std.specs.Prelude.{◌≡◌, ◌++◌, ◌∷◌, ℕ, List, true, false, IfOk, OnOk};
ghost use Rattle.vx_heap.specs.Heaps.{rest_of};
ghost use Rattle.vx_heap.specs.Picked.{picked};
ghost use Rattle.vx_heap.specs.Views.{candidate, candidates_of, chunk as chunk_view, heap, key, shared};
ghost use Rattle.vx_rules.specs.Chunks as chunks;
ghost use Rattle.vx_rules.specs.Chunks.{chosen, only_inner};

use crate::{Chunk, Resource, SymHeap};
use std::alloc::{AllocError, Global};
use std::rc::Rc;
use vx_terms::Term;

/// A chunk, and its number in the heap.
pub struct Candidate {
    pub number: usize,
    pub chunk: Rc<Chunk>,
}

impl Drop for Candidate {
    fn drop(self) {
        let Self { number, chunk } = self;
    }
}

/// Candidates with this one in the place of the first.
fn with_first(first: Candidate, mut found: Vec<Candidate>) -> Result<Vec<Candidate>, AllocError>
    ensures { IfOk result (λ all. candidates_of all.items ≡ candidate first ∷ rest_of (candidates_of found.items)) }
{
    if found.is_empty() {
        found.push(first)?;
        return Ok(found);
    }
    found[0] = first;
    Ok(found)
}

impl SymHeap {
    /// Adds the chunk at a place, if it is of a resource and has identical arguments, or others.
    fn add_at(
        &self,
        identical: bool,
        resource: &Resource,
        arguments: &[Rc<Term>],
        number: usize,
        found: &mut Vec<Candidate>,
    ) -> Result<(), AllocError>
        ensures { OnOk result ((rest : List ℕ) → candidates_of found.new.items ++ picked identical (key resource.now arguments.now) (heap self.now) rest
            ≡ candidates_of found.old.items ++ picked identical (key resource.now arguments.now) (heap self.now) (number ∷ rest)) }
    {
        match self.chunks.get(number) {
            Some(chunk) => {
                if !chunk.is_chosen(identical, resource, arguments) {
                    return Ok(());
                }
                let chunk = chunk.clone()?;
                found.push(Candidate { number, chunk })?;
                Ok(())
            }
            None => Ok(()),
        }
    }

    /// Adds a resource's chunks with identical arguments, or those with others.
    pub(crate) fn add_chosen(
        &self,
        identical: bool,
        resource: &Resource,
        arguments: &[Rc<Term>],
        found: &mut Vec<Candidate>,
    ) -> Result<(), AllocError>
        ensures { OnOk result (candidates_of found.new.items ≡ candidates_of found.old.items ++ chosen identical (key resource.now arguments.now) 0 (heap self.now)) }
    {
        for number in self.rows.under(resource.row()) {
            self.add_at(identical, resource, arguments, *number, found)?;
        }
        Ok(())
    }

    /// The chunks of a resource with identical arguments, in list order.
    pub fn own_candidates(
        &self,
        alloc: Global,
        resource: &Resource,
        arguments: &[Rc<Term>],
    ) -> Result<Vec<Candidate>, AllocError>
        ensures { IfOk result (λ found. candidates_of found.items ≡ chosen true (key resource.now arguments.now) 0 (heap self.now)) }
    {
        let mut found = Vec::new(alloc);
        self.add_chosen(true, resource, arguments, &mut found)?;
        Ok(found)
    }

    /// The chunks of a resource: those with identical arguments first, then the others, each in list order.
    pub fn candidates(
        &self,
        alloc: Global,
        resource: &Resource,
        arguments: &[Rc<Term>],
    ) -> Result<Vec<Candidate>, AllocError>
        ensures { IfOk result (λ found. candidates_of found.items ≡ chunks.candidates (key resource.now arguments.now) (heap self.now)) }
    {
        let mut found = Vec::new(alloc);
        self.add_chosen(true, resource, arguments, &mut found)?;
        self.add_chosen(false, resource, arguments, &mut found)?;
        Ok(found)
    }

    /// The chunks of a chunk's resource with other arguments, in list order.
    pub(crate) fn others(&self, alloc: Global, chunk: &Chunk) -> Result<Vec<Candidate>, AllocError>
        ensures { IfOk result (λ found. candidates_of found.items ≡ chosen false (chunk_view chunk.now) 0 (heap self.now)) }
    {
        let mut found = Vec::new(alloc);
        self.add_chosen(false, &chunk.resource, &chunk.arguments, &mut found)?;
        Ok(found)
    }

    /// The candidates of a chunk that is put, once it stands at its number, these others having other arguments.
    pub(crate) fn candidates_behind(
        &self,
        alloc: Global,
        whole: Candidate,
        mut others: Vec<Candidate>,
    ) -> Result<Vec<Candidate>, AllocError>
        ensures { IfOk result (λ all. candidates_of all.items ≡ candidate whole ∷ (rest_of (chosen true (shared whole.chunk) 0 (heap self.now)) ++ candidates_of others.items)) }
    {
        let own = self.own_candidates(alloc, &whole.chunk.resource, &whole.chunk.arguments)?;
        let mut all = with_first(whole, own)?;
        all.append(&mut others)?;
        Ok(all)
    }

    /// The candidates that are inner, in the same order.
    pub fn inner_candidates(
        &self,
        alloc: Global,
        resource: &Resource,
        arguments: &[Rc<Term>],
    ) -> Result<Vec<Candidate>, AllocError>
        ensures { IfOk result (λ found. candidates_of found.items ≡ only_inner (chunks.candidates (key resource.now arguments.now) (heap self.now))) }
    {
        let mut found = self.candidates(alloc, resource, arguments)?;
        found.retain(|c| c.chunk.is_inner);
        Ok(found)
    }
}
