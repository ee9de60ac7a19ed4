//! What stands in a heap, and changes of single chunks.

ghost use Rattle.std.specs.Prelude.{◌≡◌, ◌<◌, ◌↔◌, ◌++◌, ◌∷◌, [], map, true, IsTrue, IfOk, OnOk, OnErr, Some, length, option_map, slice_get, slice_set};
ghost use Rattle.vx_heap.specs.Heaps.{IsFirst};
ghost use Rattle.vx_heap.specs.Picked.{passes_at};
ghost use Rattle.vx_heap.specs.Views.{chunk as chunk_view, heap, key, shared};
ghost use Rattle.vx_rules.specs.Chunks.{chosen, without};

use crate::rows::Rows;
use crate::{Chunk, Resource, SymHeap};
use std::alloc::{AllocError, Global};
use std::rc::Rc;
use vx_terms::Term;

/// The same chunks once more, shared.
fn share_all(alloc: Global, chunks: &[Rc<Chunk>]) -> Result<Vec<Rc<Chunk>>, AllocError>
    ensures { IfOk result (λ copies. map shared copies.items ≡ map shared chunks.now) }
{
    let mut copies = Vec::new(alloc);
    for chunk in chunks {
        copies.push(chunk.clone()?)?;
    }
    Ok(copies)
}

impl SymHeap {
    /// No chunks. No memory.
    pub fn new(alloc: Global) -> SymHeap
        ensures { heap result ≡ [] }
    {
        SymHeap {
            chunks: Vec::new(alloc),
            rows: Rows::new(alloc),
        }
    }

    /// How many chunks there are.
    pub fn len(&self) -> usize
        ensures { result ≡ length (heap self.now) }
    {
        self.chunks.len()
    }

    /// Whether there is no chunk.
    pub fn is_empty(&self) -> bool
        ensures { IsTrue result ↔ heap self.now ≡ [] }
    {
        self.chunks.is_empty()
    }

    /// The chunk of a number.
    pub fn chunk(&self, at: usize) -> &Chunk
        requires { at < length (heap self.now) }
        ensures { slice_get (heap self.now) at ≡ Some (chunk_view result.now) }
    {
        &self.chunks[at]
    }

    /// The chunk of a number, to be held.
    pub fn share(&self, at: usize) -> Result<Rc<Chunk>, AllocError>
        requires { at < length (heap self.now) }
        ensures { IfOk result (λ c. slice_get (heap self.now) at ≡ Some (chunk_view c.value)) }
    {
        self.chunks[at].clone()
    }

    /// Whether there is a chunk at this place that is of a resource and has identical arguments or, where those are asked
    /// for, others.
    fn is_chosen_at(
        &self,
        identical: bool,
        resource: &Resource,
        arguments: &[Rc<Term>],
        at: usize,
    ) -> bool
        ensures { result ≡ passes_at identical (key resource.now arguments.now) (heap self.now) at }
    {
        match self.chunks.get(at) {
            Some(chunk) => chunk.is_chosen(identical, resource, arguments),
            None => false,
        }
    }

    /// The number of the first chunk of a resource with identical arguments.
    pub fn find(&self, resource: &Resource, arguments: &[Rc<Term>]) -> Option<usize>
        ensures { IsFirst result (heap self.now) (chosen true (key resource.now arguments.now) 0 (heap self.now)) }
    {
        for at in self.rows.under(resource.row()) {
            if self.is_chosen_at(true, resource, arguments, *at) {
                return Some(*at);
            }
        }
        None
    }

    /// Removes a chunk; the later ones move up.
    #[tactic(auto, using(crate::proofs::Listed::listed_without))]
    pub fn take(&mut self, at: usize) -> Rc<Chunk>
        requires { at < length (heap self.old) }
        ensures chunk { slice_get (heap self.old) at ≡ Some (chunk_view result.value) }
        ensures rest { heap self.new ≡ without at (heap self.old) }
    {
        let chunk = self.chunks.remove(at);
        self.rows.close_up(at);
        chunk
    }

    /// Adds a chunk at the end.
    #[tactic(auto, using(crate::proofs::Listed::listed_more, crate::proofs::Listed::listed_same, crate::proofs::Listed::heap_more))]
    pub fn push(&mut self, chunk: Rc<Chunk>) -> Result<(), AllocError>
        ensures ok { OnOk result (heap self.new ≡ heap self.old ++ chunk_view chunk.value ∷ []) }
        ensures err { OnErr result (heap self.new ≡ heap self.old) }
    {
        let row = chunk.resource.row();
        let number = self.chunks.len();
        self.chunks.push(chunk)?;
        match self.rows.add(row, number) {
            Ok(()) => Ok(()),
            Err(_) => {
                let _again = self.chunks.pop();
                Err(AllocError)
            }
        }
    }

    /// A heap of these chunks, shared.
    fn of(alloc: Global, chunks: &[Rc<Chunk>]) -> Result<SymHeap, AllocError>
        ensures { IfOk result (λ made. heap made ≡ map shared chunks.now) }
    {
        let mut made = SymHeap::new(alloc);
        for chunk in chunks {
            made.push(chunk.clone()?)?;
        }
        Ok(made)
    }

    /// The same heap over shared chunks, with another one in the place of one.
    fn with_chunk(&self, alloc: Global, at: usize, chunk: Rc<Chunk>) -> Result<SymHeap, AllocError>
        requires { at < length (heap self.now) }
        ensures { IfOk result (λ other. heap other ≡ slice_set (heap self.now) at (chunk_view chunk.value)) }
    {
        let mut chunks = share_all(alloc, &self.chunks)?;
        chunks[at] = chunk;
        SymHeap::of(alloc, &chunks)
    }

    /// Another chunk in the place of one. One of another name, which no rule asks for, makes the heap anew.
    #[tactic(auto, using(crate::proofs::Listed::listed_set))]
    pub(crate) fn replace(
        &mut self,
        alloc: Global,
        at: usize,
        chunk: Rc<Chunk>,
    ) -> Result<(), AllocError>
        requires { at < length (heap self.old) }
        ensures ok { OnOk result (heap self.new ≡ slice_set (heap self.old) at (chunk_view chunk.value)) }
        ensures err { OnErr result (heap self.new ≡ heap self.old) }
    {
        if self.chunks[at].resource.row() == chunk.resource.row() {
            self.chunks[at] = chunk;
            return Ok(());
        }
        *self = self.with_chunk(alloc, at, chunk)?;
        Ok(())
    }

    /// The same heap once more, over shared chunks.
    pub fn copy(&self, alloc: Global) -> Result<SymHeap, AllocError>
        ensures { IfOk result (λ copy. heap copy ≡ heap self.now) }
    {
        SymHeap::of(alloc, &self.chunks)
    }
}
