//! What putting and taking an amount makes of a heap.

ghost use Rattle.std.specs.Prelude.{◌≡◌, ◌<◌, ◌-◌, [], not, IfOk, OnOk, OnErr, length, slice_set, true};
ghost use Rattle.vx_heap.specs.Heaps.{emptied_from, facts_of, over, standing, Puts};
ghost use Rattle.vx_heap.specs.Views.{candidate, chunk as chunk_view, heap, shared, terms_of, held_term};
ghost use Rattle.vx_rules.specs.Chunks as chunks;
ghost use Rattle.vx_rules.specs.Chunks.{reduced, without, without_empty};
ghost use Rattle.vx_rules.specs.States.{State, is_quiet, with_facts};

use crate::amounts::is_zero;
use crate::facts::{facts_agree, facts_beside, facts_merged, merged};
use crate::{Candidate, Chunk, Resource, SymHeap};
use std::alloc::{AllocError, Global};
use std::rc::Rc;
use vx_terms::{Term, arithmetic};

/// The facts of a chunk that is put beside the others.
fn beside(
    alloc: Global,
    summed: bool,
    bounded: bool,
    new: &Rc<Chunk>,
    held: &SymHeap,
) -> Result<Vec<Rc<Term>>, AllocError>
    ensures { IfOk result (λ facts. terms_of facts.items ≡ facts_of summed bounded [] (shared new.now) (heap held.now)) }
{
    match &new.resource {
        Resource::Field(_) => facts_beside(alloc, summed, bounded, new, held),
        Resource::Predicate(_) => Ok(Vec::new(alloc)),
    }
}

/// The facts of a chunk that is merged into another.
fn merging(
    alloc: Global,
    summed: bool,
    bounded: bool,
    new: &Chunk,
    old: &Chunk,
    whole: Candidate,
    held: &SymHeap,
) -> Result<Vec<Rc<Term>>, AllocError>
    requires { shared whole.chunk ≡ chunks.merged (chunk_view new.now) (chunk_view old.now) }
    ensures { IfOk result (λ facts. terms_of facts.items ≡ facts_of summed bounded (standing whole.number (chunk_view old.now)) (chunk_view new.now) (heap held.now)) }
{
    match &new.resource {
        Resource::Field(_) => facts_merged(alloc, summed, bounded, new, old, whole, held),
        Resource::Predicate(_) => facts_agree(alloc, new, old),
    }
}

impl SymHeap {
    /// Puts a chunk beside the others.
    fn put_beside(
        &mut self,
        alloc: Global,
        summed: bool,
        bounded: bool,
        new: Chunk,
    ) -> Result<Vec<Rc<Term>>, AllocError>
        ensures ok { IfOk result (λ facts. Puts None summed bounded (chunk_view new) (heap self.old) (heap self.new) (terms_of facts.items)) }
        ensures err { OnErr result (heap self.new ≡ heap self.old) }
    {
        let whole = Rc::new(alloc, new)?;
        let facts = beside(alloc, summed, bounded, &whole, self)?;
        self.push(whole)?;
        Ok(facts)
    }

    /// Puts a chunk into one of identical arguments.
    fn put_into(
        &mut self,
        alloc: Global,
        summed: bool,
        bounded: bool,
        at: usize,
        new: Chunk,
    ) -> Result<Vec<Rc<Term>>, AllocError>
        requires { at < length (heap self.old) }
        ensures ok { IfOk result (λ facts. Puts (Some at) summed bounded (chunk_view new) (heap self.old) (heap self.new) (terms_of facts.items)) }
        ensures err { OnErr result (heap self.new ≡ heap self.old) }
    {
        let old = self.chunk(at);
        let whole = Rc::new(alloc, merged(alloc, &new, old)?)?;
        let standing = Candidate {
            number: at,
            chunk: whole.clone()?,
        };
        let facts = merging(alloc, summed, bounded, &new, old, standing, self)?;
        self.replace(alloc, at, whole)?;
        Ok(facts)
    }

    /// Puts a chunk, and gives the facts that hold with it: nothing where its amount is literally 0. Of values and sums
    /// something is said only where locations are summed, which they are at level 0.
    pub fn put(
        &mut self,
        alloc: Global,
        summed: bool,
        bounded: bool,
        new: Chunk,
    ) -> Result<Vec<Rc<Term>>, AllocError>
        ensures ok { IfOk result (λ facts. (s : State) → not (is_quiet s) ≡ summed → with_facts (terms_of facts.items) (over bounded (heap self.new) s)
            ≡ chunks.put (chunk_view new) (over bounded (heap self.old) s)) }
        ensures err { OnErr result (heap self.new ≡ heap self.old) }
    {
        if is_zero(&new.amount) {
            return Ok(Vec::new(alloc));
        }
        match self.find(&new.resource, &new.arguments) {
            Some(at) => self.put_into(alloc, summed, bounded, at, new),
            None => self.put_beside(alloc, summed, bounded, new),
        }
    }

    /// Another chunk in the place of a candidate; nothing where there is no such place.
    fn put_back(&mut self, alloc: Global, number: usize, chunk: Rc<Chunk>) -> Result<(), AllocError>
        ensures ok { OnOk result (heap self.new ≡ slice_set (heap self.old) number (chunk_view chunk.value)) }
        ensures err { OnErr result (heap self.new ≡ heap self.old) }
    {
        if number < self.len() {
            return self.replace(alloc, number, chunk);
        }
        Ok(())
    }

    /// A candidate is gone; nothing where there is no such place.
    fn leave_out(&mut self, number: usize)
        ensures { heap self.new ≡ without number (heap self.old) }
    {
        if number < self.len() {
            let _gone = self.take(number);
        }
    }

    /// Takes an amount from a candidate, which is gone where nothing is literally left.
    pub fn reduce(
        &mut self,
        alloc: Global,
        from: &Candidate,
        amount: &Rc<Term>,
    ) -> Result<(), AllocError>
        ensures ok { OnOk result (heap self.new ≡ reduced (candidate from.now) (held_term amount.now) (heap self.old)) }
        ensures err { OnErr result (heap self.new ≡ heap self.old) }
    {
        let rest = arithmetic::sub(alloc, &from.chunk.amount, amount)?;
        if is_zero(&rest) {
            self.leave_out(from.number);
            return Ok(());
        }
        let chunk = Rc::new(alloc, from.chunk.with_amount(alloc, rest)?)?;
        self.put_back(alloc, from.number, chunk)
    }

    /// A candidate gets another value.
    pub fn write(
        &mut self,
        alloc: Global,
        to: &Candidate,
        value: Rc<Term>,
    ) -> Result<(), AllocError>
        ensures ok { OnOk result (heap self.new ≡ slice_set (heap self.old) to.now.number (record (candidate to.now).chunk { value = held_term value })) }
        ensures err { OnErr result (heap self.new ≡ heap self.old) }
    {
        let chunk = Rc::new(alloc, to.chunk.with_value(alloc, value)?)?;
        self.put_back(alloc, to.number, chunk)
    }

    /// A candidate gets another amount.
    pub fn set_amount(
        &mut self,
        alloc: Global,
        of: &Candidate,
        amount: Rc<Term>,
    ) -> Result<(), AllocError>
        ensures ok { OnOk result (heap self.new ≡ slice_set (heap self.old) of.now.number (record (candidate of.now).chunk { amount = held_term amount })) }
        ensures err { OnErr result (heap self.new ≡ heap self.old) }
    {
        let chunk = Rc::new(alloc, of.chunk.with_amount(alloc, amount)?)?;
        self.put_back(alloc, of.number, chunk)
    }

    /// The chunk of a number is gone if its amount is literally 0; where to go on.
    fn drop_at(&mut self, at: usize) -> usize
        requires { at < length (heap self.old) }
        ensures same { emptied_from result (heap self.new) ≡ emptied_from at (heap self.old) }
        ensures less { length (heap self.new) - result < length (heap self.old) - at }
    {
        if is_zero(&self.chunk(at).amount) {
            let _gone = self.take(at);
            return at;
        }
        at + 1
    }

    /// Chunks whose amount is literally 0 are gone.
    pub fn drop_empty(&mut self)
        ensures { heap self.new ≡ without_empty (heap self.old) }
    {
        let mut at = 0;
        while at < self.len() {
            at = self.drop_at(at);
        }
    }

    /// A candidate becomes the root.
    pub fn mark_root(&mut self, alloc: Global, at: &Candidate) -> Result<(), AllocError>
        ensures ok { OnOk result (heap self.new ≡ slice_set (heap self.old) at.now.number (record (candidate at.now).chunk { root = true })) }
        ensures err { OnErr result (heap self.new ≡ heap self.old) }
    {
        let chunk = Rc::new(alloc, at.chunk.as_root(alloc)?)?;
        self.put_back(alloc, at.number, chunk)
    }
}
