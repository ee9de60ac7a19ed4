//! What putting, taking and writing make of a state.

ghost use Rattle.std.specs.Prelude.{◌≡◌, not, IfOk, slice_set};
ghost use Rattle.vx_heap.specs.Heaps.{over};
ghost use Rattle.vx_heap.specs.Views.{candidate, chunk as chunk_view, heap, terms_of, held_term};
ghost use Rattle.vx_rules.specs.Chunks as chunks;
ghost use Rattle.vx_rules.specs.Chunks.{reduced};
ghost use Rattle.vx_rules.specs.States as states;
ghost use Rattle.vx_rules.specs.States.{State, is_quiet, with_facts};
ghost use Rattle.vx_states.specs.SymStates.{state};

use crate::SymState;
use std::alloc::{AllocError, Global};
use std::rc::Rc;
use vx_heap::{Candidate, Chunk, SymHeap};
use vx_terms::Term;

/// Puts a chunk into a heap, in place where nobody else holds it, and gives the facts that hold with it.
fn put_into(
    alloc: Global,
    held: &mut Rc<SymHeap>,
    summed: bool,
    bounded: bool,
    chunk: Chunk,
) -> Result<Vec<Rc<Term>>, AllocError>
    ensures { IfOk result (λ facts. (s : State) → not (is_quiet s) ≡ summed → with_facts (terms_of facts.items) (over bounded (heap held.new.value) s)
        ≡ chunks.put (chunk_view chunk) (over bounded (heap held.old.value) s)) }
{
    match Rc::get_mut(held) {
        Some(own) => own.put(alloc, summed, bounded, chunk),
        None => {
            let mut own = held.copy(alloc)?;
            let facts = own.put(alloc, summed, bounded, chunk)?;
            *held = Rc::new(alloc, own)?;
            Ok(facts)
        }
    }
}

/// Takes an amount from a heap, in place where nobody else holds it.
fn take_from(
    alloc: Global,
    held: &mut Rc<SymHeap>,
    from: &Candidate,
    amount: &Rc<Term>,
) -> Result<(), AllocError>
    ensures { IfOk result (λ _. heap held.new.value ≡ reduced (candidate from.now) (held_term amount.now) (heap held.old.value)) }
{
    match Rc::get_mut(held) {
        Some(own) => own.reduce(alloc, from, amount),
        None => {
            let mut own = held.copy(alloc)?;
            own.reduce(alloc, from, amount)?;
            *held = Rc::new(alloc, own)?;
            Ok(())
        }
    }
}

/// Writes a value into a heap, in place where nobody else holds it.
fn write_into(
    alloc: Global,
    held: &mut Rc<SymHeap>,
    to: &Candidate,
    value: Rc<Term>,
) -> Result<(), AllocError>
    ensures { IfOk result (λ _. heap held.new.value ≡ slice_set (heap held.old.value) to.now.number (record (candidate to.now).chunk { value = held_term value })) }
{
    match Rc::get_mut(held) {
        Some(own) => own.write(alloc, to, value),
        None => {
            let mut own = held.copy(alloc)?;
            own.write(alloc, to, value)?;
            *held = Rc::new(alloc, own)?;
            Ok(())
        }
    }
}

impl SymState {
    /// Facts that aren't known are added, in their order.
    pub fn add_facts(&mut self, alloc: Global, facts: Vec<Rc<Term>>) -> Result<(), AllocError>
        ensures { IfOk result (λ _. state self.new ≡ states.with_facts (terms_of facts.items) (state self.old)) }
    {
        for fact in &facts {
            self.add_fact(alloc, fact.clone()?)?;
        }
        Ok(())
    }

    /// A chunk is put, with the facts that hold with it: nothing where its amount is literally 0.
    pub fn put(&mut self, alloc: Global, chunk: Chunk) -> Result<(), AllocError>
        ensures { IfOk result (λ _. state self.new ≡ chunks.put (chunk_view chunk) (state self.old)) }
    {
        let summed = !self.is_quiet();
        let facts = put_into(alloc, &mut self.heap, summed, self.is_bounded, chunk)?;
        self.add_facts(alloc, facts)
    }

    /// An amount is taken from a candidate.
    pub fn take(
        &mut self,
        alloc: Global,
        from: &Candidate,
        amount: &Rc<Term>,
    ) -> Result<(), AllocError>
        ensures { IfOk result (λ _. state self.new ≡ states.with_heap (reduced (candidate from.now) (held_term amount.now) (state self.old).heap) (state self.old)) }
    {
        take_from(alloc, &mut self.heap, from, amount)
    }

    /// A candidate's location gets a value, by its name.
    pub fn write(
        &mut self,
        alloc: Global,
        to: &Candidate,
        value: Rc<Term>,
    ) -> Result<(), AllocError>
        ensures { IfOk result (λ _. state self.new ≡ chunks.written (candidate to.now) (held_term value) (state self.old)) }
    {
        let named = self.name(alloc, value)?;
        write_into(alloc, &mut self.heap, to, named)
    }
}
