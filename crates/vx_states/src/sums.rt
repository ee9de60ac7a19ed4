//! What reading, writing and taking over all chunks of a location make of a state.

ghost use Rattle.std.specs.Prelude.{◌≡◌, ◌∷◌, List, IfOk, slice_set};
ghost use Rattle.vx_heap.specs.Views.{candidate, candidates_of, heap, held_term};
ghost use Rattle.vx_rules.specs.Chunks as chunks;
ghost use Rattle.vx_rules.specs.States as states;
ghost use Rattle.vx_states.specs.SymStates.{state};
ghost use Rattle.vx_terms.specs.Build as built;
ghost use Rattle.vx_terms.specs.Views.{sort as sort_of};

use crate::SymState;
use std::alloc::{AllocError, Global};
use std::rc::Rc;
use vx_heap::{Candidate, SymHeap, share, value_facts, value_where};
use vx_terms::{Sort, Term, arithmetic};

/// Writes another amount into a heap, in place where nobody else holds it.
fn amount_into(
    alloc: Global,
    held: &mut Rc<SymHeap>,
    of: &Candidate,
    amount: Rc<Term>,
) -> Result<(), AllocError>
    ensures { IfOk result (λ _. heap held.new.value ≡ slice_set (heap held.old.value) of.now.number (record (candidate of.now).chunk { amount = held_term amount })) }
{
    match Rc::get_mut(held) {
        Some(own) => own.set_amount(alloc, of, amount),
        None => {
            let mut own = held.copy(alloc)?;
            own.set_amount(alloc, of, amount)?;
            *held = Rc::new(alloc, own)?;
            Ok(())
        }
    }
}

/// Drops a heap's chunks of no amount, in place where nobody else holds it.
fn empty_in(alloc: Global, held: &mut Rc<SymHeap>) -> Result<(), AllocError>
    ensures { IfOk result (λ _. heap held.new.value ≡ chunks.without_empty (heap held.old.value)) }
{
    match Rc::get_mut(held) {
        Some(own) => {
            own.drop_empty();
            Ok(())
        }
        None => {
            let mut own = held.copy(alloc)?;
            own.drop_empty();
            *held = Rc::new(alloc, own)?;
            Ok(())
        }
    }
}

impl SymState {
    /// A new symbol for the value at a receiver, which is that of each candidate with a positive amount there.
    pub fn value_at(
        &mut self,
        alloc: Global,
        receiver: &Rc<Term>,
        of: Sort,
        candidates: &[Candidate],
    ) -> Result<Rc<Term>, AllocError>
        ensures value { IfOk result (λ u. held_term u ≡ states.fresh (sort_of of) (state self.old)) }
        ensures state { IfOk result (λ u. state self.new ≡ chunks.with_value (held_term receiver.now) (held_term u) (candidates_of candidates.now) (state self.old)) }
    {
        let value = self.new_symbol(alloc, of)?;
        let facts = value_facts(alloc, receiver, &value, candidates)?;
        self.add_facts(alloc, facts)?;
        Ok(value)
    }

    /// A candidate gets another amount, by its name.
    fn set_amount(
        &mut self,
        alloc: Global,
        of: &Candidate,
        amount: Rc<Term>,
    ) -> Result<(), AllocError>
        ensures { IfOk result (λ _. state self.new ≡ chunks.with_amount (candidate of.now) (held_term amount) (state self.old)) }
    {
        let named = self.name(alloc, amount)?;
        amount_into(alloc, &mut self.heap, of, named)
    }

    /// A candidate gives what it has at the receiver, up to what is still wanted: the name of what it gave.
    fn take_share(
        &mut self,
        alloc: Global,
        receiver: &Rc<Term>,
        wanted: &Rc<Term>,
        from: &Candidate,
    ) -> Result<Rc<Term>, AllocError>
        ensures { IfOk result (λ taken. (rest : List chunks.Candidate)
            → chunks.shared_out (held_term receiver.now) (built.subtract (held_term wanted.now) (held_term taken)) rest (state self.new)
            ≡ chunks.shared_out (held_term receiver.now) (held_term wanted.now) (candidate from.now ∷ rest) (state self.old)) }
    {
        let part = share(alloc, receiver, wanted, &from.chunk)?;
        let taken = self.name(alloc, part)?;
        let left = arithmetic::sub(alloc, &from.chunk.amount, &taken)?;
        self.set_amount(alloc, from, left)?;
        Ok(taken)
    }

    /// An amount is taken from candidates in turn: of each what it has at the receiver, up to what is still wanted.
    pub fn share_out(
        &mut self,
        alloc: Global,
        receiver: &Rc<Term>,
        amount: &Rc<Term>,
        candidates: &[Candidate],
    ) -> Result<(), AllocError>
        ensures { IfOk result (λ _. state self.new ≡ chunks.shared_out (held_term receiver.now) (held_term amount.now) (candidates_of candidates.now) (state self.old)) }
    {
        let mut wanted = amount.clone()?;
        for candidate in candidates {
            let taken = self.take_share(alloc, receiver, &wanted, candidate)?;
            wanted = arithmetic::sub(alloc, &wanted, &taken)?;
        }
        Ok(())
    }

    /// Chunks whose amount is literally 0 are gone.
    pub fn drop_empty(&mut self, alloc: Global) -> Result<(), AllocError>
        ensures { IfOk result (λ _. state self.new ≡ states.with_heap (chunks.without_empty (state self.old).heap) (state self.old)) }
    {
        empty_in(alloc, &mut self.heap)
    }

    /// A value is written at a receiver, in each candidate that may be there.
    pub fn write_each(
        &mut self,
        alloc: Global,
        receiver: &Rc<Term>,
        value: &Rc<Term>,
        candidates: &[Candidate],
    ) -> Result<(), AllocError>
        ensures { IfOk result (λ _. state self.new ≡ chunks.written_each (held_term receiver.now) (held_term value.now) (candidates_of candidates.now) (state self.old)) }
    {
        for candidate in candidates {
            let written = value_where(alloc, receiver, value, &candidate.chunk)?;
            self.write(alloc, candidate, written)?;
        }
        Ok(())
    }
}
