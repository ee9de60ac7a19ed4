//! Numbered terms.
ghost use Rattle.std.specs.Prelude.{◌≡◌, ◌<◌, ◌^◌, ◌++◌, [], ◌∷◌, map, length, IfOk, IfSome, OnOk, Some};
ghost use Rattle.vx_terms.specs.Views.{term};
ghost use Rattle.cs_index.specs.Found.{IsIndexed};
ghost use Rattle.cs_numbers.specs.Keys.{term_key};
ghost use Rattle.cs_numbers.specs.Kept.{AreKept, parts_at};
ghost use Rattle.cs_numbers.specs.Parts.{HasFewParts};
ghost use Rattle.std.specs.List.{All};

use crate::parts::has_few_parts;
use cs_index::Index;
use std::alloc::{AllocError, Global};
use std::rc::Rc;
use vx_terms::Term;

/// Terms in the order of their numbers. A term finds its number by its key.
#[derive(Drop)]
pub struct NumberedTerms {
    pub(crate) alloc: Global,
    pub terms: Vec<Rc<Term>>,
    pub(crate) index: Index,
    /// By number: the numbers of a term's parts, where all that stands in it is known to have numbers.
    kept: Vec<Option<Vec<u32>>>,
    ghost small: { length terms.items < 2 ^ 32 },
    ghost few_parts: { All (λ x. HasFewParts (term x.value)) terms.items },
    ghost indexed: { IsIndexed term_key (map (λ x. term x.value) terms.items) index },
    ghost parts: { AreKept (map (λ x. term x.value) terms.items) kept.items },
}

impl NumberedTerms {
    /// No terms.
    #[tactic(auto, using(cs_index::proofs::Indexed::indexed_none, crate::proofs::Kept::kept_none))]
    pub fn new(alloc: Global) -> Result<NumberedTerms, AllocError>
        ensures { IfOk result (λ n. n.terms.items ≡ []) }
    {
        Ok(NumberedTerms {
            alloc,
            terms: Vec::new(alloc),
            index: Index::new(alloc),
            kept: Vec::new(alloc),
        })
    }

    /// Room for what is kept of a further term. Room behind that of the terms does no harm.
    #[tactic(auto, using(crate::proofs::Kept::kept_longer))]
    pub(crate) fn make_room(&mut self) -> Result<(), AllocError>
        ensures { self.new.terms.items ≡ self.old.terms.items }
    {
        self.kept.push(None)?;
        Ok(())
    }

    /// A further term with its key, and its number.
    ///
    /// # Errors
    /// Memory runs out, or there are 2^32 - 1 terms, or the term has 2^32 - 1 parts.
    #[tactic(auto, using(cs_index::proofs::Indexed::indexed_more, cs_index::proofs::Indexed::indexed_same))]
    pub(crate) fn push(&mut self, t: Rc<Term>, key: u64) -> Result<u32, AllocError>
        requires { key ≡ term_key (term t.value) }
        ensures terms { OnOk result (self.new.terms.items ≡ self.old.terms.items ++ t ∷ []) }
        ensures number { IfOk result (λ n. n ≡ length self.old.terms.items) }
    {
        let number = self.terms.len();
        if number >= u32::MAX as usize {
            return Err(AllocError);
        }
        if !has_few_parts(&t) {
            return Err(AllocError);
        }
        self.terms.push(t)?;
        match self.index.add(key, number as u32) {
            Ok(()) => Ok(number as u32),
            Err(_) => {
                let _again = self.terms.pop();
                Err(AllocError)
            }
        }
    }

    /// The numbers of a term's parts, where all that stands in it is known to have numbers.
    pub(crate) fn parts_at(&self, number: u32) -> Option<&[u32]>
        ensures { IfSome result (λ ns. parts_at (map (λ x. term x.value) self.now.terms.items) number ≡ Some ns.now) }
    {
        match self.kept.get(number as usize) {
            Some(Some(parts)) => Some(parts),
            Some(None) | None => None,
        }
    }

    /// Keeps the numbers of a term's parts, where all that stands in it has numbers. No memory.
    pub(crate) fn keep(&mut self, number: u32, parts: Vec<u32>)
        requires { parts_at (map (λ x. term x.value) self.old.terms.items) number ≡ Some parts.items }
        ensures { self.new.terms.items ≡ self.old.terms.items }
    {
        if let Some(place) = self.kept.get_mut(number as usize) {
            *place = Some(parts);
        }
    }
}
