//! Terms get their numbers one after another: a term before its parts, from left to right.
//! What stands in a term that has a number isn't walked again.
ghost use Rattle.std.specs.Prelude.{◌≡◌, ◌<◌, ◌++◌, List, map, length, IfOk, IfSome, IfNone, Some, [], ◌∷◌, slice_get, reverse};
ghost use Rattle.vx_terms.specs.Terms as spec;
ghost use Rattle.vx_terms.specs.Views.{term};
ghost use Rattle.cs_certificate.specs.Terms.{subterms, parts_of};
ghost use Rattle.cs_numbers.specs.Listed.{terms_in};
ghost use Rattle.cs_numbers.specs.Forest.{seen, IsForest, IsFirst};
ghost use Rattle.cs_numbers.specs.Inner.{inner};
ghost use Rattle.cs_numbers.specs.Numbering.{place, places, with_one, added};

use crate::NumberedTerms;
use crate::occurrence::Occurrence;
use crate::occurring::put;
use crate::table::place_under;
use std::alloc::{AllocError, Global};
use std::rc::Rc;
use vx_terms::Term;

/// A further term, and its number.
fn push(all: &mut NumberedTerms, t: &Occurrence) -> Result<u32, AllocError>
    ensures terms { IfOk result (λ n. terms_in all.new ≡ terms_in all.old ++ term t.now.of.value ∷ []) }
    ensures number { IfOk result (λ n. n ≡ length (terms_in all.old)) }
{
    all.make_room()?;
    let number = all.push(t.of.clone()?, t.key)?;
    Ok(number)
}

/// The number of a term; a term that has none yet gets the next one.
fn add_one(all: &mut NumberedTerms, t: &Occurrence) -> Result<u32, AllocError>
    ensures terms { IfOk result (λ n. terms_in all.new ≡ with_one (terms_in all.old) (term t.now.of.value)) }
    ensures number { IfOk result (λ n. place (terms_in all.new) (term t.now.of.value) ≡ Some n) }
{
    if let Some(number) = place_under(all, &t.of, t.key) {
        return Ok(number);
    }
    let number = push(all, t)?;
    Ok(number)
}

/// The last of some terms, what stands in it, and the others.
fn parted(left: &[Occurrence]) -> Option<(&Occurrence, &[Occurrence], &[Occurrence])>
    requires { IsForest (seen left.now) }
    ensures none { IfNone result (left.now ≡ []) }
    ensures smaller { IfSome result (λ p. length p.1.now < length left.now) }
    ensures fewer { IfSome result (λ p. length p.2.now < length left.now) }
    ensures within { IfSome result (λ p. seen p.1.now ≡ reverse (inner (term p.0.now.of.value))) }
    ensures others { IfSome result (λ p. IsForest (seen p.2.now)) }
    ensures first { IfSome result (λ p. (ts : List spec.Term) → seen left.now ≡ reverse (parts_of ts) → IsFirst ts (term p.0.now.of.value) (seen p.2.now)) }
    ensures same { IfSome result (λ p. (terms : List spec.Term)
        → added terms (reverse (seen left.now)) ≡ added (added terms (subterms (term p.0.now.of.value))) (reverse (seen p.2.now))) }
{
    let Some((last, before)) = left.split_last() else {
        return None;
    };
    let at = before.len().saturating_sub(last.within);
    let (others, within) = before.split_at(at);
    Some((last, within, others))
}

/// Numbers a term and what stands in it, where they have no numbers yet, and gives the term's number.
#[cycle(adding)]
#[tactic(auto, using(crate::proofs::Forest::forest_within))]
fn add_with(
    all: &mut NumberedTerms,
    t: &Occurrence,
    within: &[Occurrence],
) -> Result<u32, AllocError>
    requires { seen within.now ≡ reverse (inner (term t.now.of.value)) }
    ensures terms { IfOk result (λ n. terms_in all.new ≡ added (terms_in all.old) (subterms (term t.now.of.value))) }
    ensures number { IfOk result (λ n. place (terms_in all.new) (term t.now.of.value) ≡ Some n) }
{
    let number = add_one(all, t)?;
    if all.parts_at(number).is_some() {
        return Ok(number);
    }
    let parts = add_all(all, within)?;
    all.keep(number, parts);
    Ok(number)
}

/// Numbers terms from the last one on, where they have no numbers yet, and gives the numbers of those that stand in no other one.
#[cycle(adding)]
fn add_all(all: &mut NumberedTerms, occurrences: &[Occurrence]) -> Result<Vec<u32>, AllocError>
    requires { IsForest (seen occurrences.now) }
    ensures terms { IfOk result (λ ns. terms_in all.new ≡ added (terms_in all.old) (reverse (seen occurrences.now))) }
    ensures numbers { IfOk result (λ ns. (ts : List spec.Term) → seen occurrences.now ≡ reverse (parts_of ts) → places (terms_in all.new) ts ≡ Some ns.items) }
{
    let mut numbers = Vec::new(all.alloc);
    let mut left = occurrences;
    while let Some((last, within, others)) = parted(left) {
        let number = add_with(all, last, within)?;
        numbers.push(number)?;
        left = others;
    }
    Ok(numbers)
}

/// Numbers a term and its parts, where they have no numbers yet.
pub fn add(all: &mut NumberedTerms, t: &Rc<Term>) -> Result<(), AllocError>
    ensures { IfOk result (λ u. terms_in all.new ≡ added (terms_in all.old) (subterms (term t.now.value))) }
{
    let mut occurrences = Vec::new(all.alloc);
    put(&mut occurrences, t)?;
    add_all(all, &occurrences)?;
    Ok(())
}

/// The numbered terms of some assertions, in order.
#[tactic(auto, using(crate::proofs::Added::added_append))]
pub fn number(alloc: Global, assertions: &[Rc<Term>]) -> Result<NumberedTerms, AllocError>
    ensures { IfOk result (λ n. terms_in n ≡ added [] (parts_of (map (λ x. term x.value) assertions.now))) }
{
    let mut all = NumberedTerms::new(alloc)?;
    for assertion in assertions {
        add(&mut all, assertion)?;
    }
    Ok(all)
}
