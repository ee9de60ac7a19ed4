//! Equalities get their numbers.
ghost use Rattle.std.specs.Prelude.{◌≡◌, map, IfOk};
ghost use Rattle.vx_terms.specs.Views.{term};
ghost use Rattle.cs_certificate.specs.Terms.{equal};
ghost use Rattle.cs_certificate.specs.Certificate.{Stack, Contains};
ghost use Rattle.cs_derivation.specs.View.{reached};
ghost use Rattle.cs_ground.specs.Steps as clean;
ghost use Rattle.cs_ground.specs.Steps.{IsNaming, NamesWith, NamesPairs, AllIn};

use cs_derivation::Derivation;
use cs_proof::Want;
use std::alloc::{AllocError, Global};
use std::rc::Rc;
use vx_terms::{Operator, Term};

/// Whether two terms are of one sort.
fn have_one_sort(a: &Term, b: &Term) -> Result<bool, AllocError>
    ensures { IfOk result (λ p. p ≡ clean.have_one_sort (term a.now) (term b.now)) }
{
    let sort = a.sort()?;
    Ok(sort.is_same(&b.sort()?))
}

/// The equality of two terms, as it is written.
pub fn equality(alloc: Global, a: &Rc<Term>, b: &Rc<Term>) -> Result<Rc<Term>, AllocError>
    ensures { IfOk result (λ t. term t.value ≡ equal (term a.now.value) (term b.now.value)) }
{
    Ok(Rc::new(alloc, Term::Binary(Operator::Equal, a.clone()?, b.clone()?))?)
}

/// An equality of two terms has a number, where they are of one sort.
fn with_equality(
    alloc: Global,
    derivation: Derivation,
    a: &Rc<Term>,
    b: &Rc<Term>,
) -> Result<Derivation, Want>
    ensures { (stack : Stack) → IsNaming stack (reached derivation) → Contains (reached derivation).terms (term a.now.value)
        → Contains (reached derivation).terms (term b.now.value)
        → IfOk result (λ d. NamesWith stack (reached derivation) (reached d) (term a.now.value) (λ y. y ≡ term b.now.value)) }
{
    if !have_one_sort(a, b)? {
        return Ok(derivation);
    }
    let equality = equality(alloc, a, b)?;
    let (derivation, _number) = derivation.name(alloc, &equality)?;
    Ok(derivation)
}

/// An equality of a term with each of some others has a number, where they are of one sort.
fn with_others(
    alloc: Global,
    derivation: Derivation,
    a: &Rc<Term>,
    others: &[Rc<Term>],
) -> Result<Derivation, Want>
    ensures { (stack : Stack) → IsNaming stack (reached derivation) → Contains (reached derivation).terms (term a.now.value)
        → AllIn (reached derivation).terms (map (λ x. term x.value) others.now)
        → IfOk result (λ d. NamesWith stack (reached derivation) (reached d) (term a.now.value) (Contains (map (λ x. term x.value) others.now))) }
{
    let mut derivation = derivation;
    for b in others {
        derivation = with_equality(alloc, derivation, a, b)?;
    }
    Ok(derivation)
}

/// An equality of each two of some terms has a number, where they are of one sort.
pub fn with_pairs(
    alloc: Global,
    derivation: Derivation,
    terms: &[Rc<Term>],
) -> Result<Derivation, Want>
    ensures { (stack : Stack) → IsNaming stack (reached derivation) → AllIn (reached derivation).terms (map (λ x. term x.value) terms.now)
        → IfOk result (λ d. NamesPairs stack (reached derivation) (reached d) (map (λ x. term x.value) terms.now)) }
{
    let mut derivation = derivation;
    for at in 0..terms.len() {
        derivation = with_others(alloc, derivation, &terms[at], &terms[at + 1..])?;
    }
    Ok(derivation)
}
