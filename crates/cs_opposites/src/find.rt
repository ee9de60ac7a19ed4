//! Looks for `false` among assertions, and for a term and its negation.
ghost use Rattle.std.specs.Prelude.{◌≡◌, ◌<◌, ◌^◌, ◌++◌, [], ◌∷◌, List, None, length, map, slice_get, IfOk, OnOk};
ghost use Rattle.std.specs.List.{All};
ghost use Rattle.vx_terms.specs.Terms as clean;
ghost use Rattle.vx_terms.specs.Views.{term};
ghost use Rattle.cs_certificate.specs.Certificate.{At};
ghost use Rattle.cs_numbers.specs.Listed.{terms_in};
ghost use Rattle.cs_opposites.specs.Found.{AreEntered, IsPlaced, place_in, Opposes, IsFound};

use cs_numbers::{NumberedTerms, number, place_of};
use cs_table::Stop;
use std::alloc::{AllocError, Global};
use std::rc::Rc;
use vx_terms::Term;

/// Assertions that refute themselves, by their places.
#[derive(Clone, Copy)]
pub enum Opposites {
    /// `false`.
    False(u32),
    /// A term, and its negation.
    Both(u32, u32),
}

/// No place, so many times.
fn nowhere(alloc: Global, count: usize) -> Result<Vec<Option<u32>>, AllocError>
    ensures count { IfOk result (λ v. length v.items ≡ count) }
    ensures none { IfOk result (λ v. All (λ x. x ≡ None) v.items) }
{
    let mut places = Vec::new(alloc);
    for _number in 0..count {
        places.push(None)?;
    }
    Ok(places)
}

/// Enters the place of one more assertion at the number of its term.
fn enter(
    terms: &NumberedTerms,
    places: &mut Vec<Option<u32>>,
    t: &Rc<Term>,
    place: u32,
) -> Result<(), Stop>
    ensures { (ts : List clean.Term) → length ts ≡ place → AreEntered (terms_in terms.now) ts places.old.items
        → OnOk result (AreEntered (terms_in terms.now) (ts ++ term t.now.value ∷ []) places.new.items) }
{
    let number = place_of(terms, t)? as usize;
    if number >= places.len() {
        return Err(Stop::Miss);
    }
    places[number] = Some(place);
    Ok(())
}

/// By number of a term the place of an assertion that is the term.
fn places_of(
    alloc: Global,
    terms: &NumberedTerms,
    assertions: &[Rc<Term>],
) -> Result<Vec<Option<u32>>, Stop>
    requires { length assertions.now < 2 ^ 32 }
    ensures { IfOk result (λ v. AreEntered (terms_in terms.now) (map (λ x. term x.value) assertions.now) v.items) }
{
    let mut places = nowhere(alloc, terms.terms.len())?;
    for (place, assertion) in assertions.iter().enumerate() {
        enter(terms, &mut places, assertion, place as u32)?;
    }
    Ok(places)
}

/// The place at a number, where there is one.
fn at(places: &[Option<u32>], number: u32) -> Option<u32>
    ensures { result ≡ place_in (slice_get places.now number) }
{
    match places.get(number as usize) {
        Some(place) => *place,
        None => None,
    }
}

/// The place of an assertion that is this term.
fn asserted(
    terms: &NumberedTerms,
    places: &[Option<u32>],
    t: &Rc<Term>,
) -> Result<Option<u32>, Stop>
    ensures { (ts : List clean.Term) → AreEntered (terms_in terms.now) ts places.now → IfOk result (IsPlaced ts (term t.now.value)) }
{
    let number = place_of(terms, t)?;
    Ok(at(places, number))
}

/// The opposites that an assertion makes: it is `false`, or the negation of an assertion.
fn opposite(
    terms: &NumberedTerms,
    places: &[Option<u32>],
    t: &Term,
    place: u32,
) -> Result<Option<Opposites>, Stop>
    ensures { (ts : List clean.Term) → AreEntered (terms_in terms.now) ts places.now → At ts place (term t.now) → IfOk result (Opposes ts (term t.now)) }
{
    match t {
        Term::Truth(false) => Ok(Some(Opposites::False(place))),
        Term::Not(part) => match asserted(terms, places, part)? {
            Some(other) => Ok(Some(Opposites::Both(other, place))),
            None => Ok(None),
        },
        Term::Truth(true) | Term::Number(_) | Term::Part(_) | Term::Constant(_, _) => Ok(None),
        Term::Apply(_, _, _) | Term::Binary(_, _, _) | Term::Ite(_, _, _) => Ok(None),
        Term::AllOf(_) | Term::SomeOf(_) => Ok(None),
    }
}

/// The opposites among assertions, of which these are entered.
fn among(
    terms: &NumberedTerms,
    places: &[Option<u32>],
    assertions: &[Rc<Term>],
) -> Result<Option<Opposites>, Stop>
    requires few { length assertions.now < 2 ^ 32 }
    requires entered { AreEntered (terms_in terms.now) (map (λ x. term x.value) assertions.now) places.now }
    ensures { IfOk result (IsFound (map (λ x. term x.value) assertions.now)) }
{
    for (place, assertion) in assertions.iter().enumerate() {
        if let Some(found) = opposite(terms, places, assertion, place as u32)? {
            return Ok(Some(found));
        }
    }
    Ok(None)
}

/// The opposites among assertions, where there are some.
///
/// # Errors
/// `Want` where memory runs out, or where there are 2^32 assertions.
pub fn opposites_in(alloc: Global, assertions: &[Rc<Term>]) -> Result<Option<Opposites>, Stop>
    ensures { IfOk result (IsFound (map (λ x. term x.value) assertions.now)) }
{
    if assertions.len() >= 1 << 32 {
        return Err(Stop::Want);
    }
    let terms = number(alloc, assertions)?;
    let places = places_of(alloc, &terms, assertions)?;
    among(&terms, &places, assertions)
}
