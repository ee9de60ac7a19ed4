//! Refutes assertions that hold `false`, or a term and its negation.
ghost use Rattle.std.specs.Prelude.{◌≡◌, ◌↔◌, false, [], map, IfOk, IfSome, IsSome};
ghost use Rattle.vx_terms.specs.Interpretations.{Each};
ghost use Rattle.vx_terms.specs.Terms as clean;
ghost use Rattle.vx_terms.specs.Terms.{Truth, Not};
ghost use Rattle.vx_terms.specs.Views.{term};
ghost use Rattle.cs_certificate.specs.Certificate as certificate;
ghost use Rattle.cs_certificate.specs.Certificate.{At};
ghost use Rattle.cs_numbers.specs.Laws.{IsSorted};
ghost use Rattle.cs_proof.specs.Answers.{Answers};
ghost use Rattle.cs_proof.specs.Checking.{Finished};
ghost use Rattle.cs_proof.specs.Fits.{seen};
ghost use Rattle.cs_proof.specs.Views.{written};
ghost use Rattle.cs_writable.specs.Writable.{AreWritable};
ghost use Rattle.cs_derivation.specs.View.{reached};
ghost use Rattle.cs_opposites.specs.Found.{AreOpposites};
ghost use Rattle.cs_opposites.specs.Made.{IsMade, Has, HasEmpty, AreFinished};
ghost use Rattle.cs_opposites.specs.Opposites.{HasOpposites};

use crate::find::{Opposites, opposites_in};
use crate::steps::{begun, empty, first_row, input};
use cs_derivation::{Derivation, empty_clauses_finish};
use cs_proof::{Stack, Step, Want};
use cs_table::Stop;
use std::alloc::Global;
use std::rc::Rc;
use vx_terms::Term;

/// The assertion of a place.
fn assertion_at(assertions: &[Rc<Term>], place: u32) -> Result<&Rc<Term>, Stop>
    ensures { (t : clean.Term) → At (map (λ x. term x.value) assertions.now) place t → IsMade (λ x. term x.now.value ≡ t) result }
{
    match assertions.get(place as usize) {
        Some(t) => Ok(t),
        None => Err(Stop::Miss),
    }
}

/// The empty clause from an assertion, and from the first row of its term.
fn refute_false(
    alloc: Global,
    derivation: &mut Derivation,
    assertions: &[Rc<Term>],
    place: u32,
) -> Result<(), Stop>
    ensures { (stack : certificate.Stack) → stack.assertions ≡ map (λ x. term x.value) assertions.now → Has stack [] (reached derivation.old)
        → At stack.assertions place (Truth false) →
        IsMade (λ u. HasEmpty stack (reached derivation.new)) result }
{
    let t = assertion_at(assertions, place)?;
    let holds = input(alloc, derivation, place)?;
    let row = first_row(alloc, derivation, t)?;
    empty(alloc, derivation, &[holds, row])
}

/// The empty clause from an assertion, from its negation, and from the first row of that.
fn refute_both(
    alloc: Global,
    derivation: &mut Derivation,
    assertions: &[Rc<Term>],
    place: u32,
    denied: u32,
) -> Result<(), Stop>
    ensures { (stack : certificate.Stack) → stack.assertions ≡ map (λ x. term x.value) assertions.now → Has stack [] (reached derivation.old) → (t : clean.Term)
        → At stack.assertions place t → At stack.assertions denied (Not t) →
        IsMade (λ u. HasEmpty stack (reached derivation.new)) result }
{
    let t = assertion_at(assertions, denied)?;
    let holds = input(alloc, derivation, place)?;
    let negation = input(alloc, derivation, denied)?;
    let row = first_row(alloc, derivation, t)?;
    empty(alloc, derivation, &[holds, negation, row])
}

/// The empty clause from opposites.
fn refute(
    alloc: Global,
    derivation: &mut Derivation,
    assertions: &[Rc<Term>],
    opposites: Opposites,
) -> Result<(), Stop>
    ensures { (stack : certificate.Stack) → stack.assertions ≡ map (λ x. term x.value) assertions.now → Has stack [] (reached derivation.old)
        → AreOpposites stack.assertions opposites →
        IsMade (λ u. HasEmpty stack (reached derivation.new)) result }
{
    match opposites {
        Opposites::False(place) => refute_false(alloc, derivation, assertions, place),
        Opposites::Both(place, denied) => refute_both(alloc, derivation, assertions, place, denied),
    }
}

/// The steps that refute opposites.
///
/// # Errors
/// `Miss` where they are none; `Want` where memory runs out.
fn steps_of(alloc: Global, stack: &Stack, opposites: Opposites) -> Result<Vec<Step>, Stop>
    ensures { Each IsSorted (seen stack.now).assertions → AreOpposites (seen stack.now).assertions opposites → IsMade (AreFinished (seen stack.now)) result }
{
    let mut derivation = begun(alloc, &stack.assertions)?;
    refute(alloc, &mut derivation, &stack.assertions, opposites)?;
    empty_clauses_finish();
    Ok(derivation.into_steps())
}

/// The steps that refute the assertions of a stack which hold `false`, or a term and its negation; `None` where they don't.
/// It takes a time like that of numbering their terms.
///
/// # Errors
/// `Want` where memory runs out.
pub fn opposed(alloc: Global, stack: &Stack) -> Result<Option<Vec<Step>>, Want>
    ensures found { IfOk result (λ found. IsSome found ↔ HasOpposites (seen stack.now).assertions) }
    // over well-sorted assertions
    ensures refutes { Each IsSorted (seen stack.now).assertions → IfOk result (λ found. IfSome found (λ steps. Answers (seen stack.now) (map written steps.items) Finished)) }
    ensures writable { Each IsSorted (seen stack.now).assertions → IfOk result (λ found. IfSome found (λ steps. AreWritable (map written steps.items))) }
{
    match opposites_in(alloc, &stack.assertions)? {
        Some(opposites) => Ok(Some(steps_of(alloc, stack, opposites)?)),
        None => Ok(None),
    }
}
