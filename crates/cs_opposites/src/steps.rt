//! Steps by which a derivation gains clauses.
ghost use Rattle.std.specs.Prelude.{◌≡◌, List, [], ◌∷◌, ◌++◌, map};
ghost use Rattle.vx_terms.specs.Interpretations.{Each};
ghost use Rattle.vx_terms.specs.Terms as clean;
ghost use Rattle.vx_terms.specs.Views.{term};
ghost use Rattle.cs_certificate.specs.Certificate.{Yes, Clause, Stack, At, Contains, Defines, Refutes};
ghost use Rattle.cs_derivation.specs.View.{reached};
ghost use Rattle.cs_numbers.specs.Laws.{IsSorted};
ghost use Rattle.cs_opposites.specs.Made.{IsMade, Has, Gains, with_clauses};

use cs_derivation::Derivation;
use cs_numbers::place_of;
use cs_proof::Want;
use cs_table::Stop;
use std::alloc::Global;
use std::rc::Rc;
use vx_terms::Term;

/// A derivation with no step.
///
/// # Errors
/// `Want` where memory runs out.
pub fn begun(alloc: Global, assertions: &[Rc<Term>]) -> Result<Derivation, Stop>
    ensures { (stack : Stack) → stack.assertions ≡ map (λ x. term x.value) assertions.now → Each IsSorted stack.assertions → IsMade (λ d. Has stack [] (reached d)) result }
{
    match Derivation::new(alloc, assertions) {
        Ok(derivation) => Ok(derivation),
        Err(Want) => Err(Stop::Want),
    }
}

/// The clause of the assertion of this place.
///
/// # Errors
/// `Miss` where there is none; `Want` where memory runs out.
pub fn input(alloc: Global, derivation: &mut Derivation, place: u32) -> Result<u32, Stop>
    ensures { (stack : Stack) (cs : List Clause) (t : clean.Term) → Has stack cs (reached derivation.old) → At stack.assertions place t
        → IsMade (Gains stack cs (Yes t ∷ []) (reached derivation.new)) result }
{
    match derivation.input(alloc, place) {
        Ok(Some(number)) => Ok(number),
        Ok(None) => Err(Stop::Miss),
        Err(Want) => Err(Stop::Want),
    }
}

/// The clause of the first row of a term.
///
/// # Errors
/// `Miss` where the term has no row, or no number; `Want` where memory runs out.
pub fn first_row(alloc: Global, derivation: &mut Derivation, t: &Rc<Term>) -> Result<u32, Stop>
    ensures { (stack : Stack) (cs : List Clause) (c : Clause) → Has stack cs (reached derivation.old) → Contains stack.assertions (term t.now.value)
        → Defines (term t.now.value) 0 c → IsMade (Gains stack cs c (reached derivation.new)) result }
{
    let number = place_of(derivation.terms(), t)?;
    match derivation.define(alloc, number, 0) {
        Ok(Some(number)) => Ok(number),
        Ok(None) => Err(Stop::Miss),
        Err(Want) => Err(Stop::Want),
    }
}

/// The empty clause, by these hints.
///
/// # Errors
/// `Miss` where they don't derive it; `Want` where memory runs out.
pub fn empty(alloc: Global, derivation: &mut Derivation, hints: &[u32]) -> Result<(), Stop>
    ensures { (stack : Stack) (cs : List Clause) → Has stack cs (reached derivation.old) → Refutes (with_clauses stack cs) [] hints.now
        → IsMade (λ u. Has stack (cs ++ [] ∷ []) (reached derivation.new)) result }
{
    match derivation.propagate(alloc, &[], hints) {
        Ok(Some(_)) => Ok(()),
        Ok(None) => Err(Stop::Miss),
        Err(Want) => Err(Stop::Want),
    }
}
