//! Literals whose numbers are large.
ghost use Rattle.std.specs.Prelude.{◌≡◌, map, IfOk};
ghost use Rattle.std.specs.List.{list_any};
ghost use Rattle.vx_terms.specs.Views.{term};
ghost use Rattle.cs_answer.specs.Causes as clean;

use cs_numbers::{number, numbers_are_given};
use std::alloc::{AllocError, Global};
use std::rc::Rc;
use vx_terms::Term;

/// A literal is large where its numerator or its denominator is at least so large in size.
const LARGE: u128 = 32_768;

/// Whether a term is a large literal.
fn is_large(t: &Term) -> bool
    ensures { result ≡ clean.is_large (term t.now) }
{
    match t {
        Term::Number(z) => z.unsigned_abs() >= LARGE,
        Term::Part(a) => a.num().unsigned_abs() >= LARGE || a.den().unsigned_abs() >= LARGE,
        Term::Truth(_) | Term::Constant(_, _) | Term::Apply(_, _, _) => false,
        Term::Not(_) | Term::Binary(_, _, _) | Term::Ite(_, _, _) => false,
        Term::AllOf(_) | Term::SomeOf(_) => false,
    }
}

/// Whether one of the terms is a large literal.
fn has_large_among(terms: &[Rc<Term>]) -> bool
    ensures { result ≡ list_any clean.is_large (map (λ x. term x.value) terms.now) }
{
    for t in terms {
        if is_large(t) {
            return true;
        }
    }
    false
}

/// Whether an assertion has a large literal.
///
/// # Errors
/// Memory runs out.
pub fn has_large(alloc: Global, assertions: &[Rc<Term>]) -> Result<bool, AllocError>
    ensures { IfOk result (λ b. b ≡ clean.has_large (map (λ x. term x.value) assertions.now)) }
{
    numbers_are_given();
    let numbered = number(alloc, assertions)?;
    Ok(has_large_among(&numbered.terms))
}
