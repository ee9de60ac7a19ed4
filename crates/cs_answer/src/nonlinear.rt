//! Terms whose meaning linear arithmetic doesn't have.
ghost use Rattle.std.specs.Prelude.{◌≡◌, map, IfOk};
ghost use Rattle.std.specs.List.{list_any};
ghost use Rattle.vx_terms.specs.Views.{operator, term};
ghost use Rattle.cs_answer.specs.Causes as clean;

use cs_numbers::{number, numbers_are_given};
use std::alloc::{AllocError, Global};
use std::rc::Rc;
use vx_terms::{Operator, Sort, Term};

/// Whether the term is a literal.
fn is_literal(t: &Term) -> bool
    ensures { result ≡ clean.is_literal (term t.now) }
{
    match t {
        Term::Number(_) | Term::Part(_) => true,
        Term::Truth(_) | Term::Constant(_, _) | Term::Apply(_, _, _) => false,
        Term::Not(_) | Term::Binary(_, _, _) | Term::Ite(_, _, _) => false,
        Term::AllOf(_) | Term::SomeOf(_) => false,
    }
}

/// Whether the term is a whole number other than 0.
fn is_divisor(t: &Term) -> bool
    ensures { result ≡ clean.is_divisor (term t.now) }
{
    match t {
        Term::Number(z) => *z != 0,
        Term::Truth(_) | Term::Part(_) | Term::Constant(_, _) | Term::Apply(_, _, _) => false,
        Term::Not(_) | Term::Binary(_, _, _) | Term::Ite(_, _, _) => false,
        Term::AllOf(_) | Term::SomeOf(_) => false,
    }
}

fn joins_nonlinearly(of: Operator, a: &Term, b: &Term) -> bool
    ensures { result ≡ clean.joins_nonlinearly (operator of) (term a.now) (term b.now) }
{
    match of {
        Operator::Multiply => !is_literal(a) && !is_literal(b),
        Operator::Div | Operator::Mod => !is_divisor(b),
        Operator::And | Operator::Or | Operator::Implies | Operator::Equal => false,
        Operator::Less | Operator::LessEqual | Operator::Add | Operator::Subtract => false,
    }
}

/// Whether a term is a product of two terms that are no literals, or a quotient or a remainder by a term that is no
/// literal other than 0.
pub fn is_nonlinear(t: &Term) -> bool
    ensures { result ≡ clean.is_nonlinear (term t.now) }
{
    match t {
        Term::Binary(of, a, b) => joins_nonlinearly(*of, a, b),
        Term::Truth(_) | Term::Number(_) | Term::Part(_) | Term::Constant(_, _) => false,
        Term::Apply(_, _, _) | Term::Not(_) | Term::Ite(_, _, _) => false,
        Term::AllOf(_) | Term::SomeOf(_) => false,
    }
}

/// Whether the term of this number is nonlinear. The terms of the assertions are numbered anew.
///
/// # Errors
/// Memory runs out.
pub fn is_nonlinear_at(alloc: Global, assertions: &[Rc<Term>], at: u32) -> Result<bool, AllocError>
    ensures { IfOk result (λ b. b ≡ clean.is_nonlinear_at (map (λ x. term x.value) assertions.now) at) }
{
    numbers_are_given();
    let numbered = number(alloc, assertions)?;
    match numbered.terms.get(at as usize) {
        Some(t) => Ok(is_nonlinear(t)),
        None => Ok(false),
    }
}

/// Whether a term is of sort Int or Real.
fn is_number(t: &Term) -> Result<bool, AllocError>
    ensures { IfOk result (λ b. b ≡ clean.is_number (term t.now)) }
{
    let sort = t.sort()?;
    match &sort {
        Sort::Int | Sort::Real => Ok(true),
        Sort::Bool | Sort::Ref | Sort::Snap | Sort::Other(_) => Ok(false),
    }
}

/// Whether one of the terms is of sort Int or Real.
///
/// # Errors
/// Memory runs out.
pub fn has_number_among(terms: &[Rc<Term>]) -> Result<bool, AllocError>
    ensures { IfOk result (λ b. b ≡ list_any clean.is_number (map (λ x. term x.value) terms.now)) }
{
    for t in terms {
        if is_number(t)? {
            return Ok(true);
        }
    }
    Ok(false)
}

/// Whether an assertion, or a part of one, is of sort Int or Real.
///
/// # Errors
/// Memory runs out.
pub fn has_number(alloc: Global, assertions: &[Rc<Term>]) -> Result<bool, AllocError>
    ensures { IfOk result (λ b. b ≡ clean.has_number (map (λ x. term x.value) assertions.now)) }
{
    numbers_are_given();
    let numbered = number(alloc, assertions)?;
    has_number_among(&numbered.terms)
}
