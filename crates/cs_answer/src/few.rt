//! Whether a stack is one that is always decided: without numbers, and with few Bool terms.
ghost use Rattle.std.specs.Prelude.{◌≡◌, map, IfOk};
ghost use Rattle.std.specs.Bool.{Decides};
ghost use Rattle.vx_terms.specs.Views.{term};
ghost use Rattle.cs_certificate.specs.Terms.{numbered};
ghost use Rattle.cs_proof.specs.Fits.{seen};
ghost use Rattle.cs_answer.specs.Few as clean;
ghost use Rattle.cs_answer.specs.Few.{IsFew};
ghost use Rattle.cs_answer.specs.Tests as tests;

use crate::formed::are_formed;
use crate::nonlinear::has_number_among;
use cs_numbers::{number, numbers_are_given};
use cs_proof::{Stack, Want};
use std::alloc::{AllocError, Global};
use std::rc::Rc;
use vx_terms::{Sort, Term};

/// At most so many terms are Bool.
const FEW: usize = 10;

fn is_bool(t: &Term) -> Result<bool, AllocError>
    ensures { IfOk result (λ b. b ≡ clean.is_bool (term t.now)) }
{
    Ok(t.sort()?.is_same(&Sort::Bool))
}

/// How many of the terms are Bool.
fn bool_count(all: &[Rc<Term>]) -> Result<usize, AllocError>
    ensures { IfOk result (λ n. n ≡ clean.bool_count (map (λ x. term x.value) all.now)) }
{
    let mut count: usize = 0;
    for t in all {
        if is_bool(t)? {
            count += 1;
        }
    }
    Ok(count)
}

/// Whether there are no numbers among the terms, and few terms are Bool.
fn are_few(all: &[Rc<Term>]) -> Result<bool, AllocError>
    ensures { IfOk result (λ b. b ≡ tests.are_few (map (λ x. term x.value) all.now)) }
{
    if has_number_among(all)? {
        return Ok(false);
    }
    Ok(bool_count(all)? <= FEW)
}

/// The same of the assertions and their parts.
fn have_few(alloc: Global, assertions: &[Rc<Term>]) -> Result<bool, AllocError>
    ensures { IfOk result (λ b. b ≡ tests.are_few (numbered (map (λ x. term x.value) assertions.now))) }
{
    numbers_are_given();
    let numbered = number(alloc, assertions)?;
    are_few(&numbered.terms)
}

/// Whether the assertions of a stack are writable Bool terms over the live symbols, without numbers, of which few terms are Bool.
///
/// # Errors
/// Memory runs out.
pub fn is_few(alloc: Global, stack: &Stack) -> Result<bool, Want>
    ensures { IfOk result (λ b. Decides b (IsFew (seen stack.now))) }
{
    if !have_few(alloc, &stack.assertions)? {
        return Ok(false);
    }
    are_formed(alloc, stack)
}
