//! Whether assertions are well-sorted, writable Bool terms over the live symbols.
ghost use Rattle.std.specs.Prelude.{◌≡◌, map, IfOk};
ghost use Rattle.std.specs.List.{list_all};
ghost use Rattle.vx_terms.specs.Views.{term};
ghost use Rattle.cs_proof.specs.Fits.{seen};
ghost use Rattle.cs_reader.specs.Live.{declared_in};
ghost use Rattle.cs_sorts.specs.Sorting as sorting;
ghost use Rattle.cs_writable.specs.Tests as writable;
ghost use Rattle.cs_answer.specs.Tests as tests;

use cs_proof::{Stack, Want};
use cs_reader::{SymbolIndex, Symbols};
use cs_sorts::{is_live, sort_in};
use cs_table::Stop;
use cs_writable::is_writable_term;
use std::alloc::{AllocError, Global};
use std::rc::Rc;
use vx_smt_meaning::Declared;
use vx_terms::{Sort, Term};

/// Whether a term is a well-sorted Bool term.
fn is_assertion(t: &Term) -> Result<bool, Want>
    ensures { IfOk result (λ b. b ≡ tests.is_assertion (term t.now)) }
{
    match sort_in(t) {
        Ok(sort) => Ok(sort.is_same(&Sort::Bool)),
        Err(Stop::Miss) => Ok(false),
        Err(Stop::Want) => Err(Want),
    }
}

fn are_assertions(terms: &[Rc<Term>]) -> Result<bool, Want>
    ensures { IfOk result (λ b. b ≡ list_all tests.is_assertion (map (λ x. term x.value) terms.now)) }
{
    for t in terms {
        if !is_assertion(t)? {
            return Ok(false);
        }
    }
    Ok(true)
}

fn are_writable(alloc: Global, terms: &[Rc<Term>]) -> Result<bool, AllocError>
    ensures { IfOk result (λ b. b ≡ list_all writable.is_writable_term (map (λ x. term x.value) terms.now)) }
{
    for t in terms {
        if !is_writable_term(alloc, t)? {
            return Ok(false);
        }
    }
    Ok(true)
}

fn are_live(symbols: &Symbols<'_>, terms: &[Rc<Term>]) -> Result<bool, AllocError>
    ensures { IfOk result (λ b. b ≡ list_all (sorting.is_live (declared_in symbols.now)) (map (λ x. term x.value) terms.now)) }
{
    for t in terms {
        if !is_live(symbols, t)? {
            return Ok(false);
        }
    }
    Ok(true)
}

/// Whether the assertions of a stack are well-sorted, writable Bool terms over its symbols.
///
/// # Errors
/// Memory runs out.
pub fn are_formed(alloc: Global, stack: &Stack) -> Result<bool, Want>
    ensures { IfOk result (λ b. b ≡ tests.are_formed (seen stack.now)) }
{
    if !are_assertions(&stack.assertions)? || !are_writable(alloc, &stack.assertions)? {
        return Ok(false);
    }
    let declared: &[Declared] = &stack.symbols;
    let index = SymbolIndex::of(alloc, declared)?;
    let symbols = Symbols::new(declared, &index);
    Ok(are_live(&symbols, &stack.assertions)?)
}
