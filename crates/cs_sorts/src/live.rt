//! Whether the symbols of a term are declared on a live level.
ghost use Rattle.std.specs.Prelude.{◌≡◌, IfOk, map, [], List};
ghost use Rattle.std.specs.List.{list_any};
ghost use Rattle.vx_terms.specs.Sorts.{same_symbol};
ghost use Rattle.vx_terms.specs.Terms.{sort_of};
ghost use Rattle.vx_terms.specs.Views.{term, terms, sort, symbol};
ghost use Rattle.vx_smt_meaning.specs.Views.{declared_symbol};
ghost use Rattle.cs_certificate.specs.Terms.{items};
ghost use Rattle.cs_index.specs.Found.{passes_at};
ghost use Rattle.cs_reader.specs.Live.{declared_in};
ghost use Rattle.cs_sorts.specs.Sorting as clean;

use cs_reader::{Symbols, symbol_key};
use std::alloc::AllocError;
use vx_smt_meaning::Declared;
use vx_terms::{Sort, Symbol, Term, Terms};

/// Whether the sorts of some parts are these.
fn has_sorts(parts: &Terms, sorts: &[Sort]) -> Result<bool, AllocError>
    ensures { IfOk result (λ b. b ≡ clean.same_sorts (map sort_of (items (terms parts.now))) (map sort sorts.now)) }
{
    match (parts, sorts) {
        (Terms::None, []) => Ok(true),
        (Terms::More(t, rest), [first, others @ ..]) => {
            let own = t.sort()?;
            if own.is_same(first) {
                has_sorts(rest, others)
            } else {
                Ok(false)
            }
        }
        _ => Ok(false),
    }
}

fn is_declaration(
    f: &Symbol,
    parts: &Terms,
    gives: &Sort,
    by: &Declared,
) -> Result<bool, AllocError>
    ensures { IfOk result (λ b. b ≡ clean.is_declaration (symbol f.now) (map sort_of (items (terms parts.now))) (sort gives.now) (declared_symbol by.now)) }
{
    if !f.is_same(&by.symbol) {
        return Ok(false);
    }
    if !has_sorts(parts, &by.takes)? {
        return Ok(false);
    }
    Ok(gives.is_same(&by.gives))
}

/// Whether the symbol at this place is so declared.
fn is_at(
    symbols: &[Declared],
    at: u32,
    f: &Symbol,
    parts: &Terms,
    gives: &Sort,
) -> Result<bool, AllocError>
    ensures { IfOk result (λ b. b ≡ passes_at (clean.is_declaration (symbol f.now) (map sort_of (items (terms parts.now))) (sort gives.now)) (map declared_symbol symbols.now) at) }
{
    match symbols.get(at as usize) {
        Some(by) => is_declaration(f, parts, gives, by),
        None => Ok(false),
    }
}

fn declares(
    symbols: &Symbols<'_>,
    f: &Symbol,
    parts: &Terms,
    gives: &Sort,
) -> Result<bool, AllocError>
    ensures { IfOk result (λ b. b ≡ clean.declares (declared_in symbols.now) (symbol f.now) (map sort_of (items (terms parts.now))) (sort gives.now)) }
{
    for at in symbols.under(symbol_key(f)) {
        if is_at(symbols.declared, *at, f, parts, gives)? {
            return Ok(true);
        }
    }
    Ok(false)
}

/// Whether the symbols of a term are declared, with the sorts that they have there.
#[cycle(live)]
pub fn is_live(symbols: &Symbols<'_>, t: &Term) -> Result<bool, AllocError>
    ensures { IfOk result (λ b. b ≡ clean.is_live (declared_in symbols.now) (term t.now)) }
{
    match t {
        Term::Truth(_) | Term::Number(_) | Term::Part(_) => Ok(true),
        Term::Constant(f, a) => declares(symbols, f, &Terms::None, a),
        Term::Apply(f, a, parts) => {
            if declares(symbols, f, parts, a)? {
                are_live(symbols, parts)
            } else {
                Ok(false)
            }
        }
        Term::AllOf(parts) | Term::SomeOf(parts) => are_live(symbols, parts),
        Term::Not(a) => is_live(symbols, a),
        Term::Binary(_, a, b) => {
            if is_live(symbols, a)? {
                is_live(symbols, b)
            } else {
                Ok(false)
            }
        }
        Term::Ite(c, a, b) => {
            if !is_live(symbols, c)? {
                return Ok(false);
            }
            if is_live(symbols, a)? {
                is_live(symbols, b)
            } else {
                Ok(false)
            }
        }
    }
}

#[cycle(live)]
fn are_live(symbols: &Symbols<'_>, parts: &Terms) -> Result<bool, AllocError>
    ensures { IfOk result (λ b. b ≡ clean.are_live (declared_in symbols.now) (terms parts.now)) }
{
    match parts {
        Terms::None => Ok(true),
        Terms::More(t, rest) => {
            if is_live(symbols, t)? {
                are_live(symbols, rest)
            } else {
                Ok(false)
            }
        }
    }
}
