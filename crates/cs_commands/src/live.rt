//! What is declared, and what a name stands for there.
ghost use Rattle.std.specs.Prelude.{◌≡◌, map, IfOk, string_bytes};
ghost use Rattle.std.specs.Option.{option_map};
ghost use Rattle.vx_terms.specs.Sorts.{same_symbol};
ghost use Rattle.vx_terms.specs.Views.{sort, symbol};
ghost use Rattle.vx_smt_meaning.specs.Views.{declared_symbol};
ghost use Rattle.vx_smt_meaning.specs.WellFormed.{has_sort, knows_sort};
ghost use Rattle.cs_index.specs.Found.{first, passes_at};
ghost use Rattle.cs_reader.specs.Live.{declared_in};
ghost use Rattle.cs_commands.specs.Outcomes.{Gives};
ghost use Rattle.cs_commands.specs.Names as names;
ghost use Rattle.cs_commands.specs.Live as clean;
ghost use Rattle.cs_commands.specs.Views.{scope};

use crate::fault::CommandFault;
use crate::name::{sort_named, symbol_named, text};
use crate::word::{Word, term_word};
use cs_reader::{Symbols, symbol_key};
use std::alloc::Global;
use vx_smt_meaning::Declared;
use vx_terms::{Sort, Symbol};

/// What is declared on the live levels: symbols, and sorts by their names.
#[derive(Clone, Copy)]
pub struct Live<'s, 'd> {
    pub symbols: &'s Symbols<'d>,
    pub sorts: &'s [String],
}

fn is_at(symbols: &[Declared], at: u32, f: &Symbol) -> bool
    ensures { result ≡ passes_at (λ d. same_symbol (symbol f.now) d.symbol) (map declared_symbol symbols.now) at }
{
    match symbols.get(at as usize) {
        Some(by) => f.is_same(&by.symbol),
        None => false,
    }
}

/// The place of the first declaration of this symbol.
fn place_of(symbols: &Symbols<'_>, f: &Symbol) -> Option<u32>
    ensures { result ≡ first (λ d. same_symbol (symbol f.now) d.symbol) (declared_in symbols.now) }
{
    for at in symbols.under(symbol_key(f)) {
        if is_at(symbols.declared, *at, f) {
            return Some(*at);
        }
    }
    None
}

/// The first declaration of this symbol.
pub fn declared_as<'d>(symbols: &Symbols<'d>, f: &Symbol) -> Option<&'d Declared>
    ensures { option_map (λ d. declared_symbol d.now) result ≡ clean.declared_as (declared_in symbols.now) (symbol f.now) }
{
    match place_of(symbols, f) {
        Some(at) => symbols.declared.get(at as usize),
        None => None,
    }
}

fn has_sort(sorts: &[String], name: &[u8]) -> bool
    ensures { result ≡ has_sort (map string_bytes sorts.now) name.now }
{
    for own in sorts {
        if own.as_bytes() == name {
            return true;
        }
    }
    false
}

fn knows_sort(sorts: &[String], of: &Sort) -> bool
    ensures { result ≡ knows_sort (map string_bytes sorts.now) (sort of.now) }
{
    match of {
        Sort::Int | Sort::Bool | Sort::Real => true,
        Sort::Ref => has_sort(sorts, b"Ref"),
        Sort::Snap => has_sort(sorts, b"Snap"),
        Sort::Other(name) => has_sort(sorts, name.as_bytes()),
    }
}

/// What a name is declared as.
pub fn declaration<'d>(
    alloc: Global,
    live: &Live<'_, 'd>,
    name: &[u8],
) -> Result<Option<&'d Declared>, CommandFault>
    ensures { Gives (λ o. option_map (λ d. declared_symbol d.now) o) result (clean.declaration (scope live.now) name.now) }
{
    let name = text(alloc, name)?;
    let of = symbol_named(alloc, &name)?;
    Ok(declared_as(live.symbols, &of))
}

/// The known sort of a name.
pub fn sort_at(alloc: Global, live: &Live<'_, '_>, name: &[u8]) -> Result<Sort, CommandFault>
    ensures { Gives (λ a. sort a) result (clean.sort_at (scope live.now) name.now) }
{
    let name = text(alloc, name)?;
    let of = sort_named(alloc, &name)?;
    if knows_sort(live.sorts, &of) {
        Ok(of)
    } else {
        Err(CommandFault::Name)
    }
}

/// The name of a sort that isn't known.
pub fn new_sort(alloc: Global, live: &Live<'_, '_>, name: &[u8]) -> Result<String, CommandFault>
    ensures { Gives (λ x. string_bytes x) result (clean.new_sort (scope live.now) name.now) }
{
    let name = text(alloc, name)?;
    let of = sort_named(alloc, &name)?;
    if knows_sort(live.sorts, &of) {
        Err(CommandFault::Name)
    } else {
        Ok(name)
    }
}

/// The symbol of a name that isn't declared, and is no word of terms.
pub fn new_symbol(alloc: Global, live: &Live<'_, '_>, name: &[u8]) -> Result<Symbol, CommandFault>
    ensures { Gives (λ f. symbol f) result (clean.new_symbol (scope live.now) name.now) }
{
    let name = text(alloc, name)?;
    let of = symbol_named(alloc, &name)?;
    match term_word(name.as_bytes()) {
        Word::Name => match declared_as(live.symbols, &of) {
            None => Ok(of),
            Some(_) => Err(CommandFault::Name),
        },
        Word::Truth(_) | Word::Not | Word::Ite | Word::Minus | Word::Slash | Word::Operator(_) => {
            Err(CommandFault::Name)
        }
    }
}
