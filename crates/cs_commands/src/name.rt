//! The symbols and sorts that words name.
ghost use Rattle.std.specs.Prelude.{◌≡◌, IfOk, string_bytes};
ghost use Rattle.vx_terms.specs.Sorts.{Named};
ghost use Rattle.vx_terms.specs.Views.{sort, symbol};
ghost use Rattle.cs_commands.specs.Outcomes.{Gives};
ghost use Rattle.cs_commands.specs.Names as clean;

use crate::fault::CommandFault;
use crate::number::number_below;
use std::alloc::{AllocError, Global};
use std::rc::Rc;
use vx_terms::{Sort, Symbol};

/// The bytes as text.
#[tactic(auto, using(crate::proofs::Texts::in_utf8, crate::proofs::Texts::not_utf8))]
pub fn text(alloc: Global, bytes: &[u8]) -> Result<String, CommandFault>
    ensures { Gives (λ t. string_bytes t) result (clean.text bytes.now) }
{
    match str::from_utf8(bytes) {
        Ok(text) => Ok(String::from_str(alloc, text)?),
        Err(_) => Err(CommandFault::Name),
    }
}

fn named(alloc: Global, text: &str) -> Result<Symbol, AllocError>
    ensures { IfOk result (λ f. symbol f ≡ Named text.now) }
{
    let name = String::from_str(alloc, text)?;
    Ok(Symbol::Named(Rc::new(alloc, name)?))
}

/// The symbol of a name: of a letter and its number, or of this name.
pub fn symbol_named(alloc: Global, text: &str) -> Result<Symbol, AllocError>
    ensures { IfOk result (λ f. symbol f ≡ clean.symbol_named text.now) }
{
    let Some((letter, rest)) = text.as_bytes().split_first() else {
        return named(alloc, text);
    };
    match *letter {
        b's' => match number_below(1 << 32, rest) {
            Some(number) => Ok(Symbol::Standard(number as u32)),
            None => named(alloc, text),
        },
        b'f' => match number_below(1 << 32, rest) {
            Some(number) => Ok(Symbol::Function(number as u32)),
            None => named(alloc, text),
        },
        b'v' => match number_below(1 << 64, rest) {
            Some(number) => Ok(Symbol::Variable(number as u64)),
            None => named(alloc, text),
        },
        _ => named(alloc, text),
    }
}

/// The sort of a name.
pub fn sort_named(alloc: Global, text: &str) -> Result<Sort, AllocError>
    ensures { IfOk result (λ a. sort a ≡ clean.sort_named text.now) }
{
    if text == "Int" {
        return Ok(Sort::Int);
    }
    if text == "Bool" {
        return Ok(Sort::Bool);
    }
    if text == "Real" {
        return Ok(Sort::Real);
    }
    if text == "Ref" {
        return Ok(Sort::Ref);
    }
    if text == "Snap" {
        return Ok(Sort::Snap);
    }
    let name = String::from_str(alloc, text)?;
    Ok(Sort::Other(Rc::new(alloc, name)?))
}
