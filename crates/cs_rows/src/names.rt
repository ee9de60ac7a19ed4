//! Symbols and sorts by their words.

use std::alloc::{AllocError, Global};
use std::rc::Rc;
use vx_smt_meaning::Declared;
use vx_table::Text;
use vx_terms::{Operator, Sort, Symbol};

fn sort_of(alloc: Global, word: &str) -> Result<Sort, AllocError> {
    match word {
        "Int" => Ok(Sort::Int),
        "Bool" => Ok(Sort::Bool),
        "Real" => Ok(Sort::Real),
        "Ref" => Ok(Sort::Ref),
        "Snap" => Ok(Sort::Snap),
        _ => {
            let name = String::from_str(alloc, word)?;
            Ok(Sort::Other(Rc::new(alloc, name)?))
        }
    }
}

// `v`, `f` or `s` and a number; None: it is another name.
fn numbered_symbol(word: &str) -> Option<Symbol> {
    if let Some(digits) = word.strip_prefix('v') {
        return digits.parse().ok().map(Symbol::Variable);
    }
    if let Some(digits) = word.strip_prefix('f') {
        return digits.parse().ok().map(Symbol::Function);
    }
    let digits = word.strip_prefix('s')?;
    digits.parse().ok().map(Symbol::Standard)
}

fn symbol_of(alloc: Global, word: &str) -> Result<Symbol, AllocError> {
    match numbered_symbol(word) {
        Some(symbol) => Ok(symbol),
        None => {
            let name = String::from_str(alloc, word)?;
            Ok(Symbol::Named(Rc::new(alloc, name)?))
        }
    }
}

/// A symbol, the sorts that it takes, and behind them the one that it gives; None: there is no sort.
///
/// # Errors
/// Want of memory.
pub fn declared_of(alloc: Global, text: &str) -> Result<Option<Declared>, AllocError> {
    let Some((name, rest)) = text.split_once(' ') else {
        return Ok(None);
    };
    let mut takes = Vec::new(alloc);
    for word in rest.split_whitespace() {
        takes.push(sort_of(alloc, word)?)?;
    }
    let Some(gives) = takes.pop() else {
        return Ok(None);
    };
    let symbol = symbol_of(alloc, name)?;
    Ok(Some(Declared {
        symbol,
        takes,
        gives,
    }))
}

/// A symbol's word.
pub fn put_symbol(text: &mut Text, of: &Symbol) {
    match of {
        Symbol::Standard(number) => {
            text.put("s");
            text.natural(u128::from(*number));
        }
        Symbol::Function(number) => {
            text.put("f");
            text.natural(u128::from(*number));
        }
        Symbol::Variable(number) => {
            text.put("v");
            text.natural(u128::from(*number));
        }
        Symbol::Named(name) => text.put(name.as_str()),
    }
}

/// A sort's word.
pub fn sort_text(of: &Sort) -> &str {
    match of {
        Sort::Int => "Int",
        Sort::Bool => "Bool",
        Sort::Real => "Real",
        Sort::Ref => "Ref",
        Sort::Snap => "Snap",
        Sort::Other(name) => name.as_str(),
    }
}

/// An operator's word.
pub fn operator_text(of: Operator) -> &'static str {
    match of {
        Operator::And => "and",
        Operator::Or => "or",
        Operator::Implies => "=>",
        Operator::Equal => "=",
        Operator::Less => "<",
        Operator::LessEqual => "<=",
        Operator::Add => "+",
        Operator::Subtract => "-",
        Operator::Multiply => "*",
        Operator::Div => "div",
        Operator::Mod => "mod",
    }
}
