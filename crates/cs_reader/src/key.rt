//! Keys of symbols, by their words.
ghost use Rattle.std.specs.Prelude.{◌≡◌};
ghost use Rattle.vx_terms.specs.Views.{symbol};
ghost use Rattle.cs_reader.specs.Keys.{lettered_key, word_key, symbol_key};

use crate::mark::numeral_of;
use cs_index::{mix, mix_bytes, mix_wide};
use vx_terms::Symbol;

fn lettered_key(letter: u8, rest: &[u8], number: Option<u128>) -> u64
    ensures { result ≡ lettered_key letter rest.now number }
{
    match number {
        Some(number) => mix_wide(u64::from(letter), number),
        None => mix_bytes(u64::from(letter), rest),
    }
}

/// The key of a word.
pub fn word_key(text: &[u8]) -> u64
    ensures { result ≡ word_key text.now }
{
    match text.split_first() {
        Some((letter, rest)) => lettered_key(*letter, rest, numeral_of(rest)),
        None => 0,
    }
}

/// The key of a symbol, which is that of its word.
pub fn symbol_key(of: &Symbol) -> u64
    ensures { result ≡ symbol_key (symbol of.now) }
{
    match of {
        Symbol::Standard(number) => mix(115, u64::from(*number)),
        Symbol::Function(number) => mix(102, u64::from(*number)),
        Symbol::Variable(number) => mix(118, *number),
        Symbol::Named(name) => word_key(name.as_bytes()),
    }
}
