//! The words of terms.
ghost use Rattle.std.specs.Prelude.{◌≡◌};
ghost use Rattle.std.specs.Str.{bytes_eq};
ghost use Rattle.vx_terms.specs.Sorts.{same_text};
ghost use Rattle.vx_terms.specs.Views.{symbol};
ghost use Rattle.cs_reader.specs.Spelling.{word, is_number, is_lettered, is_spelled};

use crate::mark::numeral_of;
use vx_terms::{Operator, Symbol};

/// What a word of a term is.
#[derive(Clone, Copy)]
pub enum Word {
    Truth(bool),
    Not,
    Ite,
    Minus,
    Slash,
    /// An operator of two parts other than the minus.
    Operator(Operator),
    /// Any other word, which may name a symbol.
    Name,
}

fn is_word(text: &[u8], word: &str) -> bool
    ensures { result ≡ bytes_eq text.now word.now }
{
    text == word.as_bytes()
}

/// What the word is.
pub fn word_of(text: &[u8]) -> Word
    ensures { result ≡ word text.now }
{
    if is_word(text, "true") {
        return Word::Truth(true);
    }
    if is_word(text, "false") {
        return Word::Truth(false);
    }
    if is_word(text, "not") {
        return Word::Not;
    }
    if is_word(text, "ite") {
        return Word::Ite;
    }
    if is_word(text, "-") {
        return Word::Minus;
    }
    if is_word(text, "/") {
        return Word::Slash;
    }
    if is_word(text, "and") {
        return Word::Operator(Operator::And);
    }
    if is_word(text, "or") {
        return Word::Operator(Operator::Or);
    }
    if is_word(text, "=>") {
        return Word::Operator(Operator::Implies);
    }
    if is_word(text, "=") {
        return Word::Operator(Operator::Equal);
    }
    if is_word(text, "<") {
        return Word::Operator(Operator::Less);
    }
    if is_word(text, "<=") {
        return Word::Operator(Operator::LessEqual);
    }
    if is_word(text, "+") {
        return Word::Operator(Operator::Add);
    }
    if is_word(text, "*") {
        return Word::Operator(Operator::Multiply);
    }
    if is_word(text, "div") {
        return Word::Operator(Operator::Div);
    }
    if is_word(text, "mod") {
        return Word::Operator(Operator::Mod);
    }
    Word::Name
}

fn is_number(number: u64, read: Option<u128>) -> bool
    ensures { result ≡ is_number number read }
{
    match read {
        Some(other) => other == u128::from(number),
        None => false,
    }
}

/// Whether the text is a letter and the numeral of a number.
fn is_lettered(letter: u8, number: u64, text: &[u8]) -> bool
    ensures { result ≡ is_lettered letter number text.now }
{
    match text.split_first() {
        Some((first, rest)) => {
            if *first == letter {
                is_number(number, numeral_of(rest))
            } else {
                false
            }
        }
        None => false,
    }
}

fn is_same_text(x: &[u8], y: &[u8]) -> bool
    ensures { result ≡ same_text x.now y.now }
{
    x == y
}

/// Whether the text is the word of a symbol.
pub fn is_spelled(text: &[u8], of: &Symbol) -> bool
    ensures { result ≡ is_spelled text.now (symbol of.now) }
{
    match of {
        Symbol::Standard(number) => is_lettered(b's', u64::from(*number), text),
        Symbol::Function(number) => is_lettered(b'f', u64::from(*number), text),
        Symbol::Variable(number) => is_lettered(b'v', *number, text),
        Symbol::Named(name) => is_same_text(text, name.as_bytes()),
    }
}
