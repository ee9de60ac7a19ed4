//! What the tokens of a certificate stand for.
ghost use Rattle.std.specs.Prelude.{◌≡◌, ◌<◌, ◌^◌, IfSome};
ghost use Rattle.cs_reader.specs.Marks.{with_digit, digits, numeral, literal, step_name, name, symbol, atom, mark, IsSmall};
ghost use Rattle.std.specs.Str.{bytes_eq};

use crate::Literal;
use vx_sexp::{Kind, Token};

/// A word of the written form.
#[derive(Clone, Copy)]
pub enum Name {
    Certificate,
    Input,
    Term,
    Define,
    Pick,
    Chain,
    Congruence,
    Farkas,
    Split,
    Trichotomy,
    Divide,
    Propagate,
    Minus,
    Slash,
}

/// What a token stands for.
#[derive(Clone, Copy)]
pub enum Mark {
    Open,
    Close,
    Number(u128),
    Literal(Literal),
    Name(Name),
    /// A numeral above 2^127 - 1.
    Wide,
    Other,
}

/// A number with a further digit, where it stays below 2^127.
#[tactic(auto, unfolding(vx_sexp::specs::Characters::is_digit))]
fn with_digit(value: u128, digit: u8) -> Option<u128>
    ensures value { result ≡ with_digit value digit }
    ensures small { IfSome result (λ n. n < 2 ^ 127) }
{
    if digit < b'0' || digit > b'9' {
        return None;
    }
    let next = value
        .checked_mul(10)?
        .checked_add(u128::from(digit - b'0'))?;
    if next < 1 << 127 { Some(next) } else { None }
}

fn digits_of(text: &[u8]) -> Option<u128>
    ensures value { result ≡ digits 0 text.now }
    ensures small { IfSome result (λ n. n < 2 ^ 127) }
{
    let mut value = 0u128;
    for digit in text {
        value = with_digit(value, *digit)?;
    }
    Some(value)
}

/// The numeral below 2^127 that is spelled so.
pub fn numeral_of(text: &[u8]) -> Option<u128>
    ensures value { result ≡ numeral text.now }
    ensures small { IfSome result (λ n. n < 2 ^ 127) }
{
    let first = text.first()?;
    if *first == b'0' && text.len() > 1 {
        return None;
    }
    digits_of(text)
}

/// A literal: p or n and the number of its term.
fn literal_of(text: &[u8]) -> Option<Literal>
    ensures { result ≡ literal text.now }
{
    let (first, rest) = text.split_first()?;
    if *first == b'p' {
        let number = numeral_of(rest)?;
        return Some(Literal {
            positive: true,
            number,
        });
    }
    if *first == b'n' {
        let number = numeral_of(rest)?;
        return Some(Literal {
            positive: false,
            number,
        });
    }
    None
}

fn is_word(text: &[u8], word: &str) -> bool
    ensures { result ≡ bytes_eq text.now word.now }
{
    text == word.as_bytes()
}

/// The words of steps.
fn step_name(text: &[u8]) -> Option<Name>
    ensures { result ≡ step_name text.now }
{
    if is_word(text, "input") {
        return Some(Name::Input);
    }
    if is_word(text, "term") {
        return Some(Name::Term);
    }
    if is_word(text, "def") {
        return Some(Name::Define);
    }
    if is_word(text, "pick") {
        return Some(Name::Pick);
    }
    if is_word(text, "chain") {
        return Some(Name::Chain);
    }
    if is_word(text, "cong") {
        return Some(Name::Congruence);
    }
    if is_word(text, "farkas") {
        return Some(Name::Farkas);
    }
    if is_word(text, "split") {
        return Some(Name::Split);
    }
    if is_word(text, "tri") {
        return Some(Name::Trichotomy);
    }
    if is_word(text, "div") {
        return Some(Name::Divide);
    }
    if is_word(text, "rup") {
        return Some(Name::Propagate);
    }
    None
}

/// The words of the written form.
fn name_of(text: &[u8]) -> Option<Name>
    ensures { result ≡ name text.now }
{
    if is_word(text, "certificate") {
        return Some(Name::Certificate);
    }
    if is_word(text, "-") {
        return Some(Name::Minus);
    }
    if is_word(text, "/") {
        return Some(Name::Slash);
    }
    step_name(text)
}

/// What the token stands for.
pub fn mark_of(token: &Token) -> Mark
    ensures value { result ≡ mark token.now }
    ensures small { IsSmall result }
{
    match token {
        Token::Open => Mark::Open,
        Token::Close => Mark::Close,
        Token::Atom(kind, text) => atom_of(*kind, text.as_slice()),
    }
}

fn atom_of(kind: Kind, text: &[u8]) -> Mark
    ensures value { result ≡ atom kind text.now }
    ensures small { IsSmall result }
{
    match kind {
        Kind::Numeral => match numeral_of(text) {
            Some(number) => Mark::Number(number),
            None => Mark::Wide,
        },
        Kind::Symbol => symbol_of(text),
        Kind::Decimal
        | Kind::Hexadecimal
        | Kind::Binary
        | Kind::Keyword
        | Kind::Quoted
        | Kind::Text => Mark::Other,
    }
}

fn symbol_of(text: &[u8]) -> Mark
    ensures value { result ≡ symbol text.now }
    ensures small { IsSmall result }
{
    match name_of(text) {
        Some(name) => Mark::Name(name),
        None => match literal_of(text) {
            Some(literal) => Mark::Literal(literal),
            None => Mark::Other,
        },
    }
}
