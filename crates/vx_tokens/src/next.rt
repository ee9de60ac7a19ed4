//! What stands in front of a text.

ghost use Rattle.std.specs.Prelude.{◌≡◌, ◌==◌, ℕ, List, ◌∷◌, drop, ◌≤◌, ◌<◌, ◌^◌, ◌+◌, ◌*◌, ◌-◌, length, take, Some, MatchOption, IfSome};
ghost use Rattle.std.specs.List.{prefix_len, starts_with};
ghost use Rattle.std.specs.Cmp.Lexicographic.{pointwise};
ghost use Rattle.vx_tokens.specs.Text.{is_blank, is_letter, is_digit, is_word, is_inside_line, AreAll, word_kind, word_among, reserved, value_of, value_from, close_len, sign_text, max_numeral, member_words, statement_words, expression_words, foreign_words};
ghost use Rattle.vx_tokens.specs.Scanning.{sign_in, all_signs, next, slash_next};
ghost use Rattle.vx_tokens.specs.Tokens.{kind_of};
ghost use Rattle.vx_tokens.specs.Views.{next_of};

use crate::token::{Kind, Symbol, Word};
use std::str;

/// What stands in front, with its length in bytes.
pub enum Next<'t> {
    Finish,
    Pass(usize),
    Found(Kind<'t>, usize),
    Wide(usize),
    Unclosed,
    Bad,
}

const MAX_NUMERAL: u128 = 170141183460469231731687303715884105727;

fn is_blank(byte: u8) -> bool
    ensures { result ≡ is_blank byte }
{
    byte == b' ' || byte == b'\t' || byte == b'\r' || byte == b'\n'
}

fn is_digit(byte: u8) -> bool
    ensures { result ≡ is_digit byte }
{
    b'0' <= byte && byte <= b'9'
}

fn is_letter(byte: u8) -> bool
    ensures { result ≡ is_letter byte }
{
    (b'A' <= byte && byte <= b'Z') || (b'a' <= byte && byte <= b'z') || byte == b'_' || byte == b'$'
}

fn is_word(byte: u8) -> bool
    ensures { result ≡ is_word byte }
{
    is_letter(byte) || is_digit(byte)
}

fn word_len(bytes: &[u8]) -> usize
    ensures { result ≡ prefix_len is_word bytes.now }
{
    bytes.iter().take_while(|b| is_word(**b)).count()
}

fn digits_len(bytes: &[u8]) -> usize
    ensures { result ≡ prefix_len is_digit bytes.now }
{
    bytes.iter().take_while(|b| is_digit(**b)).count()
}

#[tactic(auto, using(crate::proofs::Digits::prefix_fits))]
fn line_len(bytes: &[u8]) -> usize
    ensures fits { result ≤ length bytes.now }
    ensures value { result ≡ prefix_len is_inside_line bytes.now }
{
    bytes.iter().take_while(|b| **b != b'\n').count()
}

// The reserved word that a text is, or else a name.
fn word_kind(text: &[u8]) -> Kind<'_>
    requires { AreAll is_word text.now }
    ensures { kind_of result ≡ word_kind text.now }
{
    if let Some(word) = reserved(text) {
        return Kind::Word(word);
    }
    match str::from_utf8(text) {
        Ok(name) => Kind::Name(name),
        Err(_) => unreachable!(),
    }
}

fn reserved(text: &[u8]) -> Option<Word>
    ensures { result ≡ reserved text.now }
{
    if let Some(word) = member_word(text) {
        return Some(word);
    }
    if let Some(word) = statement_word(text) {
        return Some(word);
    }
    if let Some(word) = expression_word(text) {
        return Some(word);
    }
    foreign_word(text)
}

// Whether a text is this word.
fn is_text(text: &[u8], word: &[u8]) -> bool
    ensures { result ≡ pointwise ◌==◌ text.now word.now }
{
    text == word
}

fn member_word(text: &[u8]) -> Option<Word>
    ensures { result ≡ word_among member_words text.now }
{
    if is_text(text, b"method") {
        return Some(Word::Method);
    }
    if is_text(text, b"field") {
        return Some(Word::Field);
    }
    if is_text(text, b"predicate") {
        return Some(Word::Predicate);
    }
    if is_text(text, b"function") {
        return Some(Word::Function);
    }
    if is_text(text, b"returns") {
        return Some(Word::Returns);
    }
    if is_text(text, b"requires") {
        return Some(Word::Requires);
    }
    if is_text(text, b"ensures") {
        return Some(Word::Ensures);
    }
    if is_text(text, b"decreases") {
        return Some(Word::Decreases);
    }
    if is_text(text, b"Int") {
        return Some(Word::Int);
    }
    if is_text(text, b"Bool") {
        return Some(Word::Bool);
    }
    if is_text(text, b"Ref") {
        return Some(Word::Ref);
    }
    if is_text(text, b"Perm") {
        return Some(Word::Perm);
    }
    None
}

fn statement_word(text: &[u8]) -> Option<Word>
    ensures { result ≡ word_among statement_words text.now }
{
    if is_text(text, b"var") {
        return Some(Word::Var);
    }
    if is_text(text, b"if") {
        return Some(Word::If);
    }
    if is_text(text, b"elseif") {
        return Some(Word::Elseif);
    }
    if is_text(text, b"else") {
        return Some(Word::Else);
    }
    if is_text(text, b"while") {
        return Some(Word::While);
    }
    if is_text(text, b"invariant") {
        return Some(Word::Invariant);
    }
    if is_text(text, b"inhale") {
        return Some(Word::Inhale);
    }
    if is_text(text, b"exhale") {
        return Some(Word::Exhale);
    }
    if is_text(text, b"assert") {
        return Some(Word::Assert);
    }
    if is_text(text, b"assume") {
        return Some(Word::Assume);
    }
    if is_text(text, b"fold") {
        return Some(Word::Fold);
    }
    if is_text(text, b"unfold") {
        return Some(Word::Unfold);
    }
    if is_text(text, b"new") {
        return Some(Word::New);
    }
    None
}

fn expression_word(text: &[u8]) -> Option<Word>
    ensures { result ≡ word_among expression_words text.now }
{
    if is_text(text, b"true") {
        return Some(Word::True);
    }
    if is_text(text, b"false") {
        return Some(Word::False);
    }
    if is_text(text, b"null") {
        return Some(Word::Null);
    }
    if is_text(text, b"write") {
        return Some(Word::Write);
    }
    if is_text(text, b"none") {
        return Some(Word::Nothing);
    }
    if is_text(text, b"result") {
        return Some(Word::Outcome);
    }
    if is_text(text, b"old") {
        return Some(Word::Old);
    }
    if is_text(text, b"acc") {
        return Some(Word::Acc);
    }
    if is_text(text, b"unfolding") {
        return Some(Word::Unfolding);
    }
    if is_text(text, b"in") {
        return Some(Word::In);
    }
    None
}

fn foreign_word(text: &[u8]) -> Option<Word>
    ensures { result ≡ word_among foreign_words text.now }
{
    if is_text(text, b"forall") {
        return Some(Word::Foreign);
    }
    if is_text(text, b"exists") {
        return Some(Word::Foreign);
    }
    if is_text(text, b"forperm") {
        return Some(Word::Foreign);
    }
    if is_text(text, b"perm") {
        return Some(Word::Foreign);
    }
    if is_text(text, b"package") {
        return Some(Word::Foreign);
    }
    if is_text(text, b"apply") {
        return Some(Word::Foreign);
    }
    if is_text(text, b"applying") {
        return Some(Word::Foreign);
    }
    if is_text(text, b"domain") {
        return Some(Word::Foreign);
    }
    if is_text(text, b"Seq") {
        return Some(Word::Foreign);
    }
    if is_text(text, b"Set") {
        return Some(Word::Foreign);
    }
    if is_text(text, b"Multiset") {
        return Some(Word::Foreign);
    }
    if is_text(text, b"Map") {
        return Some(Word::Foreign);
    }
    if is_text(text, b"epsilon") {
        return Some(Word::Foreign);
    }
    if is_text(text, b"wildcard") {
        return Some(Word::Foreign);
    }
    if is_text(text, b"goto") {
        return Some(Word::Foreign);
    }
    if is_text(text, b"label") {
        return Some(Word::Foreign);
    }
    if is_text(text, b"define") {
        return Some(Word::Foreign);
    }
    if is_text(text, b"import") {
        return Some(Word::Foreign);
    }
    if is_text(text, b"let") {
        return Some(Word::Foreign);
    }
    None
}

// Whether this sign stands in front.
fn begins(bytes: &[u8], sign: &[u8]) -> bool
    ensures { result ≡ starts_with ◌==◌ bytes.now sign.now }
{
    bytes.starts_with(sign)
}

fn sign_at(bytes: &[u8]) -> Option<Symbol>
    ensures { result ≡ sign_in all_signs bytes.now }
{
    match long_sign_at(bytes) {
        Some(sign) => Some(sign),
        None => short_sign_at(bytes),
    }
}

// The sign of two or three bytes in front.
fn long_sign_at(bytes: &[u8]) -> Option<Symbol>
    ensures { result ≡ sign_in (take 9 all_signs) bytes.now }
{
    if begins(bytes, b"==>") {
        return Some(Symbol::Implies);
    }
    if begins(bytes, b"--*") {
        return Some(Symbol::Wand);
    }
    if begins(bytes, b"==") {
        return Some(Symbol::Equal);
    }
    if begins(bytes, b"!=") {
        return Some(Symbol::NotEqual);
    }
    if begins(bytes, b"<=") {
        return Some(Symbol::LessEqual);
    }
    if begins(bytes, b">=") {
        return Some(Symbol::GreaterEqual);
    }
    if begins(bytes, b":=") {
        return Some(Symbol::Becomes);
    }
    if begins(bytes, b"&&") {
        return Some(Symbol::And);
    }
    if begins(bytes, b"||") {
        return Some(Symbol::Or);
    }
    None
}

// The sign of one byte in front.
fn short_sign_at(bytes: &[u8]) -> Option<Symbol>
    ensures { result ≡ sign_in (drop 9 all_signs) bytes.now }
{
    match bytes.split_first() {
        Some((first, _)) => short_sign(*first),
        None => None,
    }
}

// The sign that is this byte.
fn short_sign(first: u8) -> Option<Symbol>
    ensures { (rest : List ℕ) → result ≡ sign_in (drop 9 all_signs) (first ∷ rest) }
{
    match first {
        b'(' => Some(Symbol::Open),
        b')' => Some(Symbol::Close),
        b'{' => Some(Symbol::OpenBrace),
        b'}' => Some(Symbol::CloseBrace),
        b'[' => Some(Symbol::OpenBracket),
        b',' => Some(Symbol::Comma),
        b':' => Some(Symbol::Colon),
        b';' => Some(Symbol::Semicolon),
        b'?' => Some(Symbol::Question),
        b'!' => Some(Symbol::Not),
        b'<' => Some(Symbol::Less),
        b'>' => Some(Symbol::Greater),
        b'+' => Some(Symbol::Plus),
        b'-' => Some(Symbol::Minus),
        b'*' => Some(Symbol::Times),
        b'/' => Some(Symbol::Slash),
        b'\\' => Some(Symbol::Backslash),
        b'%' => Some(Symbol::Percent),
        b'.' => Some(Symbol::Dot),
        b'@' => Some(Symbol::At),
        _ => None,
    }
}

// The number that the digits spell, unless it is too wide.
fn value_of(digits: &[u8]) -> Option<u128>
    requires { AreAll is_digit digits.now }
    ensures { MatchOption result (max_numeral < value_of digits.now) (λ n. (n ≤ max_numeral) × (n ≡ value_of digits.now)) }
{
    let mut value: u128 = 0;
    for digit in digits {
        let digit = (*digit - b'0') as u128;
        if value > (MAX_NUMERAL - digit) / 10 {
            return None;
        }
        value = 10 * value + digit;
    }
    Some(value)
}

// How far the first `*/` reaches.
fn close_len(bytes: &[u8]) -> Option<usize>
    ensures fits { IfSome result (λ n. n ≤ length bytes.now) }
    ensures value { result ≡ close_len bytes.now }
{
    let mut at = 0;
    let mut rest = bytes;
    loop {
        match rest {
            [] => return None,
            [b'*', b'/', ..] => return Some(at + 2),
            [_, more @ ..] => {
                rest = more;
                at += 1;
            }
        }
    }
}

/// What stands in front of the bytes.
#[tactic(auto, using(crate::proofs::Digits::all_in_front), unfolding(crate::specs::Scanning::next, crate::specs::Scanning::word_next, crate::specs::Scanning::numeral_next))]
pub fn front(bytes: &[u8]) -> Next<'_>
    ensures { next_of result ≡ next bytes.now }
{
    let Some((first, rest)) = bytes.split_first() else {
        return Next::Finish;
    };
    if is_blank(*first) {
        return Next::Pass(1);
    }
    if is_letter(*first) {
        let len = word_len(bytes);
        return Next::Found(word_kind(&bytes[..len]), len);
    }
    if is_digit(*first) {
        let len = digits_len(bytes);
        return match value_of(&bytes[..len]) {
            Some(value) => Next::Found(Kind::Number(value), len),
            None => Next::Wide(len),
        };
    }
    if *first == b'/' {
        return slash_next(rest);
    }
    match sign_at(bytes) {
        Some(sign) => Next::Found(Kind::Symbol(sign), sign_len(sign)),
        None => Next::Bad,
    }
}

fn sign_len(sign: Symbol) -> usize
    ensures { result ≡ length (sign_text sign) }
{
    match sign {
        Symbol::Implies | Symbol::Wand => 3,
        Symbol::Equal
        | Symbol::NotEqual
        | Symbol::LessEqual
        | Symbol::GreaterEqual
        | Symbol::Becomes
        | Symbol::And
        | Symbol::Or => 2,
        _ => 1,
    }
}

// What begins with a slash, by what stands behind it.
fn slash_next(rest: &[u8]) -> Next<'_>
    ensures { next_of result ≡ slash_next rest.now }
{
    match rest.split_first() {
        Some((b'/', text)) => Next::Pass(2 + line_len(text)),
        Some((b'*', text)) => match close_len(text) {
            Some(len) => Next::Pass(2 + len),
            None => Next::Unclosed,
        },
        _ => Next::Found(Kind::Symbol(Symbol::Slash), 1),
    }
}
