//! Terms read from their tokens.
ghost use Rattle.std.specs.Prelude.{◌≡◌, map, IfOk};
ghost use Rattle.std.specs.Option.{option_map};
ghost use Rattle.vx_frac.specs.Fraction.{fraction};
ghost use Rattle.vx_terms.specs.Terms.{Binary};
ghost use Rattle.vx_terms.specs.Views.{operator, sort, symbol, term, terms};
ghost use Rattle.vx_smt_meaning.specs.Views.{declared_symbol};
ghost use Rattle.cs_reader.specs.Items.{Gives};
ghost use Rattle.cs_index.specs.Found.{first, passes_at};
ghost use Rattle.cs_reader.specs.Live.{declared_in};
ghost use Rattle.cs_reader.specs.Spelling.{spelled_by};
ghost use Rattle.cs_reader.specs.Spelling as clean;
ghost use Rattle.cs_reader.specs.Views.{scope};

use crate::decimal::{decimal_of, inverse_of, multiplied};
use crate::key::word_key;
use crate::mark::numeral_of;
use crate::stop::Stop;
use crate::symbols::Symbols;
use crate::word::{Word, is_spelled, word_of};
use std::alloc::{AllocError, Global};
use std::rc::Rc;
use vx_frac::Frac;
use vx_sexp::{Kind, Token};
use vx_smt_meaning::Declared;
use vx_terms::{Operator, Sort, Symbol, Term, Terms};

/// What words name.
#[derive(Clone, Copy)]
pub enum Scope<'s, 'd> {
    /// Each names a symbol: which one is not looked at.
    Any,
    /// They name these symbols.
    Among(&'s Symbols<'d>),
}

/// Whether the symbol at this place is spelled so.
fn is_at(symbols: &[Declared], at: u32, text: &[u8]) -> bool
    ensures { result ≡ passes_at (spelled_by text.now) (map declared_symbol symbols.now) at }
{
    match symbols.get(at as usize) {
        Some(declared) => is_spelled(text, &declared.symbol),
        None => false,
    }
}

/// The place of the first of the symbols that is spelled so.
#[tactic(auto, using(crate::proofs::Among::looked_up))]
fn place_of(symbols: &Symbols<'_>, text: &[u8]) -> Option<u32>
    ensures { result ≡ first (spelled_by text.now) (declared_in symbols.now) }
{
    for at in symbols.under(word_key(text)) {
        if is_at(symbols.declared, *at, text) {
            return Some(*at);
        }
    }
    None
}

/// What stands at a place.
fn at_place(symbols: &[Declared], at: u32) -> Result<(Symbol, Sort), Stop>
    ensures { Gives (λ d. (symbol d.0, sort d.1)) result (clean.meaning_at (map declared_symbol symbols.now) at) }
{
    match symbols.get(at as usize) {
        Some(declared) => {
            let of = declared.symbol.copy()?;
            let gives = declared.gives.copy()?;
            Ok((of, gives))
        }
        None => Err(Stop::Form),
    }
}

/// The first of the symbols that is spelled so, and the sort of its value.
fn among(symbols: &Symbols<'_>, text: &[u8]) -> Result<(Symbol, Sort), Stop>
    ensures { Gives (λ d. (symbol d.0, sort d.1)) result (clean.among (declared_in symbols.now) text.now) }
{
    match place_of(symbols, text) {
        Some(at) => at_place(symbols.declared, at),
        None => Err(Stop::Form),
    }
}

/// What a word names.
fn named(within: &Scope<'_, '_>, text: &[u8]) -> Result<(Symbol, Sort), Stop>
    ensures { Gives (λ d. (symbol d.0, sort d.1)) result (scope within.now text.now) }
{
    match within {
        Scope::Any => Ok((Symbol::Standard(0), Sort::Int)),
        Scope::Among(symbols) => among(symbols, text),
    }
}

/// A word alone.
fn alone(alloc: Global, within: &Scope<'_, '_>, text: &[u8]) -> Result<Rc<Term>, Stop>
    ensures { Gives (λ t. term t.value) result (clean.alone (scope within.now) text.now (clean.word text.now)) }
{
    match word_of(text) {
        Word::Truth(holds) => Ok(Rc::new(alloc, Term::Truth(holds))?),
        Word::Name => {
            let (of, gives) = named(within, text)?;
            Ok(Rc::new(alloc, Term::Constant(of, gives))?)
        }
        Word::Not | Word::Ite | Word::Minus | Word::Slash | Word::Operator(_) => Err(Stop::Form),
    }
}

/// The atom of this kind.
fn leaf_of(alloc: Global, within: &Scope<'_, '_>, kind: Kind, text: &[u8]) -> Result<Rc<Term>, Stop>
    ensures { Gives (λ t. term t.value) result (clean.leaf_of (scope within.now) kind text.now) }
{
    match kind {
        Kind::Numeral => match numeral_of(text) {
            Some(number) => Ok(Rc::new(alloc, Term::Number(number as i128))?),
            None => Err(Stop::Form),
        },
        Kind::Decimal => match decimal_of(text) {
            Some(part) => Ok(Rc::new(alloc, Term::Part(part))?),
            None => Err(Stop::Form),
        },
        Kind::Symbol => alone(alloc, within, text),
        Kind::Hexadecimal | Kind::Binary | Kind::Keyword | Kind::Quoted | Kind::Text => {
            Err(Stop::Form)
        }
    }
}

/// A term of one token.
fn leaf(alloc: Global, within: &Scope<'_, '_>, token: &Token) -> Result<Rc<Term>, Stop>
    ensures { Gives (λ t. term t.value) result (clean.leaf (scope within.now) token.now) }
{
    match token {
        Token::Atom(kind, text) => leaf_of(alloc, within, *kind, text.as_slice()),
        Token::Open | Token::Close => Err(Stop::Form),
    }
}

/// What stands behind a minus, below 0.
fn negative(alloc: Global, of: &Term) -> Result<Rc<Term>, Stop>
    ensures { Gives (λ t. term t.value) result (clean.negative (term of.now)) }
{
    match of {
        Term::Number(number) => {
            if *number < 0 {
                return Err(Stop::Form);
            }
            Ok(Rc::new(alloc, Term::Number(-*number))?)
        }
        Term::Part(part) => {
            if part.num() < 0 {
                return Err(Stop::Form);
            }
            Ok(Rc::new(alloc, Term::Part(Frac::new(-part.num(), part.den())))?)
        }
        Term::Truth(_)
        | Term::Constant(_, _)
        | Term::Apply(_, _, _)
        | Term::Not(_)
        | Term::Binary(_, _, _)
        | Term::Ite(_, _, _)
        | Term::AllOf(_)
        | Term::SomeOf(_) => Err(Stop::Form),
    }
}

fn quotient_of(alloc: Global, a: Frac, b: Frac) -> Result<Rc<Term>, Stop>
    ensures { Gives (λ t. term t.value) result (clean.quotient_of (fraction a) (fraction b)) }
{
    let Some(inverse) = inverse_of(b) else {
        return Err(Stop::Form);
    };
    match multiplied(a, inverse) {
        Some(quotient) => Ok(Rc::new(alloc, Term::Part(quotient))?),
        None => Err(Stop::Form),
    }
}

/// The quotient of two literals.
fn quotient(alloc: Global, t: &Term, u: &Term) -> Result<Rc<Term>, Stop>
    ensures { Gives (λ t. term t.value) result (clean.quotient (term t.now) (term u.now)) }
{
    match (t, u) {
        (Term::Part(a), Term::Part(b)) => quotient_of(alloc, *a, *b),
        _ => Err(Stop::Form),
    }
}

fn of_one(alloc: Global, word: Word, t: &Rc<Term>) -> Result<Rc<Term>, Stop>
    ensures { Gives (λ t. term t.value) result (clean.of_one word (term t.now.value)) }
{
    match word {
        Word::Not => Ok(Rc::new(alloc, Term::Not(t.clone()?))?),
        Word::Minus => negative(alloc, t),
        Word::Truth(_) | Word::Ite | Word::Slash | Word::Operator(_) | Word::Name => {
            Err(Stop::Form)
        }
    }
}

fn binary(alloc: Global, of: Operator, t: &Rc<Term>, u: &Rc<Term>) -> Result<Rc<Term>, AllocError>
    ensures { IfOk result (λ r. term r.value ≡ Binary (operator of) (term t.now.value) (term u.now.value)) }
{
    Ok(Rc::new(alloc, Term::Binary(of, t.clone()?, u.clone()?))?)
}

fn of_two(alloc: Global, word: Word, t: &Rc<Term>, u: &Rc<Term>) -> Result<Rc<Term>, Stop>
    ensures { Gives (λ t. term t.value) result (clean.of_two word (term t.now.value) (term u.now.value)) }
{
    match word {
        Word::Operator(of) => Ok(binary(alloc, of, t, u)?),
        Word::Minus => Ok(binary(alloc, Operator::Subtract, t, u)?),
        Word::Slash => quotient(alloc, t, u),
        Word::Truth(_) | Word::Not | Word::Ite | Word::Name => Err(Stop::Form),
    }
}

/// The terms as a list.
#[tactic(auto, using(crate::proofs::Lists::listed_last, crate::proofs::Lists::onto_none))]
fn listed(alloc: Global, parts: &[Rc<Term>]) -> Result<Rc<Terms>, AllocError>
    ensures { IfOk result (λ ts. terms ts.value ≡ clean.listed (map (λ x. term x.value) parts.now)) }
{
    let mut all = Rc::new(alloc, Terms::None)?;
    let mut rest = parts;
    while let Some((last, front)) = rest.split_last() {
        all = Rc::new(alloc, Terms::More(last.clone()?, all))?;
        rest = front;
    }
    Ok(all)
}

fn choice(alloc: Global, parts: &[Rc<Term>]) -> Result<Rc<Term>, Stop>
    ensures { Gives (λ t. term t.value) result (clean.choice (map (λ x. term x.value) parts.now)) }
{
    match parts {
        [c, t, u] => Ok(Rc::new(alloc, Term::Ite(c.clone()?, t.clone()?, u.clone()?))?),
        _ => Err(Stop::Form),
    }
}

/// A word before three parts or more.
fn of_more(alloc: Global, word: Word, parts: &[Rc<Term>]) -> Result<Rc<Term>, Stop>
    ensures { Gives (λ t. term t.value) result (clean.of_more word (map (λ x. term x.value) parts.now)) }
{
    match word {
        Word::Ite => choice(alloc, parts),
        Word::Operator(Operator::And) => Ok(Rc::new(alloc, Term::AllOf(listed(alloc, parts)?))?),
        Word::Operator(Operator::Or) => Ok(Rc::new(alloc, Term::SomeOf(listed(alloc, parts)?))?),
        Word::Operator(
            Operator::Implies
            | Operator::Equal
            | Operator::Less
            | Operator::LessEqual
            | Operator::Add
            | Operator::Subtract
            | Operator::Multiply
            | Operator::Div
            | Operator::Mod,
        )
        | Word::Truth(_)
        | Word::Not
        | Word::Minus
        | Word::Slash
        | Word::Name => Err(Stop::Form),
    }
}

fn built(alloc: Global, word: Word, parts: &[Rc<Term>]) -> Result<Rc<Term>, Stop>
    ensures { Gives (λ t. term t.value) result (clean.built word (map (λ x. term x.value) parts.now)) }
{
    match parts {
        [] => Err(Stop::Form),
        [t] => of_one(alloc, word, t),
        [t, u] => of_two(alloc, word, t, u),
        [_, _, _, ..] => of_more(alloc, word, parts),
    }
}

/// A symbol before its arguments.
fn applied(
    alloc: Global,
    within: &Scope<'_, '_>,
    text: &[u8],
    parts: &[Rc<Term>],
) -> Result<Rc<Term>, Stop>
    ensures { Gives (λ t. term t.value) result (clean.applied (scope within.now text.now) (map (λ x. term x.value) parts.now)) }
{
    let (of, gives) = named(within, text)?;
    if parts.is_empty() {
        return Err(Stop::Form);
    }
    Ok(Rc::new(alloc, Term::Apply(of, gives, listed(alloc, parts)?))?)
}

/// A word before its parts.
fn made(
    alloc: Global,
    within: &Scope<'_, '_>,
    text: &[u8],
    parts: &[Rc<Term>],
) -> Result<Rc<Term>, Stop>
    ensures { Gives (λ t. term t.value) result (clean.made (scope within.now) text.now (clean.word text.now) (map (λ x. term x.value) parts.now)) }
{
    let word = word_of(text);
    match word {
        Word::Name => applied(alloc, within, text, parts),
        Word::Truth(_) | Word::Not | Word::Ite | Word::Minus | Word::Slash | Word::Operator(_) =>
            built(alloc, word, parts),
    }
}

fn symbol_in(token: &Token) -> Result<&[u8], Stop>
    ensures { Gives (λ text. text.now) result (clean.symbol_in token.now) }
{
    match token {
        Token::Atom(Kind::Symbol, text) => Ok(text.as_slice()),
        Token::Atom(
            Kind::Numeral
            | Kind::Decimal
            | Kind::Hexadecimal
            | Kind::Binary
            | Kind::Keyword
            | Kind::Quoted
            | Kind::Text,
            _,
        )
        | Token::Open
        | Token::Close => Err(Stop::Form),
    }
}

/// A term, or the closing parenthesis behind the last one.
#[cycle(spelling)]
fn part_or_end<'t>(
    alloc: Global,
    within: &Scope<'_, '_>,
    room: usize,
    tokens: &'t [Token],
) -> Result<(Option<Rc<Term>>, &'t [Token]), Stop>
    ensures { Gives (λ x. (option_map (λ t. term t.value) x.0, x.1.now)) result (clean.part_at (clean.spelled_at (scope within.now) room) tokens.now) }
{
    match tokens.split_first() {
        None => Err(Stop::Form),
        Some((Token::Close, rest)) => Ok((None, rest)),
        Some((Token::Open | Token::Atom(_, _), _)) => {
            let (t, rest) = spelled_at(alloc, within, room, tokens)?;
            Ok((Some(t), rest))
        }
    }
}

/// The terms to the closing parenthesis, of which there are no more than tokens.
#[cycle(spelling)]
fn parts<'t>(
    alloc: Global,
    within: &Scope<'_, '_>,
    room: usize,
    tokens: &'t [Token],
) -> Result<(Vec<Rc<Term>>, &'t [Token]), Stop>
    ensures { Gives (λ x. (map (λ t. term t.value) x.0.items, x.1.now)) result (clean.parts_at (clean.spelled_at (scope within.now) room) tokens.now) }
{
    let mut found = Vec::new(alloc);
    let mut rest = tokens;
    for count in 0..tokens.len() {
        match part_or_end(alloc, within, room, rest) {
            Ok((part, behind)) => match part {
                Some(part) => {
                    found.push(part)?;
                    rest = behind;
                }
                None => return Ok((found, behind)),
            },
            Err(stop) => return Err(stop),
        }
    }
    Err(Stop::Form)
}

/// What stands behind an opening parenthesis.
#[cycle(spelling)]
fn listed_at<'t>(
    alloc: Global,
    within: &Scope<'_, '_>,
    room: usize,
    tokens: &'t [Token],
) -> Result<(Rc<Term>, &'t [Token]), Stop>
    ensures { Gives (λ x. (term x.0.value, x.1.now)) result (clean.listed_at (scope within.now) (clean.spelled_at (scope within.now) room) tokens.now) }
{
    let Some((first, rest)) = tokens.split_first() else {
        return Err(Stop::Form);
    };
    let text = symbol_in(first)?;
    let (parts, rest) = parts(alloc, within, room, rest)?;
    let t = made(alloc, within, text, &parts)?;
    Ok((t, rest))
}

/// A term of at most so many lists within one another, and the tokens behind it.
#[cycle(spelling)]
fn spelled_at<'t>(
    alloc: Global,
    within: &Scope<'_, '_>,
    room: usize,
    tokens: &'t [Token],
) -> Result<(Rc<Term>, &'t [Token]), Stop>
    ensures { Gives (λ x. (term x.0.value, x.1.now)) result (clean.spelled_at (scope within.now) room tokens.now) }
{
    if room == 0 {
        return Err(Stop::Form);
    }
    match tokens.split_first() {
        None => Err(Stop::Form),
        Some((Token::Open, rest)) => listed_at(alloc, within, room - 1, rest),
        Some((first, rest)) => {
            let t = leaf(alloc, within, first)?;
            Ok((t, rest))
        }
    }
}

/// The term that all the tokens spell.
///
/// # Errors
/// `Form` where they spell none, `Want` where memory runs out.
pub fn spelled(alloc: Global, within: &Scope<'_, '_>, tokens: &[Token]) -> Result<Rc<Term>, Stop>
    ensures { Gives (λ t. term t.value) result (clean.spelled (scope within.now) tokens.now) }
{
    let (t, rest) = spelled_at(alloc, within, tokens.len(), tokens)?;
    if rest.is_empty() {
        Ok(t)
    } else {
        Err(Stop::Form)
    }
}
