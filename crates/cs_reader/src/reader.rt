//! Reads certificates.
ghost use Rattle.std.specs.Prelude.{◌≡◌, ◌+◌, ◌<◌, ◌≤◌, ◌^◌, length, map, IfOk, IfErr, IfSome};
ghost use Rattle.std.specs.Option.{option_map};
ghost use Rattle.cs_reader.specs.Marks.{IsSmall};
ghost use Rattle.vx_frac.specs.Fraction.{fraction};
ghost use Rattle.cs_reader.specs.Items.{Gives};
ghost use Rattle.cs_reader.specs.Reading.{next_at, opened_at, closed_at, number_at, name_at, one_at, two_at, three_at, numbers_at, literals_at, minus_at, slash_at, signed, integer_at, quotient_at, amount_at, multiplier_of, multiplier_by, more_at, multipliers_at, depth_after, tokens_from, input_at, term_at, pair_by, chain_at, farkas_at, split_at, divide_at, propagate_at, step_by, step_at, is_end, steps_at, headed_at, certificate_at, Answers};
ghost use Rattle.cs_reader.specs.Steps.{step};

use crate::mark::{Mark, Name, mark_of};
use crate::refusal::Refusal;
use crate::spell::{Scope, spelled};
use crate::step::{Certificate, Literal, Step};
use crate::stop::Stop;
use std::alloc::{AllocError, AllocFailed, Global};
use vx_frac::Frac;
use vx_sexp::{Bytes, Sexp, Token};

fn next(tokens: &[Token]) -> Result<(Mark, &[Token]), Stop>
    ensures value { Gives (λ x. (x.0, x.1.now)) result (next_at tokens.now) }
    ensures small { IfOk result (λ x. IsSmall x.0) }
{
    match tokens.split_first() {
        Some((token, rest)) => Ok((mark_of(token), rest)),
        None => Err(Stop::Form),
    }
}

#[tactic(auto, unfolding(crate::specs::Reading::opened_at))]
fn opened(tokens: &[Token]) -> Result<&[Token], Stop>
    ensures { Gives (λ rest. rest.now) result (opened_at tokens.now) }
{
    let (mark, rest) = next(tokens)?;
    match mark {
        Mark::Open => Ok(rest),
        _ => Err(Stop::Form),
    }
}

#[tactic(auto, unfolding(crate::specs::Reading::closed_at))]
fn closed(tokens: &[Token]) -> Result<&[Token], Stop>
    ensures { Gives (λ rest. rest.now) result (closed_at tokens.now) }
{
    let (mark, rest) = next(tokens)?;
    match mark {
        Mark::Close => Ok(rest),
        _ => Err(Stop::Form),
    }
}

#[tactic(auto, unfolding(crate::specs::Reading::number_at))]
fn number(tokens: &[Token]) -> Result<(u128, &[Token]), Stop>
    ensures value { Gives (λ x. (x.0, x.1.now)) result (number_at tokens.now) }
    ensures small { IfOk result (λ x. x.0 < 2 ^ 127) }
{
    let (mark, rest) = next(tokens)?;
    match mark {
        Mark::Number(n) => Ok((n, rest)),
        _ => Err(Stop::Form),
    }
}

#[tactic(auto, unfolding(crate::specs::Reading::name_at))]
fn name(tokens: &[Token]) -> Result<(Name, &[Token]), Stop>
    ensures { Gives (λ x. (x.0, x.1.now)) result (name_at tokens.now) }
{
    let (mark, rest) = next(tokens)?;
    match mark {
        Mark::Name(n) => Ok((n, rest)),
        _ => Err(Stop::Form),
    }
}

#[tactic(auto, unfolding(crate::specs::Reading::one_at))]
fn one(tokens: &[Token]) -> Result<(u128, &[Token]), Stop>
    ensures value { Gives (λ x. (x.0, x.1.now)) result (one_at tokens.now) }
    ensures small { IfOk result (λ x. x.0 < 2 ^ 127) }
{
    let (a, rest) = number(tokens)?;
    let rest = closed(rest)?;
    Ok((a, rest))
}

#[tactic(auto, unfolding(crate::specs::Reading::two_at))]
fn two(tokens: &[Token]) -> Result<((u128, u128), &[Token]), Stop>
    ensures value { Gives (λ x. (x.0, x.1.now)) result (two_at tokens.now) }
    ensures small { IfOk result (λ x. (x.0.0 < 2 ^ 127) × (x.0.1 < 2 ^ 127)) }
{
    let (a, rest) = number(tokens)?;
    let (b, rest) = one(rest)?;
    Ok(((a, b), rest))
}

#[tactic(auto, unfolding(crate::specs::Reading::three_at))]
fn three(tokens: &[Token]) -> Result<((u128, u128, u128), &[Token]), Stop>
    ensures { Gives (λ x. (x.0, x.1.now)) result (three_at tokens.now) }
{
    let (a, rest) = number(tokens)?;
    let ((b, c), rest) = two(rest)?;
    Ok(((a, b, c), rest))
}

/// Numbers to the closing parenthesis.
fn numbers(alloc: Global, tokens: &[Token]) -> Result<(Vec<u128>, &[Token]), Stop>
    ensures { Gives (λ x. (x.0.items, x.1.now)) result (numbers_at tokens.now) }
{
    let mut found = Vec::new(alloc);
    for (at, token) in tokens.iter().enumerate() {
        match mark_of(token) {
            Mark::Number(number) => found.push(number)?,
            Mark::Close => return Ok((found, &tokens[at + 1..])),
            _ => return Err(Stop::Form),
        }
    }
    Err(Stop::Form)
}

/// Literals to the closing parenthesis.
fn literals(alloc: Global, tokens: &[Token]) -> Result<(Vec<Literal>, &[Token]), Stop>
    ensures { Gives (λ x. (x.0.items, x.1.now)) result (literals_at tokens.now) }
{
    let mut found = Vec::new(alloc);
    for (at, token) in tokens.iter().enumerate() {
        match mark_of(token) {
            Mark::Literal(literal) => found.push(literal)?,
            Mark::Close => return Ok((found, &tokens[at + 1..])),
            _ => return Err(Stop::Form),
        }
    }
    Err(Stop::Form)
}

#[tactic(auto, unfolding(crate::specs::Reading::minus_at))]
fn minus(tokens: &[Token]) -> Result<&[Token], Stop>
    ensures { Gives (λ rest. rest.now) result (minus_at tokens.now) }
{
    let (name, rest) = name(tokens)?;
    match name {
        Name::Minus => Ok(rest),
        _ => Err(Stop::Form),
    }
}

#[tactic(auto, unfolding(crate::specs::Reading::slash_at))]
fn slash(tokens: &[Token]) -> Result<&[Token], Stop>
    ensures { Gives (λ rest. rest.now) result (slash_at tokens.now) }
{
    let (name, rest) = name(tokens)?;
    match name {
        Name::Slash => Ok(rest),
        _ => Err(Stop::Form),
    }
}

fn signed(negative: bool, number: u128) -> i128
    requires { number < 2 ^ 127 }
    ensures { result ≡ signed negative number }
{
    let size = number as i128;
    if negative { -size } else { size }
}

/// A numeral, or `(- n)`.
#[tactic(auto, unfolding(crate::specs::Reading::integer_at))]
fn integer(tokens: &[Token]) -> Result<(i128, &[Token]), Stop>
    ensures { Gives (λ x. (x.0, x.1.now)) result (integer_at tokens.now) }
{
    let (mark, rest) = next(tokens)?;
    match mark {
        Mark::Number(n) => Ok((signed(false, n), rest)),
        Mark::Open => {
            let rest = minus(rest)?;
            let (n, rest) = one(rest)?;
            Ok((signed(true, n), rest))
        }
        _ => Err(Stop::Form),
    }
}

/// Two numerals behind a slash.
#[tactic(auto, unfolding(crate::specs::Reading::quotient_at))]
fn quotient(negative: bool, tokens: &[Token]) -> Result<(Frac, &[Token]), Stop>
    ensures { Gives (λ x. (fraction x.0, x.1.now)) result (quotient_at negative tokens.now) }
{
    let ((a, b), rest) = two(tokens)?;
    if b == 0 {
        return Err(Stop::Form);
    }
    Ok((Frac::new(signed(negative, a), signed(false, b)), rest))
}

/// A numeral, or `(/ a b)`.
#[tactic(auto, unfolding(crate::specs::Reading::amount_at))]
fn amount(negative: bool, tokens: &[Token]) -> Result<(Frac, &[Token]), Stop>
    ensures { Gives (λ x. (fraction x.0, x.1.now)) result (amount_at negative tokens.now) }
{
    let (mark, rest) = next(tokens)?;
    match mark {
        Mark::Number(n) => Ok((Frac::new(signed(negative, n), 1), rest)),
        Mark::Open => {
            let rest = slash(rest)?;
            quotient(negative, rest)
        }
        _ => Err(Stop::Form),
    }
}

/// What stands behind `(/` or `(-`.
fn multiplier_of(name: Name, tokens: &[Token]) -> Result<(Frac, &[Token]), Stop>
    ensures { Gives (λ x. (fraction x.0, x.1.now)) result (multiplier_of name tokens.now) }
{
    match name {
        Name::Slash => quotient(false, tokens),
        Name::Minus => {
            let (a, rest) = amount(true, tokens)?;
            let rest = closed(rest)?;
            Ok((a, rest))
        }
        _ => Err(Stop::Form),
    }
}

/// A multiplier that begins with this mark.
fn multiplier_by(mark: Mark, tokens: &[Token]) -> Result<(Frac, &[Token]), Stop>
    requires { IsSmall mark }
    ensures { Gives (λ x. (fraction x.0, x.1.now)) result (multiplier_by mark tokens.now) }
{
    match mark {
        Mark::Number(n) => Ok((Frac::new(signed(false, n), 1), tokens)),
        Mark::Open => {
            let (name, rest) = name(tokens)?;
            multiplier_of(name, rest)
        }
        _ => Err(Stop::Form),
    }
}

/// A multiplier, or the closing parenthesis behind the last one.
#[tactic(auto, unfolding(crate::specs::Reading::more_at))]
fn multiplier_or_end(tokens: &[Token]) -> Result<(Option<Frac>, &[Token]), Stop>
    ensures { Gives (λ x. (option_map fraction x.0, x.1.now)) result (more_at tokens.now) }
{
    let (mark, rest) = next(tokens)?;
    if let Mark::Close = mark {
        return Ok((None, rest));
    }
    let (amount, rest) = multiplier_by(mark, rest)?;
    Ok((Some(amount), rest))
}

/// Multipliers to the closing parenthesis, of which there are no more than tokens.
fn multipliers(alloc: Global, tokens: &[Token]) -> Result<(Vec<Frac>, &[Token]), Stop>
    ensures { Gives (λ x. (map fraction x.0.items, x.1.now)) result (multipliers_at tokens.now) }
{
    let mut found = Vec::new(alloc);
    let mut rest = tokens;
    for count in 0..tokens.len() {
        match multiplier_or_end(rest) {
            Ok((Some(amount), behind)) => {
                found.push(amount)?;
                rest = behind;
            }
            Ok((None, behind)) => return Ok((found, behind)),
            Err(stop) => return Err(stop),
        }
    }
    Err(Stop::Form)
}

/// How many lists are open behind a token of a term.
fn depth_after(mark: Mark, depth: usize) -> Option<usize>
    requires { depth + 1 < 2 ^ 64 }
    ensures { result ≡ depth_after mark depth }
{
    match mark {
        Mark::Open => Some(depth + 1),
        Mark::Close => depth.checked_sub(1),
        _ => Some(depth),
    }
}

/// The number of tokens of the first s-expression.
fn expression_len(tokens: &[Token]) -> Option<usize>
    ensures value { result ≡ tokens_from 0 tokens.now }
    ensures within { IfSome result (λ n. n ≤ length tokens.now) }
{
    let mut depth = 0;
    for (at, token) in tokens.iter().enumerate() {
        depth = depth_after(mark_of(token), depth)?;
        if depth == 0 {
            return Some(at + 1);
        }
    }
    None
}

fn copy_of(alloc: Global, token: &Token) -> Result<Token, AllocError>
    ensures { IfOk result (λ copy. copy ≡ token.now) }
{
    match token {
        Token::Open => Ok(Token::Open),
        Token::Close => Ok(Token::Close),
        Token::Atom(kind, text) => Ok(Token::Atom(*kind, Bytes::copy(alloc, text.as_slice())?)),
    }
}

fn copies_of(alloc: Global, tokens: &[Token]) -> Result<Vec<Token>, Stop>
    ensures value { IfOk result (λ copies. copies.items ≡ tokens.now) }
    ensures want { IfErr result (λ e. e ≡ Stop.Want) }
{
    let mut copies = Vec::new(alloc);
    for token in tokens {
        copies.push(copy_of(alloc, token)?)?;
    }
    Ok(copies)
}

#[tactic(auto, unfolding(crate::specs::Reading::input_at))]
fn input(tokens: &[Token]) -> Result<(Step, &[Token]), Stop>
    ensures { Gives (λ x. (step x.0, x.1.now)) result (input_at tokens.now) }
{
    let (n, rest) = one(tokens)?;
    Ok((Step::Input(n), rest))
}

#[tactic(auto, unfolding(crate::specs::Reading::term_at))]
fn term(alloc: Global, tokens: &[Token]) -> Result<(Step, &[Token]), Stop>
    ensures { Gives (λ x. (step x.0, x.1.now)) result (term_at tokens.now) }
{
    let Some(len) = expression_len(tokens) else {
        return Err(Stop::Form);
    };
    let _term = spelled(alloc, &Scope::Any, &tokens[..len])?;
    let rest = closed(&tokens[len..])?;
    let copies = copies_of(alloc, &tokens[..len])?;
    Ok((Step::Term(copies), rest))
}

#[tactic(auto, unfolding(crate::specs::Reading::chain_at))]
fn chain(alloc: Global, tokens: &[Token]) -> Result<(Step, &[Token]), Stop>
    ensures { Gives (λ x. (step x.0, x.1.now)) result (chain_at tokens.now) }
{
    let (terms, rest) = numbers(alloc, tokens)?;
    if terms.is_empty() {
        return Err(Stop::Form);
    }
    Ok((Step::Chain(terms), rest))
}

#[tactic(auto, unfolding(crate::specs::Reading::farkas_at))]
fn farkas(alloc: Global, tokens: &[Token]) -> Result<(Step, &[Token]), Stop>
    ensures { Gives (λ x. (step x.0, x.1.now)) result (farkas_at tokens.now) }
{
    let rest = opened(tokens)?;
    let (lits, rest) = literals(alloc, rest)?;
    let rest = opened(rest)?;
    let (mults, rest) = multipliers(alloc, rest)?;
    let rest = closed(rest)?;
    Ok((Step::Farkas(lits, mults), rest))
}

#[tactic(auto, unfolding(crate::specs::Reading::split_at))]
fn split(tokens: &[Token]) -> Result<(Step, &[Token]), Stop>
    ensures { Gives (λ x. (step x.0, x.1.now)) result (split_at tokens.now) }
{
    let (t, rest) = number(tokens)?;
    let (n, rest) = integer(rest)?;
    let rest = closed(rest)?;
    Ok((Step::Split(t, n), rest))
}

#[tactic(auto, unfolding(crate::specs::Reading::divide_at))]
fn divide(tokens: &[Token]) -> Result<(Step, &[Token]), Stop>
    ensures { Gives (λ x. (step x.0, x.1.now)) result (divide_at tokens.now) }
{
    let ((a, d, k), rest) = three(tokens)?;
    Ok((Step::Divide(a, d, k), rest))
}

#[tactic(auto, unfolding(crate::specs::Reading::propagate_at))]
fn propagate(alloc: Global, tokens: &[Token]) -> Result<(Step, &[Token]), Stop>
    ensures { Gives (λ x. (step x.0, x.1.now)) result (propagate_at tokens.now) }
{
    let rest = opened(tokens)?;
    let (lits, rest) = literals(alloc, rest)?;
    let rest = opened(rest)?;
    let (hints, rest) = numbers(alloc, rest)?;
    let rest = closed(rest)?;
    Ok((Step::Propagate(lits, hints), rest))
}

/// A step of two numbers.
fn pair(name: Name, tokens: &[Token]) -> Result<(Step, &[Token]), Stop>
    ensures { Gives (λ x. (step x.0, x.1.now)) result (pair_by name tokens.now) }
{
    let ((a, b), rest) = two(tokens)?;
    match name {
        Name::Define => Ok((Step::Define(a, b), rest)),
        Name::Pick => Ok((Step::Pick(a, b), rest)),
        Name::Congruence => Ok((Step::Congruence(a, b), rest)),
        Name::Trichotomy => Ok((Step::Trichotomy(a, b), rest)),
        _ => Err(Stop::Form),
    }
}

/// What stands behind the step's word.
fn step_by(alloc: Global, name: Name, tokens: &[Token]) -> Result<(Step, &[Token]), Stop>
    ensures { Gives (λ x. (step x.0, x.1.now)) result (step_by name tokens.now) }
{
    match name {
        Name::Input => input(tokens),
        Name::Term => term(alloc, tokens),
        Name::Chain => chain(alloc, tokens),
        Name::Farkas => farkas(alloc, tokens),
        Name::Split => split(tokens),
        Name::Divide => divide(tokens),
        Name::Propagate => propagate(alloc, tokens),
        _ => pair(name, tokens),
    }
}

#[tactic(auto, unfolding(crate::specs::Reading::step_at))]
fn step(alloc: Global, tokens: &[Token]) -> Result<(Step, &[Token]), Stop>
    ensures { Gives (λ x. (step x.0, x.1.now)) result (step_at tokens.now) }
{
    let rest = opened(tokens)?;
    let (name, rest) = name(rest)?;
    step_by(alloc, name, rest)
}

/// Is only the closing parenthesis left?
fn is_end(tokens: &[Token]) -> bool
    ensures { result ≡ is_end tokens.now }
{
    match tokens.split_first() {
        Some((token, rest)) => matches!(mark_of(token), Mark::Close) && rest.is_empty(),
        None => false,
    }
}

/// Why reading a certificate fails: a step isn't of the written form, as C4 says, or memory runs out.
#[derive(Clone, Copy)]
pub enum ReadFault {
    Refused(Refusal),
    Want,
}

impl From<AllocError> for ReadFault {
    ghost use Rattle.cs_reader.specs.declared.reader.ReadFault.TheVariants.{Want};

    ghost from_gives = { λ _ e. e ≡ Want };

    fn from(_: AllocError) -> Self {
        ReadFault::Want
    }
}

impl<T: Drop> From<AllocFailed<T>> for ReadFault {
    ghost use Rattle.cs_reader.specs.declared.reader.ReadFault.TheVariants.{Want};

    ghost from_gives = { λ _ e. e ≡ Want };

    fn from(_: AllocFailed<T>) -> Self {
        ReadFault::Want
    }
}

/// The steps to the end of the tokens.
fn steps(alloc: Global, tokens: &[Token]) -> Result<Vec<Step>, ReadFault>
    requires { length tokens.now < 2 ^ 32 }
    ensures { Answers (λ v. map step v.items) result (steps_at tokens.now) }
{
    let mut found = Vec::new(alloc);
    let mut rest = tokens;
    for n in 0..tokens.len() as u32 {
        if is_end(rest) {
            return Ok(found);
        }
        match step(alloc, rest) {
            Ok((read, behind)) => {
                found.push(read)?;
                rest = behind;
            }
            Err(Stop::Form) => return Err(ReadFault::Refused(Refusal::BadForm(n))),
            Err(Stop::Want) => return Err(ReadFault::Want),
        }
    }
    Err(ReadFault::Refused(Refusal::BadForm(tokens.len() as u32)))
}

/// The tokens behind `(certificate`.
#[tactic(auto, unfolding(crate::specs::Reading::headed_at))]
fn headed(tokens: &[Token]) -> Result<&[Token], Stop>
    ensures { Gives (λ rest. rest.now) result (headed_at tokens.now) }
{
    let rest = opened(tokens)?;
    let (name, rest) = name(rest)?;
    match name {
        Name::Certificate => Ok(rest),
        _ => Err(Stop::Form),
    }
}

impl Certificate {
    ghost use Rattle.cs_reader.specs.Steps.{certificate};

    /// The certificate that a reply to `get-proof` writes.
    ///
    /// # Errors
    /// `BadForm`, C4, with the number of the first step that isn't of the written form; a reply
    /// that is no list headed by `certificate` misses it at step 0. `Want` where memory runs out.
    pub fn read(alloc: Global, reply: &Sexp) -> Result<Certificate, ReadFault>
        requires { length reply.now < 2 ^ 32 }
        ensures { Answers certificate result (certificate_at reply.now) }
    {
        match headed(reply.tokens()) {
            Ok(rest) => Ok(Certificate {
                steps: steps(alloc, rest)?,
            }),
            Err(Stop::Form) => Err(ReadFault::Refused(Refusal::BadForm(0))),
            Err(Stop::Want) => Err(ReadFault::Want),
        }
    }
}
