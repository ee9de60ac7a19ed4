//! Commands read from their tokens.
ghost use Rattle.std.specs.Prelude.{◌≡◌, ◌^◌, map};
ghost use Rattle.std.specs.Option.{option_map};
ghost use Rattle.vx_terms.specs.Views.{sort};
ghost use Rattle.vx_smt_meaning.specs.Commands as meant;
ghost use Rattle.vx_smt_meaning.specs.Views.{command};
ghost use Rattle.cs_commands.specs.declared.fault.CommandFault.TheVariants as faults;
ghost use Rattle.cs_commands.specs.Outcomes.{Gives, or_fault};
ghost use Rattle.cs_commands.specs.Names.{number_below};
ghost use Rattle.cs_commands.specs.Commands as clean;
ghost use Rattle.cs_commands.specs.Views.{scope};

use crate::build::asserted;
use crate::fault::CommandFault;
use crate::head::symbol_in;
use crate::live::{Live, new_sort, new_symbol, sort_at};
use crate::name::text;
use crate::number::number_below;
use crate::term::term_at;
use crate::word::{Verb, command_word};
use std::alloc::Global;
use vx_sexp::{Kind, Token};
use vx_smt_meaning::{Command, Declared};
use vx_terms::Sort;

fn symbol_at(tokens: &[Token]) -> Result<(&[u8], &[Token]), CommandFault>
    ensures { Gives (λ x. (x.0.now, x.1.now)) result (clean.symbol_at tokens.now) }
{
    let Some((first, rest)) = tokens.split_first() else {
        return Err(CommandFault::Sort);
    };
    match symbol_in(first) {
        Some(name) => Ok((name, rest)),
        None => Err(CommandFault::Sort),
    }
}

fn keyword_in(token: &Token) -> Option<&[u8]>
    ensures { option_map (λ x. x.now) result ≡ clean.keyword_in token.now }
{
    match token {
        Token::Atom(Kind::Keyword, text) => Some(text.as_slice()),
        Token::Atom(
            Kind::Numeral
            | Kind::Decimal
            | Kind::Hexadecimal
            | Kind::Binary
            | Kind::Symbol
            | Kind::Quoted
            | Kind::Text,
            _,
        )
        | Token::Open
        | Token::Close => None,
    }
}

fn keyword_at(tokens: &[Token]) -> Result<(&[u8], &[Token]), CommandFault>
    ensures { Gives (λ x. (x.0.now, x.1.now)) result (clean.keyword_at tokens.now) }
{
    let Some((first, rest)) = tokens.split_first() else {
        return Err(CommandFault::Sort);
    };
    match keyword_in(first) {
        Some(name) => Ok((name, rest)),
        None => Err(CommandFault::Sort),
    }
}

fn numeral_in(token: &Token) -> Option<&[u8]>
    ensures { option_map (λ x. x.now) result ≡ clean.numeral_in token.now }
{
    match token {
        Token::Atom(Kind::Numeral, text) => Some(text.as_slice()),
        Token::Atom(
            Kind::Decimal
            | Kind::Hexadecimal
            | Kind::Binary
            | Kind::Symbol
            | Kind::Keyword
            | Kind::Quoted
            | Kind::Text,
            _,
        )
        | Token::Open
        | Token::Close => None,
    }
}

fn numeral_at(tokens: &[Token]) -> Result<(&[u8], &[Token]), CommandFault>
    ensures { Gives (λ x. (x.0.now, x.1.now)) result (clean.numeral_at tokens.now) }
{
    let Some((first, rest)) = tokens.split_first() else {
        return Err(CommandFault::Sort);
    };
    match numeral_in(first) {
        Some(digits) => Ok((digits, rest)),
        None => Err(CommandFault::Sort),
    }
}

fn arity_of(digits: &[u8]) -> Result<u128, CommandFault>
    ensures { Gives (λ n. n) result (or_fault faults.Wide (number_below (2 ^ 127) digits.now)) }
{
    match number_below(1 << 127, digits) {
        Some(number) => Ok(number),
        None => Err(CommandFault::Wide),
    }
}

/// A count of levels.
fn count_of(digits: &[u8]) -> Result<u32, CommandFault>
    ensures { Gives (λ n. n) result (or_fault faults.Levels (number_below (2 ^ 32) digits.now)) }
{
    match number_below(1 << 32, digits) {
        Some(number) => Ok(number as u32),
        None => Err(CommandFault::Levels),
    }
}

fn open_at(tokens: &[Token]) -> Result<&[Token], CommandFault>
    ensures { Gives (λ x. x.now) result (clean.open_at tokens.now) }
{
    match tokens.split_first() {
        Some((Token::Open, rest)) => Ok(rest),
        Some((Token::Close | Token::Atom(_, _), _)) => Err(CommandFault::Sort),
        None => Err(CommandFault::Sort),
    }
}

/// The parenthesis that closes the command, with nothing behind it.
fn ended(made: Command, tokens: &[Token]) -> Result<Command, CommandFault>
    ensures { Gives (λ c. command c) result (clean.ended (command made) tokens.now) }
{
    match tokens {
        [Token::Close] => Ok(made),
        _ => Err(CommandFault::Sort),
    }
}

/// What stands behind a list that is open.
#[tactic(auto, using(crate::proofs::Values::within_lists))]
fn behind_list(tokens: &[Token]) -> Result<&[Token], CommandFault>
    ensures { Gives (λ x. x.now) result (clean.behind_lists 1 tokens.now) }
{
    let mut lists = 1usize;
    let mut rest = tokens;
    while lists > 0 {
        let Some((first, behind)) = rest.split_first() else {
            return Err(CommandFault::Sort);
        };
        match first {
            Token::Open => lists += 1,
            Token::Close => lists -= 1,
            Token::Atom(_, _) => (),
        }
        rest = behind;
    }
    Ok(rest)
}

fn is_true(kind: Kind, text: &[u8]) -> bool
    ensures { result ≡ clean.is_true kind text.now }
{
    match kind {
        Kind::Symbol => text == "true".as_bytes(),
        Kind::Numeral
        | Kind::Decimal
        | Kind::Hexadecimal
        | Kind::Binary
        | Kind::Keyword
        | Kind::Quoted
        | Kind::Text => false,
    }
}

/// An option's value, whether it is the word `true`: any atom but a keyword, or any list.
fn value_at(tokens: &[Token]) -> Result<(bool, &[Token]), CommandFault>
    ensures { Gives (λ x. (x.0, x.1.now)) result (clean.value_at tokens.now) }
{
    match tokens.split_first() {
        None => Err(CommandFault::Sort),
        Some((Token::Open, rest)) => Ok((false, behind_list(rest)?)),
        Some((Token::Close | Token::Atom(Kind::Keyword, _), _)) => Err(CommandFault::Sort),
        Some((Token::Atom(kind, text), rest)) => Ok((is_true(*kind, text.as_slice()), rest)),
    }
}

/// Any option.
fn set_option(alloc: Global, tokens: &[Token]) -> Result<Command, CommandFault>
    ensures { Gives (λ c. command c) result (clean.set_option tokens.now) }
{
    let (keyword, rest) = keyword_at(tokens)?;
    let keyword = text(alloc, keyword)?;
    let (value, rest) = value_at(rest)?;
    ended(Command::SetOption(keyword, value), rest)
}

fn set_logic(alloc: Global, tokens: &[Token]) -> Result<Command, CommandFault>
    ensures { Gives (λ c. command c) result (clean.set_logic tokens.now) }
{
    let (name, rest) = symbol_at(tokens)?;
    let name = text(alloc, name)?;
    ended(Command::SetLogic(name), rest)
}

/// A sort without parameters.
fn declare_sort(
    alloc: Global,
    live: &Live<'_, '_>,
    tokens: &[Token],
) -> Result<Command, CommandFault>
    ensures { Gives (λ c. command c) result (clean.declare_sort (scope live.now) tokens.now) }
{
    let (name, rest) = symbol_at(tokens)?;
    let name = new_sort(alloc, live, name)?;
    let (digits, rest) = numeral_at(rest)?;
    let arity = arity_of(digits)?;
    let made = ended(Command::DeclareSort(name), rest)?;
    if arity == 0 {
        Ok(made)
    } else {
        Err(CommandFault::Unsupported)
    }
}

fn sort_in(alloc: Global, live: &Live<'_, '_>, token: &Token) -> Result<Sort, CommandFault>
    ensures { Gives (λ a. sort a) result (clean.sort_in (scope live.now) token.now) }
{
    match symbol_in(token) {
        Some(name) => sort_at(alloc, live, name),
        None => Err(CommandFault::Sort),
    }
}

/// The sorts to a closing parenthesis.
fn sorts_at<'t>(
    alloc: Global,
    live: &Live<'_, '_>,
    tokens: &'t [Token],
) -> Result<(Vec<Sort>, &'t [Token]), CommandFault>
    ensures { Gives (λ x. (map sort x.0.items, x.1.now)) result (clean.sorts_at (scope live.now) tokens.now) }
{
    let mut found = Vec::new(alloc);
    let mut rest = tokens;
    while let Some((first, behind)) = rest.split_first() {
        match first {
            Token::Close => return Ok((found, behind)),
            Token::Open | Token::Atom(_, _) => {
                let one = sort_in(alloc, live, first)?;
                found.push(one)?;
                rest = behind;
            }
        }
    }
    Err(CommandFault::Sort)
}

fn declare_fun(
    alloc: Global,
    live: &Live<'_, '_>,
    tokens: &[Token],
) -> Result<Command, CommandFault>
    ensures { Gives (λ c. command c) result (clean.declare_fun (scope live.now) tokens.now) }
{
    let (name, rest) = symbol_at(tokens)?;
    let symbol = new_symbol(alloc, live, name)?;
    let rest = open_at(rest)?;
    let (takes, rest) = sorts_at(alloc, live, rest)?;
    let (last, rest) = symbol_at(rest)?;
    let gives = sort_at(alloc, live, last)?;
    let declared = Declared {
        symbol,
        takes,
        gives,
    };
    ended(Command::DeclareFun(declared), rest)
}

/// A term of sort Bool.
fn assertion(alloc: Global, live: &Live<'_, '_>, tokens: &[Token]) -> Result<Command, CommandFault>
    ensures { Gives (λ c. command c) result (clean.assertion (scope live.now) tokens.now) }
{
    let (t, rest) = term_at(alloc, live, tokens)?;
    let t = asserted(t)?;
    ended(Command::Assert(t), rest)
}

fn push(tokens: &[Token]) -> Result<Command, CommandFault>
    ensures { Gives (λ c. command c) result (clean.levels meant.Push tokens.now) }
{
    let (digits, rest) = numeral_at(tokens)?;
    let count = count_of(digits)?;
    ended(Command::Push(count), rest)
}

fn pop(tokens: &[Token]) -> Result<Command, CommandFault>
    ensures { Gives (λ c. command c) result (clean.levels meant.Pop tokens.now) }
{
    let (digits, rest) = numeral_at(tokens)?;
    let count = count_of(digits)?;
    ended(Command::Pop(count), rest)
}

fn command_of(
    alloc: Global,
    live: &Live<'_, '_>,
    verb: Verb,
    tokens: &[Token],
) -> Result<Command, CommandFault>
    ensures { Gives (λ c. command c) result (clean.command_of (scope live.now) verb tokens.now) }
{
    match verb {
        Verb::SetOption => set_option(alloc, tokens),
        Verb::SetLogic => set_logic(alloc, tokens),
        Verb::DeclareSort => declare_sort(alloc, live, tokens),
        Verb::DeclareFun => declare_fun(alloc, live, tokens),
        Verb::Assert => assertion(alloc, live, tokens),
        Verb::Push => push(tokens),
        Verb::Pop => pop(tokens),
        Verb::CheckSat => ended(Command::CheckSat, tokens),
        Verb::GetProof => ended(Command::GetProof, tokens),
        Verb::Exit => ended(Command::Exit, tokens),
        Verb::Other => Err(CommandFault::Unsupported),
    }
}

/// What begins a command, and what stands behind it.
fn verb_at(tokens: &[Token]) -> Result<(Verb, &[Token]), CommandFault>
    ensures { Gives (λ x. (x.0, x.1.now)) result (clean.verb_at tokens.now) }
{
    let [Token::Open, first, rest @ ..] = tokens else {
        return Err(CommandFault::Unsupported);
    };
    match symbol_in(first) {
        Some(name) => Ok((command_word(name), rest)),
        None => Err(CommandFault::Unsupported),
    }
}

/// The command that the tokens are.
///
/// # Errors
/// The first fault, or want of memory.
pub fn understood(
    alloc: Global,
    live: &Live<'_, '_>,
    tokens: &[Token],
) -> Result<Command, CommandFault>
    ensures { Gives (λ c. command c) result (clean.understood (scope live.now) tokens.now) }
{
    let (verb, rest) = verb_at(tokens)?;
    command_of(alloc, live, verb, rest)
}
