//! What stands before the parts of a list.
ghost use Rattle.std.specs.Prelude.{◌≡◌};
ghost use Rattle.std.specs.Option.{option_map};
ghost use Rattle.cs_reader.specs.Spelling.{symbol_in};
ghost use Rattle.cs_commands.specs.Outcomes.{Gives};
ghost use Rattle.cs_commands.specs.Heads as clean;
ghost use Rattle.cs_commands.specs.Words as words;
ghost use Rattle.cs_commands.specs.Views.{scope, head};

use crate::fault::CommandFault;
use crate::live::{Live, declaration};
use crate::word::{Word, term_word};
use std::alloc::Global;
use vx_sexp::{Kind, Token};
use vx_smt_meaning::Declared;
use vx_terms::Operator;

/// What stands before the parts of a list.
#[derive(Clone, Copy)]
pub enum Head<'d> {
    Not,
    Ite,
    Minus,
    Slash,
    Operator(Operator),
    /// A declared symbol, before its arguments.
    Symbol(&'d Declared),
}

/// The text of a symbol.
pub fn symbol_in(token: &Token) -> Option<&[u8]>
    ensures { option_map (λ x. x.now) result ≡ symbol_in token.now }
{
    match token {
        Token::Atom(Kind::Symbol, text) => Some(text.as_slice()),
        Token::Atom(
            Kind::Numeral
            | Kind::Decimal
            | Kind::Hexadecimal
            | Kind::Binary
            | Kind::Keyword
            | Kind::Quoted
            | Kind::Text,
            _,
        )
        | Token::Open
        | Token::Close => None,
    }
}

/// What a word is, before the parts of a list.
fn head_of<'d>(alloc: Global, live: &Live<'_, 'd>, name: &[u8]) -> Result<Head<'d>, CommandFault>
    ensures { Gives (λ h. head h) result (clean.head_of (scope live.now) name.now (words.term_word name.now)) }
{
    match term_word(name) {
        Word::Truth(_) => Err(CommandFault::Sort),
        Word::Not => Ok(Head::Not),
        Word::Ite => Ok(Head::Ite),
        Word::Minus => Ok(Head::Minus),
        Word::Slash => Ok(Head::Slash),
        Word::Operator(of) => Ok(Head::Operator(of)),
        Word::Name => {
            let declared = declaration(alloc, live, name)?;
            match declared {
                Some(declared) => Ok(Head::Symbol(declared)),
                None => Err(CommandFault::Name),
            }
        }
    }
}

/// What a token is, behind an opening parenthesis.
pub fn head_at<'d>(
    alloc: Global,
    live: &Live<'_, 'd>,
    token: &Token,
) -> Result<Head<'d>, CommandFault>
    ensures { Gives (λ h. head h) result (clean.head_at (scope live.now) token.now) }
{
    match symbol_in(token) {
        Some(name) => head_of(alloc, live, name),
        None => Err(CommandFault::Name),
    }
}
