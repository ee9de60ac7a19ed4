//! Reading single tokens.

ghost use Rattle.std.specs.Prelude.{◌≡◌};
ghost use Rattle.vx_tokens.specs.declared.token.Symbol.TheVariants.{Close};
ghost use Rattle.vx_tokens.specs.Tokens.{kind_of, token_of, tokens_in};
ghost use Rattle.vx_grammar.specs.Reading as reading;
ghost use Rattle.vx_expr_parser.specs.Gives.{Gives};
ghost use Rattle.vx_expr_parser.specs.Parts.{closed_by};

use crate::stop::Stop;
use vx_tokens::{Kind, Symbol, Token};

/// What was read, and the tokens after it.
pub type Read<'t, T> = Result<(T, &'t [Token<'t>]), Stop<'t>>;

/// The same tokens, as what a call gives: a loop's variable can take that.
pub fn same<'t>(tokens: &'t [Token<'t>]) -> &'t [Token<'t>]
    ensures { result.now ≡ tokens.now }
{
    tokens
}

/// A number for each symbol.
fn code(symbol: Symbol) -> u8
    ensures { result ≡ reading.code symbol }
{
    symbol as u8
}

/// A token of this symbol.
pub fn is_symbol(symbol: Symbol, kind: Kind) -> bool
    ensures { result ≡ reading.is_symbol symbol (kind_of kind.entry) }
{
    match kind {
        Kind::Symbol(found) => code(symbol) == code(found),
        _ => false,
    }
}

/// What was read, where a parenthesis closes it.
pub fn closed<'t, T: Drop>(value: T, tokens: &'t [Token<'t>]) -> Read<'t, T>
    ensures { Gives (λ x. (x.0, tokens_in x.1.now)) result (closed_by value (reading.expect Close (tokens_in tokens.now))) }
{
    let (_, rest) = expect(Symbol::Close, tokens)?;
    Ok((value, rest))
}

/// The symbol that is due.
#[tactic(auto, unfolding(vx_grammar::specs::Reading::expect))]
pub fn expect<'t>(symbol: Symbol, tokens: &'t [Token<'t>]) -> Read<'t, Token<'t>>
    ensures { Gives (λ x. (token_of x.0, tokens_in x.1.now)) result (reading.expect symbol (tokens_in tokens.now)) }
{
    match tokens.split_first() {
        Some((first, rest)) if is_symbol(symbol, first.kind) => Ok((*first, rest)),
        _ => Err(Stop::Unexpected(tokens)),
    }
}
