//! Semicolons, which may stand behind a statement, a clause and a member.

ghost use Rattle.std.specs.Prelude.{◌≡◌};
ghost use Rattle.vx_tokens.specs.Tokens.{tokens_in};
ghost use Rattle.vx_grammar.specs.StmtReading as reading;

use vx_expr_parser::is_symbol;
use vx_tokens::{Symbol, Token};

/// The tokens, without a semicolon in front.
pub fn skip_semicolon<'t>(tokens: &'t [Token<'t>]) -> &'t [Token<'t>]
    ensures { tokens_in result.now ≡ reading.skip_semicolon (tokens_in tokens.now) }
{
    let Some((first, rest)) = tokens.split_first() else {
        return tokens;
    };
    if is_symbol(Symbol::Semicolon, first.kind) {
        return rest;
    }
    tokens
}
