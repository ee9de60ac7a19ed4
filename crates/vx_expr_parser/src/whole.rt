//! Expressions that all of the tokens spell.

ghost use Rattle.std.specs.Prelude.{◌≡◌, Ok};
ghost use Rattle.vx_tokens.specs.Tokens.{tokens_in};
ghost use Rattle.vx_ast.specs.Written.{written_expr};
ghost use Rattle.vx_expr_parser.specs.Gives.{Gives};
ghost use Rattle.vx_grammar.specs.Laws.{no_rest, whole, SpelledWithin};
ghost use Rattle.vx_expr_parser.specs.Says.{SaysOf};
ghost use Rattle.vx_ast.specs.Written.{Expr as Tree};

use crate::expr::choice;
use crate::stop::Stop;
use std::alloc::Global;
use vx_ast::Expr;
use vx_grammar::{answers_are_right, spelled_is_read};
use vx_tokens::Token;

// The expression that all of the tokens spell.
#[tactic(auto, unfolding(vx_grammar::specs::Laws::whole))]
fn whole<'t>(alloc: Global, tokens: &'t [Token<'t>]) -> Result<Expr, Stop<'t>>
    ensures { Gives written_expr result (whole 200 (tokens_in tokens.now)) }
{
    let (e, rest) = choice(alloc, 200, tokens)?;
    ended(e, rest)
}

// An expression that no token may follow.
fn ended<'t>(e: Expr, rest: &'t [Token<'t>]) -> Result<Expr, Stop<'t>>
    ensures { Gives written_expr result (no_rest (written_expr e) (tokens_in rest.now)) }
{
    if rest.is_empty() {
        return Ok(e);
    }
    drop(e);
    Err(Stop::Unexpected(rest))
}

/// The expression that all of the tokens spell.
///
/// # Errors
/// `Unexpected` and `TooDeep`, with the tokens from the first one that does not fit, or nests too deep; `Memory` where that runs out.
pub fn expression<'t>(alloc: Global, tokens: &'t [Token<'t>]) -> Result<Expr, Stop<'t>>
    // What is read is spelled so, within the limit; and where reading stops, the first token that does not fit stands,
    // or nests too deep.
    ensures says { SaysOf 200 (tokens_in tokens.now) result }
    // What is spelled within the limit is read, unless memory runs out.
    ensures only { (e : Tree) → SpelledWithin 200 (tokens_in tokens.now) e → Gives written_expr result (Ok e) }
{
    answers_are_right();
    spelled_is_read();
    whole(alloc, tokens)
}
