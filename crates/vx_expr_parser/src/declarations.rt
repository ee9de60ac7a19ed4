//! Reading lists of declarations.

ghost use Rattle.std.specs.Prelude.{◌≡◌, IfOk, length, map, ◌∷◌, []};
ghost use Rattle.vx_ast.specs.Written.{written_declaration};
ghost use Rattle.vx_tokens.specs.Tokens.{tokens_in};
ghost use Rattle.vx_grammar.specs.Reading.{run};
ghost use Rattle.vx_grammar.specs.MemberReading as reading;
ghost use Rattle.vx_expr_parser.specs.Gives.{Gives};

use crate::reading::{Read, closed, expect, is_symbol, same};
use crate::types::declaration;
use std::alloc::{AllocError, Global};
use vx_ast::Declaration;
use vx_tokens::{Symbol, Token};

// What follows a declaration, each behind a comma.
fn more_declarations<'t>(
    alloc: Global,
    mut declarations: Vec<Declaration>,
    tokens: &'t [Token<'t>],
) -> Read<'t, Vec<Declaration>>
    ensures { Gives (λ x. (map written_declaration x.0.items, tokens_in x.1.now)) result
        (run reading.declaration_turn (length (tokens_in tokens.now)) (map written_declaration declarations.items) (tokens_in tokens.now)) }
{
    let mut rest = tokens;
    for _ in 0..tokens.len() {
        let Some((first, inner)) = rest.split_first() else {
            return Ok((declarations, rest));
        };
        if !is_symbol(Symbol::Comma, first.kind) {
            return Ok((declarations, rest));
        }
        let (next, after) = declaration(alloc, inner)?;
        declarations.push(next)?;
        rest = same(after);
    }
    Ok((declarations, rest))
}

#[tactic(auto, unfolding(vx_grammar::specs::MemberReading::declarations_at))]
fn declarations<'t>(alloc: Global, tokens: &'t [Token<'t>]) -> Read<'t, Vec<Declaration>>
    ensures { Gives (λ x. (map written_declaration x.0.items, tokens_in x.1.now)) result (reading.declarations_at (tokens_in tokens.now)) }
{
    let (first, rest) = declaration(alloc, tokens)?;
    more_declarations(alloc, one_declaration(alloc, first)?, rest)
}

fn one_declaration(alloc: Global, declaration: Declaration) -> Result<Vec<Declaration>, AllocError>
    ensures { IfOk result (λ ds. map written_declaration ds.items ≡ written_declaration declaration ∷ []) }
{
    let mut declarations = Vec::new(alloc);
    declarations.push(declaration)?;
    Ok(declarations)
}

/// Declarations between parentheses.
#[tactic(auto, unfolding(vx_grammar::specs::MemberReading::parameters_at))]
pub fn parameters<'t>(alloc: Global, tokens: &'t [Token<'t>]) -> Read<'t, Vec<Declaration>>
    ensures { Gives (λ x. (map written_declaration x.0.items, tokens_in x.1.now)) result (reading.parameters_at (tokens_in tokens.now)) }
{
    let (_, inner) = expect(Symbol::Open, tokens)?;
    let (parameters, rest) = inner_parameters(alloc, inner)?;
    closed(parameters, rest)
}

fn is_closing(tokens: &[Token]) -> bool
    ensures { result ≡ reading.is_closing (tokens_in tokens.now) }
{
    match tokens.split_first() {
        Some((first, _)) => is_symbol(Symbol::Close, first.kind),
        None => false,
    }
}

#[tactic(auto, unfolding(vx_grammar::specs::MemberReading::inner_parameters_at))]
fn inner_parameters<'t>(alloc: Global, tokens: &'t [Token<'t>]) -> Read<'t, Vec<Declaration>>
    ensures { Gives (λ x. (map written_declaration x.0.items, tokens_in x.1.now)) result (reading.inner_parameters_at (tokens_in tokens.now)) }
{
    if is_closing(tokens) {
        return Ok((Vec::new(alloc), tokens));
    }
    declarations(alloc, tokens)
}
