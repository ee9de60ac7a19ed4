//! Reading names.

ghost use Rattle.std.specs.Prelude.{◌≡◌, IfOk, length, map, ◌∷◌, []};
ghost use Rattle.vx_ast.specs.Written.{name_of};
ghost use Rattle.vx_tokens.specs.Tokens.{tokens_in};
ghost use Rattle.vx_grammar.specs.Reading as reading;
ghost use Rattle.vx_expr_parser.specs.Gives.{Gives};

use crate::reading::{Read, is_symbol, same};
use crate::stop::Stop;
use std::alloc::{AllocError, Global};
use vx_ast::Name;
use vx_tokens::{Kind, Symbol, Token};

/// A name, and where it stands.
#[tactic(auto, unfolding(vx_grammar::specs::Reading::name_at))]
pub fn name<'t>(alloc: Global, tokens: &'t [Token<'t>]) -> Read<'t, Name>
    ensures { Gives (λ x. (name_of x.0, tokens_in x.1.now)) result (reading.name_at (tokens_in tokens.now)) }
{
    let Some((first, rest)) = tokens.split_first() else {
        return Err(Stop::Unexpected(tokens));
    };
    match first.kind {
        Kind::Name(text) => {
            let name = Name {
                text: String::from_str(alloc, text)?,
                place: first.place,
            };
            Ok((name, rest))
        }
        _ => Err(Stop::Unexpected(tokens)),
    }
}

/// What follows a name, each behind a comma.
pub fn more_names<'t>(
    alloc: Global,
    mut names: Vec<Name>,
    tokens: &'t [Token<'t>],
) -> Read<'t, Vec<Name>>
    ensures { Gives (λ x. (map name_of x.0.items, tokens_in x.1.now)) result
        (reading.run reading.name_turn (length (tokens_in tokens.now)) (map name_of names.items) (tokens_in tokens.now)) }
{
    let mut rest = tokens;
    for _ in 0..tokens.len() {
        let Some((first, inner)) = rest.split_first() else {
            return Ok((names, rest));
        };
        if !is_symbol(Symbol::Comma, first.kind) {
            return Ok((names, rest));
        }
        let (next, after) = name(alloc, inner)?;
        names.push(next)?;
        rest = same(after);
    }
    Ok((names, rest))
}

/// A list of one name.
pub fn one_name(alloc: Global, name: Name) -> Result<Vec<Name>, AllocError>
    ensures { IfOk result (λ names. map name_of names.items ≡ name_of name ∷ []) }
{
    let mut names = Vec::new(alloc);
    names.push(name)?;
    Ok(names)
}
