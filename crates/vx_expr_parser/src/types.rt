//! Reading types.

ghost use Rattle.vx_ast.specs.Written.{placed_type, written_declaration};
ghost use Rattle.vx_tokens.specs.Tokens.{tokens_in};
ghost use Rattle.vx_grammar.specs.StmtReading as reading;
ghost use Rattle.vx_expr_parser.specs.Gives.{Gives};

use crate::names::name;
use crate::reading::{Read, expect};
use crate::stop::Stop;
use std::alloc::Global;
use vx_ast::{Declaration, Place, ValueType};
use vx_tokens::{Kind, Symbol, Token, Word};

/// A type, and where it stands.
#[tactic(auto, unfolding(vx_grammar::specs::StmtReading::type_at))]
pub fn value_type<'t>(tokens: &'t [Token<'t>]) -> Read<'t, (ValueType, Place)>
    ensures { Gives (λ x. (placed_type x.0.1 x.0.0, tokens_in x.1.now)) result (reading.type_at (tokens_in tokens.now)) }
{
    let Some((first, rest)) = tokens.split_first() else {
        return Err(Stop::Unexpected(tokens));
    };
    match first.kind {
        Kind::Word(Word::Int) => Ok(((ValueType::Int, first.place), rest)),
        Kind::Word(Word::Bool) => Ok(((ValueType::Bool, first.place), rest)),
        Kind::Word(Word::Ref) => Ok(((ValueType::Ref, first.place), rest)),
        Kind::Word(Word::Perm) => Ok(((ValueType::Perm, first.place), rest)),
        _ => Err(Stop::Unexpected(tokens)),
    }
}

/// A name with its type.
#[tactic(auto, unfolding(vx_grammar::specs::StmtReading::declaration_at))]
pub fn declaration<'t>(alloc: Global, tokens: &'t [Token<'t>]) -> Read<'t, Declaration>
    ensures { Gives (λ x. (written_declaration x.0, tokens_in x.1.now)) result (reading.declaration_at (tokens_in tokens.now)) }
{
    let (name, rest) = name(alloc, tokens)?;
    let (_, rest) = expect(Symbol::Colon, rest)?;
    let ((value_type, type_place), rest) = value_type(rest)?;
    let declaration = Declaration {
        name,
        value_type,
        type_place,
    };
    Ok((declaration, rest))
}
