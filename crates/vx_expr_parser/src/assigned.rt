//! Reading what stands right of `:=`.

ghost use Rattle.std.specs.Prelude.{◌≡◌, ◌<◌, IfOk, map};
ghost use Rattle.vx_ast.specs.Written.{name_of, written_expr, written_right, Value, New};
ghost use Rattle.vx_tokens.specs.Tokens.{kind_of, tokens_in};
ghost use Rattle.vx_grammar.specs.Reading as part;
ghost use Rattle.vx_grammar.specs.StmtReading as reading;
ghost use Rattle.vx_expr_parser.specs.Gives.{Gives};

use crate::expr::choice;
use crate::names::{more_names, name, one_name};
use crate::reading::{Read, closed, expect};
use crate::stop::Stop;
use std::alloc::{AllocError, Global};
use std::rc::Rc;
use vx_ast::{Expr, Name, Place, Right};
use vx_tokens::{Kind, Symbol, Token, Word};

fn begins_new(kind: Kind) -> bool
    ensures { result ≡ reading.begins_new (kind_of kind.entry) }
{
    matches!(kind, Kind::Word(Word::New))
}

/// A value, or `new` with its fields.
#[tactic(auto, unfolding(vx_grammar::specs::StmtReading::right_at, vx_grammar::specs::StmtReading::value_at))]
pub fn right<'t>(alloc: Global, room: u32, tokens: &'t [Token<'t>]) -> Read<'t, Right>
    requires { room < 1000 }
    ensures { Gives (λ x. (written_right x.0, tokens_in x.1.now)) result (reading.right_at room (tokens_in tokens.now)) }
{
    match tokens.split_first() {
        None => Err(Stop::Unexpected(tokens)),
        Some((first, inner)) if begins_new(first.kind) => {
            enclosed_allocation(alloc, room, first.place, inner)
        }
        Some(_) => {
            let (e, rest) = choice(alloc, room, tokens)?;
            Ok((value(alloc, e)?, rest))
        }
    }
}

fn value(alloc: Global, e: Expr) -> Result<Right, AllocError>
    ensures { IfOk result (λ right. written_right right ≡ Value (written_expr e)) }
{
    Ok(Right::Value(Rc::new(alloc, e)?))
}

// The fields of a `new` that stands there, between parentheses.
#[tactic(auto, unfolding(vx_grammar::specs::Reading::enclosed))]
fn enclosed_allocation<'t>(
    alloc: Global,
    room: u32,
    place: Place,
    tokens: &'t [Token<'t>],
) -> Read<'t, Right>
    requires { room < 1000 }
    ensures { Gives (λ x. (written_right x.0, tokens_in x.1.now)) result (part.enclosed (part.below room) (part.allocation place) (tokens_in tokens.now)) }
{
    let (_, inner) = expect(Symbol::Open, tokens)?;
    let (right, rest) = nested_allocation(alloc, room, place, tokens, inner)?;
    closed(right, rest)
}

fn nested_allocation<'t>(
    alloc: Global,
    room: u32,
    place: Place,
    here: &'t [Token<'t>],
    tokens: &'t [Token<'t>],
) -> Read<'t, Right>
    requires { room < 1000 }
    ensures { Gives (λ x. (written_right x.0, tokens_in x.1.now)) result (part.below room (part.allocation place) (tokens_in here.now) (tokens_in tokens.now)) }
{
    match room.checked_sub(1) {
        Some(_) => allocation(alloc, place, tokens),
        None => Err(Stop::TooDeep(here)),
    }
}

#[tactic(auto, unfolding(vx_grammar::specs::Reading::allocation_at))]
fn allocation<'t>(alloc: Global, place: Place, tokens: &'t [Token<'t>]) -> Read<'t, Right>
    ensures { Gives (λ x. (written_right x.0, tokens_in x.1.now)) result (part.allocation_at place (tokens_in tokens.now)) }
{
    let Some((first, inner)) = tokens.split_first() else {
        return Err(Stop::Unexpected(tokens));
    };
    match first.kind {
        Kind::Symbol(Symbol::Times) => Ok((Right::NewAll(place), inner)),
        Kind::Symbol(Symbol::Close) => Ok((new(place, Vec::new(alloc)), tokens)),
        _ => fields(alloc, place, tokens),
    }
}

fn new(place: Place, fields: Vec<Name>) -> Right
    ensures { written_right result ≡ New place (map name_of fields.items) }
{
    Right::New(place, fields)
}

// One field at least.
#[tactic(auto, unfolding(vx_grammar::specs::Reading::fields_at))]
fn fields<'t>(alloc: Global, place: Place, tokens: &'t [Token<'t>]) -> Read<'t, Right>
    ensures { Gives (λ x. (written_right x.0, tokens_in x.1.now)) result (part.fields_at place (tokens_in tokens.now)) }
{
    let (first, rest) = name(alloc, tokens)?;
    let (fields, rest) = more_names(alloc, one_name(alloc, first)?, rest)?;
    Ok((new(place, fields), rest))
}
