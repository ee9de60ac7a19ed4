//! Fields read behind an expression, one dot after the other.

ghost use Rattle.std.specs.Prelude.{◌≡◌, ◌<◌};
ghost use Rattle.vx_tokens.specs.Tokens.{tokens_in};
ghost use Rattle.vx_ast.specs.Written.{written_expr};
ghost use Rattle.vx_grammar.specs.Reading as reading;
ghost use Rattle.vx_expr_parser.specs.Gives.{Gives};

use crate::made::read;
use crate::names::name;
use crate::reading::{Read, is_symbol};
use crate::stop::Stop;
use std::alloc::Global;
use std::rc::Rc;
use vx_ast::{Expr, Place};
use vx_tokens::{Symbol, Token};

/// Dots, each with a field's name.
#[cycle(dots)]
#[tactic(auto, unfolding(vx_grammar::specs::Reading::dots_at))]
pub fn dots<'t>(
    alloc: Global,
    room: u32,
    place: Place,
    left: Expr,
    tokens: &'t [Token<'t>],
) -> Read<'t, Expr>
    requires { room < 1000 }
    ensures { Gives (λ x. (written_expr x.0, tokens_in x.1.now)) result (reading.dots_at (reading.below room) place (written_expr left) (tokens_in tokens.now)) }
{
    match tokens.split_first() {
        Some((dot, inner)) if is_symbol(Symbol::Dot, dot.kind) => {
            nested_dot(alloc, room, place, left, tokens, inner)
        }
        _ => Ok((left, tokens)),
    }
}

// A field's name behind a dot, which nests it, and further dots.
#[cycle(dots)]
fn nested_dot<'t>(
    alloc: Global,
    room: u32,
    place: Place,
    left: Expr,
    here: &'t [Token<'t>],
    tokens: &'t [Token<'t>],
) -> Read<'t, Expr>
    requires { room < 1000 }
    ensures { Gives (λ x. (written_expr x.0, tokens_in x.1.now)) result
        (reading.below room (reading.behind_dot place (written_expr left)) (tokens_in here.now) (tokens_in tokens.now)) }
{
    let left = Rc::new(alloc, left)?;
    match room.checked_sub(1) {
        Some(less) => dotted(alloc, less, place, left, tokens),
        None => Err(Stop::TooDeep(here)),
    }
}

#[cycle(dots)]
#[tactic(auto, unfolding(vx_grammar::specs::Reading::dotted_at))]
fn dotted<'t>(
    alloc: Global,
    room: u32,
    place: Place,
    left: Rc<Expr>,
    tokens: &'t [Token<'t>],
) -> Read<'t, Expr>
    requires { room < 1000 }
    ensures { Gives (λ x. (written_expr x.0, tokens_in x.1.now)) result (reading.dotted_at (reading.below room) place (written_expr left.value) (tokens_in tokens.now)) }
{
    let (field, rest) = name(alloc, tokens)?;
    dots(alloc, room, place, read(place, left, field), rest)
}
