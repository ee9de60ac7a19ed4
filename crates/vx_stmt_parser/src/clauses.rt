//! Reading clauses and the invariants of loops.

ghost use Rattle.std.specs.Prelude.{◌≡◌, ◌<◌, length, []};
ghost use Rattle.vx_ast.specs.Written.{written_all, written_expr};
ghost use Rattle.vx_tokens.specs.Tokens.{kind_of, tokens_in};
ghost use Rattle.vx_grammar.specs.Reading.{run};
ghost use Rattle.vx_expr_parser.specs.Gives.{Gives};
ghost use Rattle.vx_expr_parser.specs.Views.{exprs_of};
ghost use Rattle.vx_grammar.specs.StmtReading as reading;

use crate::semicolon::skip_semicolon;
use std::alloc::Global;
use std::rc::Rc;
use vx_ast::Expr;
use vx_expr_parser::{Read, Stop, choice};
use vx_tokens::{Kind, Token, Word};

/// A clause behind so many of its kind, each of which nests it.
#[tactic(auto, unfolding(vx_grammar::specs::StmtReading::clause_at))]
pub fn clause<'t>(
    alloc: Global,
    room: u32,
    before: usize,
    here: &'t [Token<'t>],
    tokens: &'t [Token<'t>],
) -> Read<'t, Rc<Expr>>
    requires { room < 1000 }
    ensures { Gives (λ x. (written_expr x.0.value, tokens_in x.1.now)) result (reading.clause_at room before (tokens_in here.now) (tokens_in tokens.now)) }
{
    if before > room as usize {
        return Err(Stop::TooDeep(here));
    }
    let (e, rest) = choice(alloc, room - before as u32, tokens)?;
    Ok((Rc::new(alloc, e)?, rest))
}

fn begins_invariant(kind: Kind) -> bool
    ensures { result ≡ reading.begins_invariant (kind_of kind.entry) }
{
    matches!(kind, Kind::Word(Word::Invariant))
}

/// The word that a measure begins with.
pub fn is_measure(kind: Kind) -> bool
    ensures { result ≡ reading.is_measure (kind_of kind.entry) }
{
    matches!(kind, Kind::Word(Word::Decreases))
}

// The invariants of a loop.
pub fn invariants<'t>(alloc: Global, room: u32, tokens: &'t [Token<'t>]) -> Read<'t, Vec<Rc<Expr>>>
    requires { room < 1000 }
    ensures { Gives (λ x. (written_all x.0.items, tokens_in x.1.now)) result (reading.invariants_at room (tokens_in tokens.now)) }
{
    kept(alloc, room, tokens)
}

fn kept<'t>(alloc: Global, room: u32, tokens: &'t [Token<'t>]) -> Read<'t, Vec<Rc<Expr>>>
    requires { room < 1000 }
    ensures { Gives (λ x. (exprs_of x.0.items, tokens_in x.1.now)) result (run (reading.invariant_turn room) (length (tokens_in tokens.now)) [] (tokens_in tokens.now)) }
{
    let mut invariants = Vec::new(alloc);
    let mut rest = tokens;
    for _ in 0..tokens.len() {
        let Some((first, inner)) = rest.split_first() else {
            return Ok((invariants, rest));
        };
        if !begins_invariant(first.kind) {
            return Ok((invariants, rest));
        }
        let (e, after) = clause(alloc, room, invariants.len(), rest, inner)?;
        invariants.push(e)?;
        rest = skip_semicolon(after);
    }
    Ok((invariants, rest))
}

/// A measure begins.
pub fn begins_measure(tokens: &[Token]) -> bool
    ensures { result ≡ reading.begins_decreases (tokens_in tokens.now) }
{
    match tokens.split_first() {
        Some((first, _)) => is_measure(first.kind),
        None => false,
    }
}
