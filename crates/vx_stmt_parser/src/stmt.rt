//! Reading blocks and statements.

ghost use Rattle.std.specs.Prelude.{◌≡◌, ◌<◌, IfOk, map};
ghost use Rattle.vx_ast.specs.Written.{written_all, written_expr, If, Then, Done, While};
ghost use Rattle.vx_tokens.specs.Tokens.{kind_of, tokens_in};
ghost use Rattle.vx_grammar.specs.StmtReading.{block_from};
ghost use Rattle.vx_expr_parser.specs.Gives.{Gives};
ghost use Rattle.vx_stmt_parser.specs.Nested.{stmt_part_of};
ghost use Rattle.vx_stmt_parser.specs.Parts.{branches_at, loop_at};
ghost use Rattle.vx_stmt_parser.specs.Views.{stmt_of, other_of, block_of};
ghost use Rattle.vx_ast.specs.Written.{Block as Tree};
ghost use Rattle.vx_grammar.specs.Reading.{Read as Reads};
ghost use Rattle.vx_grammar.specs.StmtReading as reading;

use crate::clauses::{begins_measure, invariants};
use crate::plain::{Claim, Folding, claiming, declare, instance_statement, targeted};
use crate::semicolon::skip_semicolon;
use std::alloc::{AllocError, Global};
use std::rc::Rc;
use vx_ast::{Block, Expr, Place, Stmt, StmtKind};
use vx_expr_parser::{Read, Stop, expect, grouped};
use vx_tokens::{Kind, Symbol, Token, Word};

/// What nests: the statements between braces, or the part of an `if` from an `elseif` on.
#[derive(Clone, Copy)]
enum StmtPart {
    Statements,
    Elseif(Place),
}

/// A block between braces.
#[cycle(stmt)]
#[tactic(auto, unfolding(vx_grammar::specs::StmtReading::block_at))]
pub fn block<'t>(alloc: Global, room: u32, tokens: &'t [Token<'t>]) -> Read<'t, Block>
    requires { room < 1000 }
    ensures { Gives (λ x. (block_of x.0, tokens_in x.1.now)) result (reading.block_at (reading.stmts_below room) (tokens_in tokens.now)) }
{
    let (_, inner) = expect(Symbol::OpenBrace, tokens)?;
    let (statements, rest) = nested_statements(alloc, room, StmtPart::Statements, tokens, inner)?;
    let (_, rest) = expect(Symbol::CloseBrace, rest)?;
    Ok((statements, rest))
}

// The other side of an `if`, or none.
#[cycle(stmt)]
#[tactic(auto, unfolding(vx_grammar::specs::StmtReading::otherwise_at))]
fn otherwise<'t>(alloc: Global, room: u32, tokens: &'t [Token<'t>]) -> Read<'t, Option<Rc<Block>>>
    requires { room < 1000 }
    ensures { Gives (λ x. (other_of x.0, tokens_in x.1.now)) result (reading.otherwise_at (reading.stmts_below room) (tokens_in tokens.now)) }
{
    let Some((first, inner)) = tokens.split_first() else {
        return Ok((None, tokens));
    };
    match first.kind {
        Kind::Word(Word::Else) => other(alloc, block(alloc, room, inner)),
        Kind::Word(Word::Elseif) => {
            let part = StmtPart::Elseif(first.place);
            other(alloc, nested_statements(alloc, room, part, tokens, inner))
        }
        _ => Ok((None, tokens)),
    }
}

// The other side that a block is.
fn other<'t>(alloc: Global, read: Read<'t, Block>) -> Read<'t, Option<Rc<Block>>>
    ensures { (total : Reads Tree) → Gives (λ x. (block_of x.0, tokens_in x.1.now)) read.entry total → Gives (λ x. (other_of x.0, tokens_in x.1.now)) result (reading.other_by total) }
{
    let (block, rest) = read?;
    Ok((Some(Rc::new(alloc, block)?), rest))
}

fn blocked(statements: Vec<Stmt>) -> Block
    ensures { block_of result ≡ block_from (map stmt_of statements.items) }
{
    Block { statements }
}

fn single(alloc: Global, statement: Stmt) -> Result<Block, AllocError>
    ensures { IfOk result (λ block. block_of block ≡ Then (stmt_of statement) Done) }
{
    let mut statements = Vec::new(alloc);
    statements.push(statement)?;
    Ok(blocked(statements))
}

// What stands behind an `if` or an `elseif`.
#[cycle(stmt)]
#[tactic(auto, unfolding(vx_grammar::specs::StmtReading::branch_at))]
fn branch<'t>(alloc: Global, room: u32, place: Place, tokens: &'t [Token<'t>]) -> Read<'t, Stmt>
    requires { room < 1000 }
    ensures { Gives (λ x. (stmt_of x.0, tokens_in x.1.now)) result (reading.branch_at room (reading.stmts_below room) place (tokens_in tokens.now)) }
{
    let (e, rest) = grouped(alloc, room, tokens)?;
    branches(alloc, room, place, Rc::new(alloc, e)?, rest)
}

// What stands behind the condition of an `if` or an `elseif`.
#[cycle(stmt)]
fn branches<'t>(
    alloc: Global,
    room: u32,
    place: Place,
    condition: Rc<Expr>,
    tokens: &'t [Token<'t>],
) -> Read<'t, Stmt>
    requires { room < 1000 }
    ensures { Gives (λ x. (stmt_of x.0, tokens_in x.1.now)) result (branches_at (reading.stmts_below room) place (written_expr condition.value) (tokens_in tokens.now)) }
{
    let (then, rest) = block(alloc, room, tokens)?;
    let (otherwise, rest) = otherwise(alloc, room, rest)?;
    Ok((branched(alloc, place, condition, then, otherwise)?, rest))
}

fn branched(
    alloc: Global,
    place: Place,
    condition: Rc<Expr>,
    then: Block,
    otherwise: Option<Rc<Block>>,
) -> Result<Stmt, AllocError>
    ensures { IfOk result (λ stmt. stmt_of stmt ≡ If place (written_expr condition.value) (block_of then) (other_of otherwise)) }
{
    let kind = StmtKind::If(condition, Rc::new(alloc, then)?, otherwise);
    Ok(Stmt { place, kind })
}

// The block of a loop, where no measure may stand.
#[cycle(stmt)]
#[tactic(auto, unfolding(vx_grammar::specs::StmtReading::loop_block_at))]
fn loop_block<'t>(alloc: Global, room: u32, tokens: &'t [Token<'t>]) -> Read<'t, Block>
    requires { room < 1000 }
    ensures { Gives (λ x. (block_of x.0, tokens_in x.1.now)) result (reading.loop_block_at (reading.stmts_below room) (tokens_in tokens.now)) }
{
    if begins_measure(tokens) {
        return Err(Stop::Measured(tokens));
    }
    block(alloc, room, tokens)
}

// What stands behind `while`.
#[cycle(stmt)]
#[tactic(auto, unfolding(vx_grammar::specs::StmtReading::while_at))]
fn repetition<'t>(alloc: Global, room: u32, place: Place, tokens: &'t [Token<'t>]) -> Read<'t, Stmt>
    requires { room < 1000 }
    ensures { Gives (λ x. (stmt_of x.0, tokens_in x.1.now)) result (reading.while_at room (reading.stmts_below room) place (tokens_in tokens.now)) }
{
    let (e, rest) = grouped(alloc, room, tokens)?;
    repeating(alloc, room, place, Rc::new(alloc, e)?, rest)
}

// What stands behind the condition of a `while`.
#[cycle(stmt)]
fn repeating<'t>(
    alloc: Global,
    room: u32,
    place: Place,
    condition: Rc<Expr>,
    tokens: &'t [Token<'t>],
) -> Read<'t, Stmt>
    requires { room < 1000 }
    ensures { Gives (λ x. (stmt_of x.0, tokens_in x.1.now)) result (loop_at room (reading.stmts_below room) place (written_expr condition.value) (tokens_in tokens.now)) }
{
    let (invariants, rest) = invariants(alloc, room, tokens)?;
    let (body, rest) = loop_block(alloc, room, rest)?;
    Ok((repeated(alloc, place, condition, invariants, body)?, rest))
}

fn repeated(
    alloc: Global,
    place: Place,
    condition: Rc<Expr>,
    invariants: Vec<Rc<Expr>>,
    body: Block,
) -> Result<Stmt, AllocError>
    ensures { IfOk result (λ stmt. stmt_of stmt ≡ While place (written_expr condition.value) (written_all invariants.items) (block_of body)) }
{
    let kind = StmtKind::While(condition, invariants, Rc::new(alloc, body)?);
    Ok(Stmt { place, kind })
}

#[cycle(stmt)]
#[tactic(auto, unfolding(vx_grammar::specs::StmtReading::stmt_at))]
fn statement<'t>(alloc: Global, room: u32, tokens: &'t [Token<'t>]) -> Read<'t, Stmt>
    requires { room < 1000 }
    ensures { Gives (λ x. (stmt_of x.0, tokens_in x.1.now)) result (reading.stmt_at room (reading.stmts_below room) (tokens_in tokens.now)) }
{
    let Some((first, inner)) = tokens.split_first() else {
        return Err(Stop::Unexpected(tokens));
    };
    let place = first.place;
    match first.kind {
        Kind::Name(name) => targeted(alloc, room, first, name, tokens, inner),
        Kind::Word(Word::Var) => declare(alloc, room, place, inner),
        Kind::Word(Word::Inhale) => claiming(alloc, room, Claim::Inhale, place, inner),
        Kind::Word(Word::Exhale) => claiming(alloc, room, Claim::Exhale, place, inner),
        Kind::Word(Word::Assert) => claiming(alloc, room, Claim::Assert, place, inner),
        Kind::Word(Word::Assume) => claiming(alloc, room, Claim::Assume, place, inner),
        Kind::Word(Word::Fold) => instance_statement(alloc, room, Folding::Fold, place, inner),
        Kind::Word(Word::Unfold) => instance_statement(alloc, room, Folding::Unfold, place, inner),
        Kind::Word(Word::If) => branch(alloc, room, place, inner),
        Kind::Word(Word::While) => repetition(alloc, room, place, inner),
        _ => Err(Stop::Unexpected(tokens)),
    }
}

fn begins_statement(kind: Kind) -> bool
    ensures { result ≡ reading.begins_stmt (kind_of kind.entry) }
{
    matches!(
        kind,
        Kind::Name(_)
            | Kind::Word(Word::Var)
            | Kind::Word(Word::Inhale)
            | Kind::Word(Word::Exhale)
            | Kind::Word(Word::Assert)
            | Kind::Word(Word::Assume)
            | Kind::Word(Word::Fold)
            | Kind::Word(Word::Unfold)
            | Kind::Word(Word::If)
            | Kind::Word(Word::While)
    )
}

#[cycle(stmt)]
#[tactic(auto, unfolding(vx_grammar::specs::StmtReading::stmts_at))]
fn statements<'t>(alloc: Global, room: u32, tokens: &'t [Token<'t>]) -> Read<'t, Vec<Stmt>>
    requires { room < 1000 }
    ensures { Gives (λ x. (map stmt_of x.0.items, tokens_in x.1.now)) result (reading.stmts_at room (reading.stmts_below room) (tokens_in tokens.now)) }
{
    let mut statements = Vec::new(alloc);
    let mut rest = tokens;
    for _ in 0..tokens.len() {
        let Some((first, _)) = rest.split_first() else {
            return Ok((statements, rest));
        };
        if !begins_statement(first.kind) {
            return Ok((statements, rest));
        }
        let (next, after) = statement(alloc, room, rest)?;
        statements.push(next)?;
        rest = skip_semicolon(after);
    }
    Ok((statements, rest))
}

// What nests, where it may nest room deeper itself.
#[cycle(stmt)]
fn part<'t>(alloc: Global, room: u32, part: StmtPart, tokens: &'t [Token<'t>]) -> Read<'t, Block>
    requires { room < 1000 }
    ensures { Gives (λ x. (block_of x.0, tokens_in x.1.now)) result (reading.stmt_part room (reading.stmts_below room) (stmt_part_of part) (tokens_in tokens.now)) }
{
    match part {
        StmtPart::Statements => {
            let (statements, rest) = statements(alloc, room, tokens)?;
            Ok((blocked(statements), rest))
        }
        StmtPart::Elseif(place) => {
            let (whole, rest) = branch(alloc, room, place, tokens)?;
            Ok((single(alloc, whole)?, rest))
        }
    }
}

// A part that the token before it nests one deeper.
#[cycle(stmt)]
fn nested_statements<'t>(
    alloc: Global,
    room: u32,
    nested: StmtPart,
    here: &'t [Token<'t>],
    tokens: &'t [Token<'t>],
) -> Read<'t, Block>
    requires { room < 1000 }
    ensures { Gives (λ x. (block_of x.0, tokens_in x.1.now)) result (reading.stmts_below room (stmt_part_of nested) (tokens_in here.now) (tokens_in tokens.now)) }
{
    match room.checked_sub(1) {
        Some(less) => part(alloc, less, nested, tokens),
        None => Err(Stop::TooDeep(here)),
    }
}
