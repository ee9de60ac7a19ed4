//! Writing statements.

ghost use Rattle.std.specs.Prelude.{◌≡◌, ◌++◌, ◌∷◌, [], OnOk, string_bytes, map, option_map};
ghost use Rattle.vx_ast.specs.Written.{written_all, written_expr, written_right, optional_right, written_declaration, written_stmt, written_block, name_of, Then, Done};
ghost use Rattle.vx_grammar.specs.Statements.{type_word};
ghost use Rattle.vx_print.specs.Canonical as canonical;
ghost use Rattle.vx_print.specs.Views.{statements, other_of};
ghost use Rattle.vx_print.specs.Words.{behind};

use crate::expr::{put_applied, put_instance, put_read, put_whole};
use crate::token::{put_name, put_sign, put_word};
use std::alloc::AllocError;
use std::rc::Rc;
use vx_ast::{Block, Declaration, Expr, Name, Right, Stmt, StmtKind, ValueType};
use vx_tokens::{Symbol, Word};

pub fn type_word(of: ValueType) -> Word
    ensures { result ≡ type_word of }
{
    match of {
        ValueType::Int => Word::Int,
        ValueType::Bool => Word::Bool,
        ValueType::Ref => Word::Ref,
        ValueType::Perm => Word::Perm,
    }
}

/// Writes a name, a colon and a type.
pub fn put_declaration(out: &mut String, d: &Declaration) -> Result<(), AllocError>
    ensures { OnOk result (string_bytes out.new ≡ behind (string_bytes out.old) (canonical.declaration_tokens (written_declaration d.now))) }
{
    put_name(out, &d.name)?;
    put_sign(out, Symbol::Colon)?;
    put_word(out, type_word(d.value_type))
}

// A comma and a name.
fn put_next(out: &mut String, x: &Name) -> Result<(), AllocError>
    ensures { OnOk result (string_bytes out.new ≡ behind (string_bytes out.old) (canonical.next_name (name_of x.now))) }
{
    put_sign(out, Symbol::Comma)?;
    put_name(out, x)
}

// With a comma between two.
#[tactic(auto, using(crate::proofs::Behind::behind_append))]
fn put_names(out: &mut String, names: &[Name]) -> Result<(), AllocError>
    ensures { OnOk result (string_bytes out.new ≡ behind (string_bytes out.old) (canonical.names_tokens (map name_of names.now))) }
{
    let Some((first, rest)) = names.split_first() else {
        return Ok(());
    };
    put_name(out, first)?;
    for x in rest {
        put_next(out, x)?;
    }
    Ok(())
}

#[tactic(auto, using(crate::proofs::Behind::behind_append))]
fn put_right(out: &mut String, right: &Right) -> Result<(), AllocError>
    ensures { OnOk result (string_bytes out.new ≡ behind (string_bytes out.old) (canonical.right_tokens (written_right right.now))) }
{
    match right {
        Right::Value(e) => put_whole(out, e),
        Right::NewAll(_) => {
            put_word(out, Word::New)?;
            put_sign(out, Symbol::Open)?;
            put_sign(out, Symbol::Times)?;
            put_sign(out, Symbol::Close)
        }
        Right::New(_, fields) => {
            put_word(out, Word::New)?;
            put_sign(out, Symbol::Open)?;
            put_names(out, fields)?;
            put_sign(out, Symbol::Close)
        }
    }
}

#[tactic(auto, using(crate::proofs::Behind::behind_append))]
fn put_initial(out: &mut String, right: &Option<Right>) -> Result<(), AllocError>
    ensures { OnOk result (string_bytes out.new ≡ behind (string_bytes out.old) (canonical.initial_tokens (optional_right right.now))) }
{
    match right {
        None => Ok(()),
        Some(right) => {
            put_sign(out, Symbol::Becomes)?;
            put_right(out, right)
        }
    }
}

#[tactic(auto, using(crate::proofs::Behind::behind_append))]
fn put_targets(out: &mut String, names: &[Name]) -> Result<(), AllocError>
    ensures { OnOk result (string_bytes out.new ≡ behind (string_bytes out.old) (canonical.targets_tokens (map name_of names.now))) }
{
    if names.is_empty() {
        return Ok(());
    }
    put_names(out, names)?;
    put_sign(out, Symbol::Becomes)?;
    Ok(())
}

/// Writes an expression behind the word.
#[tactic(auto, using(crate::proofs::Behind::behind_append))]
pub fn put_clause(out: &mut String, word: Word, e: &Expr) -> Result<(), AllocError>
    ensures { OnOk result (string_bytes out.new ≡ behind (string_bytes out.old) (canonical.clause_tokens word (written_expr e.now))) }
{
    put_word(out, word)?;
    put_whole(out, e)
}

#[tactic(auto, using(crate::proofs::Behind::behind_append))]
fn put_invariants(out: &mut String, es: &[Rc<Expr>]) -> Result<(), AllocError>
    ensures { OnOk result (string_bytes out.new ≡ behind (string_bytes out.old) (canonical.invariants_tokens (written_all es.now))) }
{
    for e in es {
        put_clause(out, Word::Invariant, e)?;
    }
    Ok(())
}

// An expression between parentheses.
#[tactic(auto, using(crate::proofs::Behind::behind_append))]
fn put_condition(out: &mut String, e: &Expr) -> Result<(), AllocError>
    ensures { OnOk result (string_bytes out.new ≡ behind (string_bytes out.old) (canonical.parenthesized (canonical.whole_tokens (written_expr e.now)))) }
{
    put_sign(out, Symbol::Open)?;
    put_whole(out, e)?;
    put_sign(out, Symbol::Close)
}

// One statement.
#[cycle(stmt)]
#[tactic(auto, using(crate::proofs::Behind::behind_append))]
fn put_stmt(out: &mut String, s: &Stmt) -> Result<(), AllocError>
    ensures { OnOk result (string_bytes out.new ≡ behind (string_bytes out.old) (canonical.stmt_tokens (written_stmt s.now.place s.now.kind))) }
{
    match &s.kind {
        StmtKind::Declare(d, right) => {
            put_word(out, Word::Var)?;
            put_declaration(out, d)?;
            put_initial(out, right)
        }
        StmtKind::Assign(x, right) => {
            put_name(out, x)?;
            put_sign(out, Symbol::Becomes)?;
            put_right(out, right)
        }
        StmtKind::Write(e, f, value) => {
            put_read(out, e, f)?;
            put_sign(out, Symbol::Becomes)?;
            put_whole(out, value)
        }
        StmtKind::Call(targets, m, es) => {
            put_targets(out, targets)?;
            put_applied(out, &m.text, es)
        }
        StmtKind::Inhale(e) => put_clause(out, Word::Inhale, e),
        StmtKind::Exhale(e) => put_clause(out, Word::Exhale, e),
        StmtKind::Assert(e) => put_clause(out, Word::Assert, e),
        StmtKind::Assume(e) => put_clause(out, Word::Assume, e),
        StmtKind::Fold(i) => {
            put_word(out, Word::Fold)?;
            put_instance(out, i)
        }
        StmtKind::Unfold(i) => {
            put_word(out, Word::Unfold)?;
            put_instance(out, i)
        }
        StmtKind::If(e, a, b) => {
            put_word(out, Word::If)?;
            put_condition(out, e)?;
            put_block(out, a)?;
            put_other(out, b)
        }
        StmtKind::While(e, invariants, b) => {
            put_word(out, Word::While)?;
            put_condition(out, e)?;
            put_invariants(out, invariants)?;
            put_block(out, b)
        }
    }
}

/// Writes a block between braces.
#[cycle(stmt)]
#[tactic(auto, using(crate::proofs::Behind::behind_append))]
pub fn put_block(out: &mut String, b: &Block) -> Result<(), AllocError>
    ensures { OnOk result (string_bytes out.new ≡ behind (string_bytes out.old) (canonical.braced (canonical.block_tokens (written_block b.now)))) }
{
    put_sign(out, Symbol::OpenBrace)?;
    put_stmts(out, &b.statements)?;
    put_sign(out, Symbol::CloseBrace)?;
    Ok(())
}

#[cycle(stmt)]
#[tactic(auto, using(crate::proofs::Behind::behind_append))]
fn put_stmts(out: &mut String, all: &[Stmt]) -> Result<(), AllocError>
    ensures { OnOk result (string_bytes out.new ≡ behind (string_bytes out.old) (canonical.block_tokens (statements all.now))) }
{
    for s in all {
        put_stmt(out, s)?;
    }
    Ok(())
}

// The other side of an `if`, or none.
#[cycle(stmt)]
fn put_other(out: &mut String, other: &Option<Rc<Block>>) -> Result<(), AllocError>
    ensures { OnOk result (string_bytes out.new ≡ behind (string_bytes out.old) (canonical.other_tokens (other_of other.now))) }
{
    match other {
        None => Ok(()),
        Some(b) => put_else(out, b),
    }
}

#[cycle(stmt)]
#[tactic(auto, using(crate::proofs::Behind::behind_append))]
fn put_else(out: &mut String, other: &Block) -> Result<(), AllocError>
    ensures { OnOk result (string_bytes out.new ≡ behind (string_bytes out.old) (canonical.else_tokens (written_block other.now))) }
{
    match other.statements.as_slice() {
        [only] => {
            put_alone(out, only)?;
            Ok(())
        }
        _ => {
            put_word(out, Word::Else)?;
            put_block(out, other)?;
            Ok(())
        }
    }
}

// The other side of an `if` that is one statement.
#[cycle(stmt)]
#[tactic(auto, using(crate::proofs::Behind::behind_append))]
fn put_alone(out: &mut String, s: &Stmt) -> Result<(), AllocError>
    ensures { OnOk result (string_bytes out.new ≡ behind (string_bytes out.old) (canonical.else_tokens (Then (written_stmt s.now.place s.now.kind) Done))) }
{
    match &s.kind {
        StmtKind::If(e, a, b) => {
            put_word(out, Word::Elseif)?;
            put_condition(out, e)?;
            put_block(out, a)?;
            put_other(out, b)
        }
        StmtKind::Declare(_, _) => put_only(out, s),
        StmtKind::Assign(_, _) => put_only(out, s),
        StmtKind::Write(_, _, _) => put_only(out, s),
        StmtKind::Call(_, _, _) => put_only(out, s),
        StmtKind::Inhale(_) => put_only(out, s),
        StmtKind::Exhale(_) => put_only(out, s),
        StmtKind::Assert(_) => put_only(out, s),
        StmtKind::Assume(_) => put_only(out, s),
        StmtKind::Fold(_) => put_only(out, s),
        StmtKind::Unfold(_) => put_only(out, s),
        StmtKind::While(_, _, _) => put_only(out, s),
    }
}

// `else` and a block of one statement.
#[cycle(stmt)]
#[tactic(auto, using(crate::proofs::Behind::behind_append))]
fn put_only(out: &mut String, s: &Stmt) -> Result<(), AllocError>
    ensures { OnOk result (string_bytes out.new ≡ behind (string_bytes out.old) (canonical.else_block (Then (written_stmt s.now.place s.now.kind) Done))) }
{
    put_word(out, Word::Else)?;
    put_sign(out, Symbol::OpenBrace)?;
    put_stmt(out, s)?;
    put_sign(out, Symbol::CloseBrace)
}
