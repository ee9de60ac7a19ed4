//! A walk over a function, for the members that its parts mention.

ghost use Rattle.std.specs.Prelude.{◌≡◌, ◌∷◌, [], ◌++◌, flat_map, OnOk, string_bytes};
ghost use Rattle.vx_ast.specs.Mentions.{mentioned, mentioned_in, mentioned_by, mentioned_by_function};
ghost use Rattle.vx_settling.specs.Found.{Finds};
ghost use Rattle.vx_settling.specs.Mentioned.{names_by_kind};
ghost use Rattle.vx_settling.specs.Tables.{listed};
ghost use Rattle.vx_resolved.specs.Resolved as resolved;

use crate::table::Table;
use std::alloc::AllocError;
use std::rc::Rc;
use vx_ast::MemberId;
use vx_resolved::{Assertion, Expr, Exprs, Function, Kind};

/// The members that a walk has come upon.
pub(crate) type Row = Vec<MemberId>;

// The first member of a name.
fn add_name(row: &mut Row, table: &Table, name: &Rc<String>) -> Result<(), AllocError>
    ensures { OnOk result (Finds (listed table.now) (string_bytes name.now.value ∷ []) row.old.items row.new.items) }
{
    match table.number_of(name) {
        None => Ok(()),
        Some(member) => {
            row.push(member)?;
            Ok(())
        }
    }
}

// What a list of expressions mentions.
#[cycle(exprs)]
fn add_exprs(row: &mut Row, table: &Table, es: &Exprs) -> Result<(), AllocError>
    ensures { OnOk result (Finds (listed table.now) (mentioned_in (resolved.exprs es.now)) row.old.items row.new.items) }
{
    let mut left = es;
    loop {
        match left {
            Exprs::NoMore => return Ok(()),
            Exprs::More(first, others) => {
                add_expr(row, table, first)?;
                left = others;
            }
        }
    }
}

// What an expression mentions.
#[cycle(exprs)]
fn add_expr(row: &mut Row, table: &Table, e: &Expr) -> Result<(), AllocError>
    ensures { OnOk result (Finds (listed table.now) (mentioned (resolved.expr e.now)) row.old.items row.new.items) }
{
    match e {
        Expr::Number(_, _)
        | Expr::Truth(_, _)
        | Expr::Null(_)
        | Expr::Part(_, _, _)
        | Expr::Variable(_, _) => Ok(()),
        Expr::Not(_, a) => add_expr(row, table, a),
        Expr::Operate(_, _, a, b) => {
            add_expr(row, table, a)?;
            add_expr(row, table, b)
        }
        Expr::Divide(_, _, a, b) => {
            add_expr(row, table, a)?;
            add_expr(row, table, b)
        }
        Expr::Connect(_, _, a, b) => {
            add_expr(row, table, a)?;
            add_expr(row, table, b)
        }
        Expr::Choose(_, c, a, b) => {
            add_expr(row, table, c)?;
            add_expr(row, table, a)?;
            add_expr(row, table, b)
        }
        Expr::Read(_, a, _) => add_expr(row, table, a),
        Expr::Old(_, a) => add_expr(row, table, a),
        Expr::Apply(_, f, es) => {
            add_name(row, table, f)?;
            add_exprs(row, table, es)
        }
        Expr::Unfolding(_, i, es, amount, a) => {
            add_name(row, table, i)?;
            add_exprs(row, table, es)?;
            add_expr(row, table, amount)?;
            add_expr(row, table, a)
        }
    }
}

// What an assertion mentions.
fn add_assertion(row: &mut Row, table: &Table, a: &Assertion) -> Result<(), AllocError>
    ensures { OnOk result (Finds (listed table.now) (mentioned_by (resolved.assertion a.now)) row.old.items row.new.items) }
{
    match a {
        Assertion::Pure(e) => add_expr(row, table, e),
        Assertion::Points(_, e, _, amount) => {
            add_expr(row, table, e)?;
            add_expr(row, table, amount)
        }
        Assertion::Instance(_, i, es, amount) => {
            add_name(row, table, i)?;
            add_exprs(row, table, es)?;
            add_expr(row, table, amount)
        }
        Assertion::Both(a, b) => {
            add_assertion(row, table, a)?;
            add_assertion(row, table, b)
        }
        Assertion::Implied(c, a) => {
            add_expr(row, table, c)?;
            add_assertion(row, table, a)
        }
        Assertion::Chosen(c, a, b) => {
            add_expr(row, table, c)?;
            add_assertion(row, table, a)?;
            add_assertion(row, table, b)
        }
    }
}

// What preconditions mention.
fn add_assertions(row: &mut Row, table: &Table, those: &[Rc<Assertion>]) -> Result<(), AllocError>
    ensures { OnOk result (Finds (listed table.now) (flat_map mentioned_by (resolved.assertions those.now)) row.old.items row.new.items) }
{
    for a in those {
        add_assertion(row, table, a)?;
    }
    Ok(())
}

// What postconditions mention.
fn add_expressions(row: &mut Row, table: &Table, those: &[Rc<Expr>]) -> Result<(), AllocError>
    ensures { OnOk result (Finds (listed table.now) (flat_map mentioned (resolved.expressions those.now)) row.old.items row.new.items) }
{
    for e in those {
        add_expr(row, table, e)?;
    }
    Ok(())
}

// What a function mentions: its measure doesn't count.
fn add_function(row: &mut Row, table: &Table, f: &Function) -> Result<(), AllocError>
    ensures { OnOk result (Finds (listed table.now) (mentioned_by_function (resolved.function f.now)) row.old.items row.new.items) }
{
    add_expr(row, table, &f.body)?;
    add_assertions(row, table, &f.preconditions)?;
    add_expressions(row, table, &f.postconditions)
}

/// What a member mentions as a function.
pub(crate) fn add_kind(row: &mut Row, table: &Table, kind: &Kind) -> Result<(), AllocError>
    ensures { OnOk result (Finds (listed table.now) (names_by_kind (resolved.kind kind.now)) row.old.items row.new.items) }
{
    match kind {
        Kind::Field(_) => Ok(()),
        Kind::Predicate(_) => Ok(()),
        Kind::Function(f) => add_function(row, table, f),
        Kind::Method(_) => Ok(()),
    }
}
