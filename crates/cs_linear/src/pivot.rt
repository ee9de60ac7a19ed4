//! Pivots: a row is solved for one of its free columns, which all others take from it.
ghost use Rattle.std.specs.Prelude.{◌≡◌, ◌<◌, length, IfOk, IfErr, OnOk, OnErr, pos};
ghost use Rattle.vx_frac.specs.Fraction.{fraction};
ghost use Rattle.cs_linear.specs.Numbers.{IsCause};
ghost use Rattle.cs_linear.specs.Rows.{factor_at, Ascends, AllAscend};
ghost use Rattle.cs_linear.specs.Pivots.{IsSolved, IsReplaced, IsTurned, AreTurned, ArePlanned, IsRehomed, chosen, written, carried};

use crate::numbers::{Stop, minus_one, reciprocal, times};
use crate::rows::{Entry, Row, add_multiple, factor_of, without};
use std::alloc::Global;
use vx_frac::Frac;

/// A row solved for one of its columns.
pub fn solved(alloc: Global, row: &Row, column: u32, factor: Frac) -> Result<Row, Stop>
    requires factor { fraction factor ≡ factor_at row.now.entries.items column }
    requires some { ¬ ((fraction factor).numerator ≡ pos 0) }
    ensures value { IfOk result (λ s. IsSolved row.now column s) }
    ensures cause { IfErr result IsCause }
{
    let inverse = reciprocal(factor)?;
    let negated = times(inverse, minus_one())?;
    let rest = without(alloc, &row.entries, column)?;
    let mut first = Vec::new(alloc);
    first.push(Entry {
        column: row.basic,
        factor: inverse,
    })?;
    let entries = add_multiple(alloc, &first, negated, &rest)?;
    Ok(Row {
        basic: column,
        entries,
    })
}

/// A row in which a solved column, which has this factor, is replaced by its sum.
fn replaced(alloc: Global, row: &Row, column: u32, factor: Frac, solved: &Row) -> Result<Row, Stop>
    requires basic { solved.now.basic ≡ column }
    requires factor { fraction factor ≡ factor_at row.now.entries.items column }
    ensures value { IfOk result (λ n. IsReplaced row.now column solved.now n) }
    ensures cause { IfErr result IsCause }
{
    let rest = without(alloc, &row.entries, column)?;
    let entries = add_multiple(alloc, &rest, factor, &solved.entries)?;
    Ok(Row {
        basic: row.basic,
        entries,
    })
}

/// The same row once more.
pub fn copied(row: &Row) -> Result<Row, Stop>
    ensures basic { IfOk result (λ n. n.basic ≡ row.now.basic) }
    ensures entries { IfOk result (λ n. n.entries.items ≡ row.now.entries.items) }
    ensures cause { IfErr result IsCause }
{
    let entries = row.entries.clone()?;
    Ok(Row {
        basic: row.basic,
        entries,
    })
}

/// What is to stand in the place of row i; nothing where it stays.
fn plan(
    alloc: Global,
    row: &Row,
    i: usize,
    at: usize,
    column: u32,
    solved: &Row,
) -> Result<Option<Row>, Stop>
    requires basic { solved.now.basic ≡ column }
    requires ascends { Ascends 0 row.now.entries.items }
    ensures value { IfOk result (λ o. IsTurned at column solved.now i row.now (chosen o row.now)) }
    ensures cause { IfErr result IsCause }
{
    if i == at {
        let row = copied(solved)?;
        return Ok(Some(row));
    }
    match factor_of(&row.entries, column) {
        None => Ok(None),
        Some(factor) => {
            let row = replaced(alloc, row, column, factor, solved)?;
            Ok(Some(row))
        }
    }
}

/// What is to stand in the place of each row.
fn plans(
    alloc: Global,
    rows: &[Row],
    at: usize,
    column: u32,
    solved: &Row,
) -> Result<Vec<Option<Row>>, Stop>
    requires basic { solved.now.basic ≡ column }
    requires ascend { AllAscend rows.now }
    ensures value { IfOk result (λ plans. ArePlanned at column solved.now rows.now plans.items) }
    ensures cause { IfErr result IsCause }
{
    let mut plans = Vec::new(alloc);
    for i in 0..rows.len() {
        plans.push(plan(alloc, &rows[i], i, at, column, solved)?)?;
    }
    Ok(plans)
}

/// Writes a row where one is planned.
fn write(rows: &mut Vec<Row>, i: usize, plan: Option<Row>)
    requires { i < length rows.old.items }
    ensures { rows.new.items ≡ written rows.old.items i plan }
{
    match plan {
        None => {}
        Some(row) => rows[i] = row,
    }
}

/// Writes all that is planned.
fn carry_out(rows: &mut Vec<Row>, plans: Vec<Option<Row>>)
    requires { length plans.items ≡ length rows.old.items }
    ensures { rows.new.items ≡ carried rows.old.items plans.items }
{
    let mut left = plans;
    while let Some(plan) = left.pop() {
        let i = left.len();
        write(rows, i, plan);
    }
}

/// Puts the solved row in its place, and its sum into all rows that mention its column; the others stay as they are.
pub fn turn_all(
    alloc: Global,
    rows: &mut Vec<Row>,
    at: usize,
    column: u32,
    solved: &Row,
) -> Result<(), Stop>
    requires basic { solved.now.basic ≡ column }
    requires ascend { AllAscend rows.old.items }
    ensures value { OnOk result (AreTurned at column solved.now rows.old.items rows.new.items) }
    ensures kept { OnErr result (rows.new.items ≡ rows.old.items) }
    ensures cause { IfErr result IsCause }
{
    let planned = plans(alloc, rows, at, column, solved)?;
    carry_out(rows, planned);
    Ok(())
}

/// One column is free now, and another one basic in its row.
pub fn rehome(homes: &mut Vec<Option<usize>>, free: u32, basic: u32, at: usize)
    requires free { free < length homes.old.items }
    requires basic { basic < length homes.old.items }
    ensures { IsRehomed homes.old.items free basic at homes.new.items }
{
    homes[free as usize] = None;
    homes[basic as usize] = Some(at);
}
