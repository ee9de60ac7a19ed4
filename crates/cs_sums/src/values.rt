//! Values of columns: a number for the small one that bounds are beyond.
ghost use Rattle.std.specs.Prelude.{◌≡◌, ◌<◌, ℕ, Some, IfOk, IfSome, IfNone, slice_get};
ghost use Rattle.vx_frac.specs.Fraction.{fraction};
ghost use Rattle.vx_frac.specs.declared.Frac.{Frac};
ghost use Rattle.cs_sums.specs.Parts.{part_of, AreParts, IsAlone, IsSumOf};
ghost use Rattle.cs_sums.specs.Splits.{IsMade, IsSplit, IsSplitAt, AreWhole};
ghost use Rattle.cs_sums.specs.Between.{LiesBetween};
ghost use Rattle.cs_sums.specs.Fractional.{IsFractional, IsFractionAt};

use crate::columns::{Columns, Origin};
use crate::stop::{Stop, floor, quotient};
use cs_farkas::Numbers;
use cs_linear::{Bound, Entry, Side, Tableau, Value};
use std::alloc::Global;
use vx_frac::Frac;

/// A sum of Int terms, each with a factor, which is at most a whole number or at least the next; a value between the two that
/// it can't have; and whether the first of the two is to be tried first.
#[derive(Drop)]
pub struct Split {
    pub parts: Vec<(u32, i128)>,
    pub value: Frac,
    pub floor: i128,
    pub low: bool,
    ghost between: { LiesBetween floor (fraction value) },
}

/// The value of a column.
fn value_of(tableau: &Tableau, column: u32) -> Result<Value, Stop> {
    if column as usize >= tableau.width() {
        return Err(Stop::Miss);
    }
    Ok(tableau.value(column))
}

/// How far a value is from a limit that it is beyond: by a number, and by how many small ones too few.
fn apart(bound: Bound, value: Value) -> Result<(Frac, Frac), Stop> {
    let (low, high) = match bound.side {
        Side::AtLeast => (bound.limit, value),
        Side::AtMost => (value, bound.limit),
    };
    Ok((high.main.sub(low.main)?, low.delta.sub(high.delta)?))
}

/// A number for the small one with which a bound is kept: this one, or a smaller one.
fn within(small: Frac, bound: Bound, value: Value) -> Result<Frac, Stop> {
    let (number, deltas) = apart(bound, value)?;
    if number.num() <= 0 || deltas.num() <= 0 {
        return Ok(small);
    }
    let most = quotient(number, deltas)?;
    if most.is_less(small) {
        return Ok(most);
    }
    Ok(small)
}

/// A number for the small one with which all bounds are kept.
///
/// # Errors
/// `Over` where a fraction leaves 128 bits; `Miss` where a bound is of no column.
pub fn small_of(tableau: &Tableau, bounds: &[Bound]) -> Result<Frac, Stop> {
    let mut small = Frac::whole(1);
    for bound in bounds {
        small = within(small, *bound, value_of(tableau, bound.column)?)?;
    }
    Ok(small)
}

/// The values of all columns, with a number for the small one.
///
/// # Errors
/// `Over` where a fraction leaves 128 bits; `Want` where memory runs out.
pub fn values_of(alloc: Global, tableau: &Tableau, small: Frac) -> Result<Vec<Frac>, Stop> {
    let mut all = Vec::new(alloc);
    let Ok(width) = u32::try_from(tableau.width()) else {
        return Err(Stop::Want);
    };
    for column in 0..width {
        let value = value_of(tableau, column)?;
        all.push(value.main.add(value.delta.mul(small)?)?)?;
    }
    Ok(all)
}

/// A column of a term is a part of a split.
fn part_of(columns: &Columns, entry: Entry) -> Result<(u32, i128), Stop>
    ensures { IfOk result (λ part. part_of (slice_get columns.now.columns.items entry.column) entry ≡ Some part) }
{
    let Some(column) = columns.columns.get(entry.column as usize) else {
        return Err(Stop::Miss);
    };
    match column.origin {
        Origin::Term(term) => Ok((term, entry.factor.num())),
        Origin::Sum(_) => Err(Stop::Miss),
    }
}

/// The terms of a sum, with their factors.
///
/// # Errors
/// `Miss` where a column isn't that of a term; `Want` where memory runs out.
pub fn parts_of(
    alloc: Global,
    columns: &Columns,
    entries: &[Entry],
) -> Result<Vec<(u32, i128)>, Stop>
    ensures { IfOk result (λ parts. AreParts columns.now.columns.items entries.now parts.items) }
{
    let mut parts = Vec::new(alloc);
    for entry in entries {
        parts.push(part_of(columns, *entry)?)?;
    }
    Ok(parts)
}

/// The value of a column, if it is one of Int and no whole number.
fn fraction_at(columns: &Columns, values: &[Frac], column: u32) -> Option<Frac>
    ensures found { IfSome result (λ value. IsFractionAt columns.now.columns.items values.now column value) }
    ensures whole { IfNone result ((value : Frac) → ¬ (IsFractionAt columns.now.columns.items values.now column value)) }
{
    let of = columns.columns.get(column as usize)?;
    let value = *values.get(column as usize)?;
    match of.numbers {
        Numbers::Int if value.den() != 1 => Some(value),
        _ => None,
    }
}

/// The split of a sum at a value that is no whole number.
#[tactic(auto, using(crate::proofs::Floors::parts_it))]
pub fn split_at(parts: Vec<(u32, i128)>, value: Frac, low: bool) -> Split
    requires { IsFractional (fraction value) }
    ensures value { result.value ≡ value }
    ensures parts { result.parts ≡ parts }
{
    Split {
        parts,
        value,
        floor: floor(value),
        low,
    }
}

/// The split of a sum at its value, which is no whole number: nearer to 0 first.
fn between(parts: Vec<(u32, i128)>, value: Frac) -> Split
    requires { IsFractional (fraction value) }
    ensures value { result.value ≡ value }
    ensures parts { result.parts ≡ parts }
{
    split_at(parts, value, value.num() >= 0)
}

/// A column as a sum of itself.
fn alone(alloc: Global, columns: &Columns, column: u32) -> Result<Vec<(u32, i128)>, Stop>
    ensures { IfOk result (λ parts. IsAlone columns.now.columns.items column parts.items) }
{
    let entry = Entry {
        column,
        factor: Frac::whole(1),
    };
    parts_of(alloc, columns, &[entry])
}

/// The terms that make the column of the sum at a place, with their factors.
fn summed(
    alloc: Global,
    columns: &Columns,
    column: u32,
    at: usize,
) -> Result<Vec<(u32, i128)>, Stop>
    ensures { IfOk result (λ parts. IsSumOf columns.now.columns.items columns.now.sums.items column parts.items) }
{
    match columns.sums.get(at) {
        Some(named) if named.column == column => parts_of(alloc, columns, &named.entries),
        _ => Err(Stop::Miss),
    }
}

/// The terms that make a column, with their factors.
fn parts_at(alloc: Global, columns: &Columns, column: u32) -> Result<Vec<(u32, i128)>, Stop>
    ensures { IfOk result (λ parts. IsMade columns.now column parts.items) }
{
    let Some(of) = columns.columns.get(column as usize) else {
        return Err(Stop::Miss);
    };
    match of.origin {
        Origin::Term(_) => alone(alloc, columns, column),
        Origin::Sum(at) => summed(alloc, columns, column, at),
    }
}

/// The split of a column, if it is of Int and its value is no whole number.
///
/// # Errors
/// `Miss` where it is that of a sum with a column that isn't that of a term; `Want` where memory runs out.
pub fn split_of_column(
    alloc: Global,
    columns: &Columns,
    values: &[Frac],
    column: u32,
) -> Result<Option<Split>, Stop>
    ensures split { IfOk result (λ found. IfSome found (λ split. IsSplitAt columns.now values.now column split.parts.items split.value)) }
    ensures whole { IfOk result (λ found. IfNone found ((value : Frac) → ¬ (IsFractionAt columns.now.columns.items values.now column value))) }
{
    let Some(value) = fraction_at(columns, values, column) else {
        return Ok(None);
    };
    let parts = parts_at(alloc, columns, column)?;
    Ok(Some(between(parts, value)))
}

/// The split of the first column of Int whose value is no whole number, if there is one.
///
/// # Errors
/// `Miss` where a sum has a column that isn't that of a term; `Want` where memory runs out.
pub fn split_of(alloc: Global, columns: &Columns, values: &[Frac]) -> Result<Option<Split>, Stop>
    ensures split { IfOk result (λ found. IfSome found (λ split. IsSplit columns.now values.now split.parts.items split.value)) }
    ensures whole { IfOk result (λ found. IfNone found (AreWhole columns.now values.now)) }
{
    let Ok(width) = u32::try_from(columns.columns.len()) else {
        return Err(Stop::Want);
    };
    for column in 0..width {
        if let Some(split) = split_of_column(alloc, columns, values, column)? {
            return Ok(Some(split));
        }
    }
    Ok(None)
}
