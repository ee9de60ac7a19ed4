//! Values of columns that may be others as well: they are spread, so that no two of them are equal by chance.

use crate::limits::Limits;
use crate::{Columns, Named, Origin, Stop, floor, turned};
use cs_farkas::Numbers;
use cs_linear::Entry;
use std::alloc::Global;
use vx_frac::Frac;

/// How far apart spread values are.
const STEP: i128 = 10_007;

fn mark(marks: &mut [bool], entry: Entry) {
    if let Some(place) = marks.get_mut(entry.column as usize) {
        *place = true;
    }
}

/// Marks the columns of a sum that has a bound.
fn mark_sum(marks: &mut [bool], limits: &Limits, sum: &Named) {
    let (lower, upper) = limits.sides(sum.column);
    if lower || upper {
        for entry in &sum.entries {
            mark(marks, *entry);
        }
    }
}

/// Which columns stand in a sum that has a bound.
fn tight(alloc: Global, columns: &Columns, limits: &Limits) -> Result<Vec<bool>, Stop> {
    let mut marks = vec![in alloc; false; columns.columns.len()]?;
    for sum in &columns.sums {
        mark_sum(&mut marks, limits, sum);
    }
    Ok(marks)
}

/// The next whole number at a value or above it; of Real the value.
fn above(numbers: Numbers, value: Frac) -> Result<Frac, Stop> {
    match numbers {
        Numbers::Int => turned(Frac::whole(floor(turned(value)?))),
        Numbers::Real => Ok(value),
    }
}

/// The next whole number at a value or below it; of Real the value.
fn below(numbers: Numbers, value: Frac) -> Result<Frac, Stop> {
    match numbers {
        Numbers::Int => Ok(Frac::whole(floor(value))),
        Numbers::Real => Ok(value),
    }
}

/// The value that a column gets which stands in no sum with a bound: the same where it is bounded on both sides.
fn moved(limits: &Limits, numbers: Numbers, column: u32, value: Frac) -> Result<Frac, Stop> {
    let apart = Frac::whole(i128::from(column).saturating_add(1).saturating_mul(STEP));
    match limits.sides(column) {
        (_, false) => Ok(above(numbers, value)?.add(apart)?),
        (false, true) => Ok(below(numbers, value)?.sub(apart)?),
        (true, true) => Ok(value),
    }
}

/// The value of a sum.
fn total(values: &[Frac], entries: &[Entry]) -> Result<Frac, Stop> {
    let mut total = Frac::whole(0);
    for entry in entries {
        let Some(value) = values.get(entry.column as usize) else {
            return Err(Stop::Miss);
        };
        total = total.add(entry.factor.mul(*value)?)?;
    }
    Ok(total)
}

fn set(values: &mut [Frac], column: u32, value: Frac) {
    if let Some(place) = values.get_mut(column as usize) {
        *place = value;
    }
}

/// Moves the value of the column of a term that stands in no sum with a bound.
fn move_one(
    values: &mut [Frac],
    columns: &Columns,
    limits: &Limits,
    marks: &[bool],
    column: u32,
) -> Result<(), Stop> {
    let (Some(of), Some(false), Some(value)) = (
        columns.columns.get(column as usize),
        marks.get(column as usize),
        values.get(column as usize),
    ) else {
        return Ok(());
    };
    if let Origin::Term(_) = of.origin {
        let value = moved(limits, of.numbers, column, *value)?;
        set(values, column, value);
    }
    Ok(())
}

/// The values of columns, of which those that no bound of a sum holds are spread.
fn spread_out(
    alloc: Global,
    columns: &Columns,
    limits: &Limits,
    values: &[Frac],
) -> Result<Vec<Frac>, Stop> {
    let mut values = values.to_vec(alloc)?;
    let marks = tight(alloc, columns, limits)?;
    let Ok(width) = u32::try_from(columns.columns.len()) else {
        return Err(Stop::Want);
    };
    for column in 0..width {
        move_one(&mut values, columns, limits, &marks, column)?;
    }
    for sum in &columns.sums {
        let value = total(&values, &sum.entries)?;
        set(&mut values, sum.column, value);
    }
    Ok(values)
}

/// Spreads the values of columns that no bound of a sum holds; bounds are met as before. Where there is a product of two terms
/// that aren't literals, the values stay: it may have its value by chance. They stay too where a spread one leaves 128 bits.
///
/// # Errors
/// `Want` where memory runs out.
pub fn spread(
    alloc: Global,
    columns: &Columns,
    limits: &Limits,
    values: &mut Vec<Frac>,
) -> Result<(), Stop> {
    if columns.has_products {
        return Ok(());
    }
    match spread_out(alloc, columns, limits, values) {
        Ok(spread) => *values = spread,
        Err(Stop::Over(_)) => {}
        Err(stop) => return Err(stop),
    }
    Ok(())
}
