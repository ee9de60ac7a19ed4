//! Cuts: what a contradiction says of the sum of its splits, rounded to whole numbers.

use crate::constraints::Constraint;
use crate::{Columns, Named, Origin, Split, Stop, Sum, parts_of, primitive, quotient, split_at};
use cs_farkas::Numbers;
use cs_linear::Entry;
use std::alloc::Global;
use vx_frac::Frac;

/// A constraint of a contradiction, with its multiplier, and whether it comes from a split.
#[derive(Clone, Copy)]
pub struct Taken {
    pub constraint: Constraint,
    pub multiplier: Frac,
    pub of_split: bool,
}

/// Adds a sum times a factor, without its constant.
///
/// # Errors
/// `Over` where a factor leaves 128 bits; `Want` where memory runs out.
pub fn add_sum(to: &mut Sum, factor: Frac, entries: &[Entry]) -> Result<(), Stop> {
    for entry in entries {
        to.add(entry.column, factor.mul(entry.factor)?)?;
    }
    Ok(())
}

/// Adds a column times a factor, by the columns of its terms.
fn add_column(to: &mut Sum, columns: &Columns, factor: Frac, column: u32) -> Result<(), Stop> {
    let Some(of) = columns.columns.get(column as usize) else {
        return Err(Stop::Miss);
    };
    match of.origin {
        Origin::Term(_) => to.add(column, factor),
        Origin::Sum(at) => match columns.sums.get(at) {
            Some(Named { entries, .. }) => add_sum(to, factor, entries),
            None => Err(Stop::Miss),
        },
    }
}

/// Adds the constraints that come from splits, each with its multiplier; the constant is that of the others.
fn add_taken(to: &mut Sum, columns: &Columns, taken: &Taken) -> Result<(), Stop> {
    if !taken.of_split {
        let constant = taken.constraint.constant()?;
        return to.add_constant(taken.multiplier.mul(constant)?);
    }
    let line = taken.constraint.line;
    match line.column {
        Some(column) => add_column(to, columns, taken.multiplier.mul(line.factor)?, column),
        None => Ok(()),
    }
}

/// The sum of the constraints that come from splits, without their constants, and the constant of the others.
fn sum_of(alloc: Global, columns: &Columns, all: &[Taken]) -> Result<Sum, Stop> {
    let mut sum = Sum::new(alloc);
    for taken in all {
        add_taken(&mut sum, columns, taken)?;
    }
    sum.tidied(alloc)
}

/// Whether all the constraints are of Int.
fn are_whole(all: &[Taken]) -> bool {
    all.iter()
        .all(|taken| taken.constraint.numbers == Numbers::Int)
}

/// A number that makes all factors whole.
fn scale_of(entries: &[Entry]) -> Result<Frac, Stop> {
    let mut scale = Frac::whole(1);
    for entry in entries {
        let den = entry.factor.mul(scale)?.den();
        scale = scale.mul(Frac::whole(den))?;
    }
    Ok(scale)
}

/// A sum times a factor.
fn scaled(alloc: Global, sum: &Sum, factor: Frac) -> Result<Sum, Stop> {
    let mut all = Sum::new(alloc);
    add_sum(&mut all, factor, &sum.entries)?;
    all.add_constant(factor.mul(sum.constant)?)?;
    Ok(all)
}

/// The split that a contradiction of Int asks for: the constraints that don't come from splits say that the sum of those that do is at least a
/// number. Where that is none for whole numbers, the sum is at least the next one.
///
/// # Errors
/// `Over` where a fraction leaves 128 bits; `Want` where memory runs out.
pub fn cut_of(alloc: Global, columns: &Columns, all: &[Taken]) -> Result<Option<Split>, Stop> {
    if !are_whole(all) {
        return Ok(None);
    }
    let sum = sum_of(alloc, columns, all)?;
    let sum = scaled(alloc, &sum, scale_of(&sum.entries)?)?;
    let [first, _, ..] = sum.entries.as_slice() else {
        return Ok(None);
    };
    let (unit, entries) = primitive(alloc, Numbers::Int, *first, &sum.entries)?;
    let least = quotient(sum.constant, unit)?;
    if least.den() == 1 {
        return Ok(None);
    }
    let parts = parts_of(alloc, columns, &entries)?;
    Ok(Some(split_at(parts, least, unit.num() < 0)))
}
