//! Clauses that tell the cases of numbers: below, equal or above; at most a whole number or at least the next; and what a
//! quotient and a remainder are.

use crate::draft::Lemma;
use crate::numbered::Record;
use cs_proof::Step;
use cs_table::{Head, Literal, Stop, divide, split, trichotomy};
use std::alloc::Global;
use vx_terms::Operator;

/// Numbers the comparisons that `tri` names of two terms.
///
/// # Errors
/// `Miss` where a term has no number; `Want` where memory runs out.
pub fn name_order(alloc: Global, record: &mut Record, a: u32, b: u32) -> Result<(), Stop> {
    record.binary(alloc, Operator::Less, a, b)?;
    record.equality_of(alloc, a, b)?;
    record.binary(alloc, Operator::Less, b, a)?;
    Ok(())
}

/// Numbers the comparisons that `split` names of a term and a whole number.
///
/// # Errors
/// `Miss` where the term has no number, or the whole one none after it; `Want` where memory runs out.
pub fn name_split(alloc: Global, record: &mut Record, t: u32, number: i128) -> Result<(), Stop> {
    let Some(next) = number.checked_add(1) else {
        return Err(Stop::Miss);
    };
    let low = record.whole(alloc, number)?;
    record.binary(alloc, Operator::LessEqual, t, low)?;
    let high = record.whole(alloc, next)?;
    record.binary(alloc, Operator::LessEqual, high, t)?;
    Ok(())
}

/// Numbers what the row 0 of `div` names: that a is d times its quotient and the remainder.
fn name_whole(alloc: Global, record: &mut Record, a: u32, d: u32) -> Result<(), Stop> {
    let quotient = record.binary(alloc, Operator::Div, a, d)?;
    let product = record.binary(alloc, Operator::Multiply, d, quotient)?;
    let rest = record.binary(alloc, Operator::Mod, a, d)?;
    let sum = record.binary(alloc, Operator::Add, product, rest)?;
    record.equality_of(alloc, a, sum)?;
    Ok(())
}

/// Numbers what the row 1 of `div` names: that the remainder is at least 0.
fn name_low(alloc: Global, record: &mut Record, a: u32, d: u32) -> Result<(), Stop> {
    let rest = record.binary(alloc, Operator::Mod, a, d)?;
    let zero = record.whole(alloc, 0)?;
    record.binary(alloc, Operator::LessEqual, zero, rest)?;
    Ok(())
}

/// The size of the whole number that a term is.
fn size_of(record: &Record, d: u32) -> Result<i128, Stop> {
    match &record.node(d)?.head {
        Head::Number(number) => match number.checked_abs() {
            Some(size) => Ok(size),
            None => Err(Stop::Miss),
        },
        _ => Err(Stop::Miss),
    }
}

/// Numbers what the row 2 of `div` names: that the remainder is below the size of d.
fn name_high(alloc: Global, record: &mut Record, a: u32, d: u32) -> Result<(), Stop> {
    let rest = record.binary(alloc, Operator::Mod, a, d)?;
    let size = size_of(record, d)?;
    let size = record.whole(alloc, size)?;
    record.binary(alloc, Operator::Less, rest, size)?;
    Ok(())
}

/// Numbers what a row of `div` names.
///
/// # Errors
/// `Miss` where a term has no number, or there is no such row; `Want` where memory runs out.
pub fn name_division(
    alloc: Global,
    record: &mut Record,
    a: u32,
    d: u32,
    row: u128,
) -> Result<(), Stop> {
    match row {
        0 => name_whole(alloc, record, a, d),
        1 => name_low(alloc, record, a, d),
        2 => name_high(alloc, record, a, d),
        _ => Err(Stop::Miss),
    }
}

/// A step, with the clause that it derives.
fn derived(record: &mut Record, step: Step, literals: Vec<Literal>) -> Result<Lemma, Stop> {
    let number = record.derive(step)?;
    Ok(Lemma { literals, number })
}

/// One term is below another, equal to it or above it.
///
/// # Errors
/// `Miss` where the terms aren't both of Int or both of Real; `Want` where memory runs out.
pub fn order(alloc: Global, record: &mut Record, a: u32, b: u32) -> Result<Lemma, Stop> {
    name_order(alloc, record, a, b)?;
    let literals = trichotomy(alloc, &record.table, a, b)?;
    derived(
        record,
        Step::Trichotomy(u128::from(a), u128::from(b)),
        literals,
    )
}

/// A term times a factor.
fn multiple(alloc: Global, record: &mut Record, part: (u32, i128)) -> Result<u32, Stop> {
    let (term, factor) = part;
    if factor == 1 {
        return Ok(term);
    }
    let factor = record.whole(alloc, factor)?;
    record.binary(alloc, Operator::Multiply, factor, term)
}

/// The number of a sum of terms with factors.
fn name_sum(alloc: Global, record: &mut Record, parts: &[(u32, i128)]) -> Result<u32, Stop> {
    let Some((first, rest)) = parts.split_first() else {
        return Err(Stop::Miss);
    };
    let mut sum = multiple(alloc, record, *first)?;
    for part in rest {
        let term = multiple(alloc, record, *part)?;
        sum = record.binary(alloc, Operator::Add, sum, term)?;
    }
    Ok(sum)
}

/// A sum of Int terms is at most a whole number, or at least the next one.
///
/// # Errors
/// `Miss` where the terms aren't of Int; `Want` where memory runs out.
pub fn parted(
    alloc: Global,
    record: &mut Record,
    parts: &[(u32, i128)],
    floor: i128,
) -> Result<Lemma, Stop> {
    let t = name_sum(alloc, record, parts)?;
    name_split(alloc, record, t, floor)?;
    let literals = split(alloc, &record.table, t, floor)?;
    derived(record, Step::Split(u128::from(t), floor), literals)
}

/// A row of what the quotient and the remainder of a by d are.
///
/// # Errors
/// `Miss` where d isn't a whole number other than 0, or a isn't of Int; `Want` where memory runs out.
pub fn divided(
    alloc: Global,
    record: &mut Record,
    a: u32,
    d: u32,
    row: u32,
) -> Result<Lemma, Stop> {
    name_division(alloc, record, a, d, u128::from(row))?;
    let literals = divide(alloc, &record.table, a, d, row)?;
    let step = Step::Divide(u128::from(a), u128::from(d), u128::from(row));
    derived(record, step, literals)
}
