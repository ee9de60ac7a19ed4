//! What bounds a choice between two literals: it is at least the lesser of them, and at most the greater. So a sum of such choices has bounds
//! before it is known which side each of them takes.

use crate::draft::Lemma;
use crate::numbered::{Record, written};
use cs_proof::Step;
use cs_table::{Head, Literal, Stop};
use std::alloc::Global;
use vx_frac::Frac;
use vx_terms::Operator;

/// A choice between two literals, and these.
#[derive(Clone, Copy)]
pub struct Choice {
    choice: u32,
    left: u32,
    right: u32,
}

/// A side that a choice isn't beyond, from below or from above.
#[derive(Clone, Copy)]
enum Bound {
    AtLeast(u32),
    AtMost(u32),
}

/// The number that a literal is.
fn value_of(record: &Record, number: u32) -> Result<Option<Frac>, Stop> {
    match &record.node(number)?.head {
        Head::Number(whole) if *whole != i128::MIN => Ok(Some(Frac::whole(*whole))),
        Head::Part(part) => Ok(Some(*part)),
        _ => Ok(None),
    }
}

/// Numbers the comparison that a bound is.
fn comparison(
    alloc: Global,
    record: &mut Record,
    choice: u32,
    bound: Bound,
) -> Result<Literal, Stop> {
    let number = match bound {
        Bound::AtLeast(low) => record.binary(alloc, Operator::LessEqual, low, choice)?,
        Bound::AtMost(high) => record.binary(alloc, Operator::LessEqual, choice, high)?,
    };
    Ok(Literal {
        positive: true,
        number,
    })
}

/// What an equality of a choice counts in the sum with the comparison that the bound denies: its difference as it is, or turned.
fn multiplier(record: &Record, choice: u32, equal: u32, bound: Bound) -> Result<Frac, Stop> {
    let Some((first, _)) = record.sides(equal)? else {
        return Err(Stop::Miss);
    };
    let is_turned = first != choice;
    let is_low = matches!(bound, Bound::AtLeast(_));
    Ok(Frac::whole(if is_turned == is_low { 1 } else { -1 }))
}

/// Where the choice is a side, it keeps the bound: a sum of the two.
fn hint_side(
    alloc: Global,
    record: &mut Record,
    hints: &mut Vec<u128>,
    choice: u32,
    side: u32,
    bound: Bound,
    kept: Literal,
) -> Result<(), Stop> {
    let equal = record.equality_of(alloc, choice, side)?;
    let away = Literal {
        positive: false,
        number: equal,
    };
    let literals = written(alloc, &[away, kept])?;
    let factor = multiplier(record, choice, equal, bound)?;
    let multipliers = vec![in alloc; factor, Frac::whole(1)]?;
    record.hint(hints, Step::Farkas(literals, multipliers))
}

/// The clause of a bound alone: each side keeps it, and the choice is one of its sides.
fn bounded(alloc: Global, record: &mut Record, of: Choice, bound: Bound) -> Result<Lemma, Stop> {
    let Choice {
        choice,
        left,
        right,
    } = of;
    let kept = comparison(alloc, record, choice, bound)?;
    let mut hints = Vec::new(alloc);
    hint_side(alloc, record, &mut hints, choice, left, bound, kept)?;
    hint_side(alloc, record, &mut hints, choice, right, bound, kept)?;
    record.hint(&mut hints, Step::Pick(u128::from(choice), 0))?;
    record.hint(&mut hints, Step::Pick(u128::from(choice), 1))?;
    let literals = vec![in alloc; kept]?;
    let number = record.propagate(alloc, &literals, hints)?;
    Ok(Lemma { literals, number })
}

/// Both bounds of a choice, if its sides are literals of numbers.
///
/// # Errors
/// `Miss` where a term has no number; `Want` where memory runs out.
pub fn bounds_of(
    alloc: Global,
    record: &mut Record,
    choice: u32,
    left: u32,
    right: u32,
) -> Result<Option<(Lemma, Lemma)>, Stop> {
    let (Some(first), Some(second)) = (value_of(record, left)?, value_of(record, right)?) else {
        return Ok(None);
    };
    let (low, high) = if first.is_less(second) {
        (left, right)
    } else {
        (right, left)
    };
    let of = Choice {
        choice,
        left,
        right,
    };
    let at_least = bounded(alloc, record, of, Bound::AtLeast(low))?;
    let at_most = bounded(alloc, record, of, Bound::AtMost(high))?;
    Ok(Some((at_least, at_most)))
}
