//! Which column of Int is split next.

use crate::limits::Limits;
use crate::{Columns, Origin};
use cs_farkas::Numbers;
use std::alloc::{AllocError, Global};
use vx_frac::Frac;

/// How often columns were split.
#[derive(Drop)]
pub struct Splits {
    counts: Vec<u32>,
}

/// What tells which of two columns is split first.
#[derive(Clone, Copy)]
struct Rank {
    // its value is its bound: so one of the two cases contradicts the bound, and the other one is a tighter bound
    is_bound: bool,
    is_sum: bool,
    splits: u32,
}

impl Splits {
    /// No column was split.
    pub fn new(alloc: Global) -> Splits {
        Splits {
            counts: Vec::new(alloc),
        }
    }

    /// How often a column was split.
    fn of(&self, column: u32) -> u32 {
        match self.counts.get(column as usize) {
            Some(count) => *count,
            None => 0,
        }
    }

    /// A column is split once more.
    ///
    /// # Errors
    /// Where memory runs out.
    pub fn add(&mut self, column: u32) -> Result<(), AllocError> {
        for _ in self.counts.len()..=column as usize {
            self.counts.push(0)?;
        }
        if let Some(count) = self.counts.get_mut(column as usize) {
            *count = count.saturating_add(1);
        }
        Ok(())
    }
}

impl Rank {
    /// Whether a column of this rank is split before one of another: those at their bounds first, and sums last; else those that were
    /// split least often.
    fn is_before(self, other: Rank) -> bool {
        if self.is_bound != other.is_bound {
            return self.is_bound;
        }
        if self.is_sum != other.is_sum {
            return other.is_sum;
        }
        self.splits < other.splits
    }
}

/// Whether a column is that of a sum.
fn is_sum(origin: Origin) -> bool {
    match origin {
        Origin::Term(_) => false,
        Origin::Sum(_) => true,
    }
}

/// The rank of a column, if it is of Int and its value is no whole number.
fn rank_of(
    columns: &Columns,
    limits: &Limits,
    splits: &Splits,
    values: &[Frac],
    column: u32,
) -> Option<Rank> {
    let of = columns.columns.get(column as usize)?;
    let value = *values.get(column as usize)?;
    if of.numbers != Numbers::Int || value.den() == 1 {
        return None;
    }
    Some(Rank {
        is_bound: limits.is_bound(column, value),
        is_sum: is_sum(of.origin),
        splits: splits.of(column),
    })
}

/// The column that is split next: the first one of those with the least rank, if any is of Int and its value is no whole number.
pub fn choice(columns: &Columns, limits: &Limits, splits: &Splits, values: &[Frac]) -> Option<u32> {
    let mut best: Option<(u32, Rank)> = None;
    for at in 0..columns.columns.len() {
        let column = u32::try_from(at).ok()?;
        if let Some(rank) = rank_of(columns, limits, splits, values, column) {
            match best {
                Some((_, least)) if !rank.is_before(least) => {}
                _ => best = Some((column, rank)),
            }
        }
    }
    let (column, _) = best?;
    Some(column)
}
