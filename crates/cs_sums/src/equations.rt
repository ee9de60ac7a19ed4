//! Equations among whole numbers. Where they have no whole solution, there is a sum with whole factors that they make no whole number.

use crate::cuts::add_sum;
use crate::limits::Limits;
use crate::{
    Columns, Named, Origin, Split, Stop, Sum, floor, parts_of, quotient, split_at, turned,
};
use cs_farkas::Numbers;
use cs_linear::Entry;
use std::alloc::Global;
use vx_frac::Frac;

/// No more equations than these are looked at.
const MOST: usize = 64;

/// So many exchanges are enough for an equation of numbers below 2^127, as the least factor falls to half of it in two.
const EXCHANGES: u32 = 256;

/// The whole solutions of some equations, by unknowns that may have any whole values.
#[derive(Drop)]
struct Solutions {
    // by columns: the sum of unknowns that a column is
    columns: Vec<Sum>,
    // by unknowns: the sum of columns that an unknown is
    unknowns: Vec<Sum>,
}

/// A column, or an unknown, as a sum.
fn single(alloc: Global, column: u32) -> Result<Sum, Stop> {
    let mut sum = Sum::new(alloc);
    sum.add(column, Frac::whole(1))?;
    Ok(sum)
}

/// Each of so many columns, or unknowns, as a sum of itself.
fn singles(alloc: Global, width: u32) -> Result<Vec<Sum>, Stop> {
    let mut all = Vec::new(alloc);
    for column in 0..width {
        all.push(single(alloc, column)?)?;
    }
    Ok(all)
}

/// Adds a sum times a factor, with its constant.
fn add_times(to: &mut Sum, factor: Frac, sum: &Sum) -> Result<(), Stop> {
    to.add_constant(factor.mul(sum.constant)?)?;
    add_sum(to, factor, &sum.entries)
}

/// The sum that each entry of another one is by these, each times its factor.
fn read(alloc: Global, by: &[Sum], sum: &Sum) -> Result<Sum, Stop> {
    let mut all = Sum::new(alloc);
    all.add_constant(sum.constant)?;
    for entry in &sum.entries {
        let Some(of) = by.get(entry.column as usize) else {
            return Err(Stop::Miss);
        };
        add_times(&mut all, entry.factor, of)?;
    }
    all.tidied(alloc)
}

/// The factor of an unknown in a sum.
fn factor_of(sum: &Sum, unknown: u32) -> Option<Frac> {
    for entry in &sum.entries {
        if entry.column == unknown {
            return Some(entry.factor);
        }
    }
    None
}

/// A sum with another sum in place of an unknown, if it has the unknown.
fn replaced(alloc: Global, sum: &Sum, unknown: u32, by: &Sum) -> Result<Option<Sum>, Stop> {
    let Some(factor) = factor_of(sum, unknown) else {
        return Ok(None);
    };
    let mut all = Sum::new(alloc);
    add_times(&mut all, Frac::whole(1), sum)?;
    all.add(unknown, turned(factor)?)?;
    add_times(&mut all, factor, by)?;
    Ok(Some(all.tidied(alloc)?))
}

/// The entry whose factor has the least size.
fn least(entries: &[Entry]) -> Option<Entry> {
    let mut least = *entries.first()?;
    for entry in entries {
        if entry.factor.num().unsigned_abs() < least.factor.num().unsigned_abs() {
            least = *entry;
        }
    }
    Some(least)
}

/// What stands in place of an unknown, so that the factors of the others in a sum become less than its own: a new unknown, less how
/// often its factor goes into theirs.
fn exchange(alloc: Global, sum: &Sum, of: Entry) -> Result<Sum, Stop> {
    let mut by = single(alloc, of.column)?;
    for entry in &sum.entries {
        if entry.column != of.column {
            let times = floor(quotient(entry.factor, of.factor)?);
            by.add(entry.column, turned(Frac::whole(times))?)?;
        }
    }
    by.tidied(alloc)
}

/// What a new unknown is by the old ones, of which one is this sum of the new one and others.
fn inverse(alloc: Global, by: &Sum, unknown: u32) -> Result<Sum, Stop> {
    let mut sum = Sum::new(alloc);
    for entry in &by.entries {
        if entry.column == unknown {
            sum.add(unknown, entry.factor)?;
        } else {
            sum.add(entry.column, turned(entry.factor)?)?;
        }
    }
    Ok(sum)
}

impl Solutions {
    /// All whole numbers.
    fn new(alloc: Global, columns: &Columns) -> Result<Solutions, Stop> {
        let Ok(width) = u32::try_from(columns.columns.len()) else {
            return Err(Stop::Want);
        };
        Ok(Solutions {
            columns: singles(alloc, width)?,
            unknowns: singles(alloc, width)?,
        })
    }

    /// Puts a sum in place of an unknown.
    fn replace(&mut self, alloc: Global, unknown: u32, by: &Sum) -> Result<(), Stop> {
        for sum in &mut self.columns {
            if let Some(other) = replaced(alloc, sum, unknown, by)? {
                *sum = other;
            }
        }
        Ok(())
    }

    /// Puts a new unknown in place of one, so that the other factors of a sum become less than its own. What the sum is then is given back.
    fn reduce(&mut self, alloc: Global, sum: &Sum, of: Entry) -> Result<Sum, Stop> {
        let by = exchange(alloc, sum, of)?;
        let own = read(alloc, &self.unknowns, &inverse(alloc, &by, of.column)?)?;
        if let Some(place) = self.unknowns.get_mut(of.column as usize) {
            *place = own;
        }
        self.replace(alloc, of.column, &by)?;
        match replaced(alloc, sum, of.column, &by)? {
            Some(rest) => Ok(rest),
            None => Err(Stop::Miss),
        }
    }

    /// A multiple of an unknown and a constant are 0: the unknown has a value, or there is no whole one.
    fn settle(
        &mut self,
        alloc: Global,
        columns: &Columns,
        of: Entry,
        constant: Frac,
    ) -> Result<Option<Split>, Stop> {
        let value = quotient(turned(constant)?, of.factor)?;
        if value.den() == 1 {
            let mut by = Sum::new(alloc);
            by.add_constant(value)?;
            self.replace(alloc, of.column, &by)?;
            return Ok(None);
        }
        let Some(own) = self.unknowns.get(of.column as usize) else {
            return Err(Stop::Miss);
        };
        let parts = parts_of(alloc, columns, &own.entries)?;
        Ok(Some(split_at(parts, value, value.num() >= 0)))
    }

    /// Keeps the solutions for which a sum of columns is 0. Where there is none, the split of a sum at its value tells why.
    fn solve(
        &mut self,
        alloc: Global,
        columns: &Columns,
        equation: &Sum,
    ) -> Result<Option<Split>, Stop> {
        let mut sum = read(alloc, &self.columns, equation)?;
        for _ in 0..EXCHANGES {
            if let [only] = sum.entries.as_slice() {
                let only = *only;
                return self.settle(alloc, columns, only, sum.constant);
            }
            let Some(of) = least(&sum.entries) else {
                return Ok(None);
            };
            sum = self.reduce(alloc, &sum, of)?;
        }
        Ok(None)
    }
}

/// That a column has a value, as a sum that is 0.
fn equation(alloc: Global, columns: &Columns, column: u32, value: Frac) -> Result<Sum, Stop> {
    let Some(of) = columns.columns.get(column as usize) else {
        return Err(Stop::Miss);
    };
    let mut sum = Sum::new(alloc);
    sum.add_constant(turned(value)?)?;
    match of.origin {
        Origin::Term(_) => sum.add(column, Frac::whole(1))?,
        Origin::Sum(at) => match columns.sums.get(at) {
            Some(Named { entries, .. }) => add_sum(&mut sum, Frac::whole(1), entries)?,
            None => return Err(Stop::Miss),
        },
    }
    Ok(sum)
}

/// The only value that its bounds leave a column of Int.
fn fixed(columns: &Columns, limits: &Limits, column: u32) -> Option<Frac> {
    match columns.columns.get(column as usize)?.numbers {
        Numbers::Int => limits.only(column),
        Numbers::Real => None,
    }
}

/// The columns of Int to which their bounds leave one value, as sums that are 0.
fn equations(alloc: Global, columns: &Columns, limits: &Limits) -> Result<Vec<Sum>, Stop> {
    let mut all = Vec::new(alloc);
    for at in 0..columns.columns.len() {
        let Ok(column) = u32::try_from(at) else {
            return Err(Stop::Want);
        };
        if let Some(value) = fixed(columns, limits, column) {
            all.push(equation(alloc, columns, column, value)?)?;
        }
    }
    Ok(all)
}

/// The split of a sum at a value that is no whole number, where the equations among whole numbers say that it has this value: so they
/// have no whole solution. Many equations are not looked at.
///
/// # Errors
/// `Over` where a fraction leaves 128 bits; `Want` where memory runs out.
pub fn unsolvable(
    alloc: Global,
    columns: &Columns,
    limits: &Limits,
) -> Result<Option<Split>, Stop> {
    let equations = equations(alloc, columns, limits)?;
    if equations.len() > MOST {
        return Ok(None);
    }
    let mut solutions = Solutions::new(alloc, columns)?;
    for equation in &equations {
        if let Some(split) = solutions.solve(alloc, columns, equation)? {
            return Ok(Some(split));
        }
    }
    Ok(None)
}
