//! Sums of columns, each with a factor, and a constant.

use crate::stop::{Stop, quotient};
use cs_farkas::Numbers;
use cs_linear::Entry;
use std::alloc::Global;
use vx_frac::Frac;

/// A sum of columns, each with a factor, and a constant.
#[derive(Drop)]
pub struct Sum {
    pub entries: Vec<Entry>,
    pub constant: Frac,
}

/// Puts an entry behind others, or adds it to the last one if that is of its column.
fn join(entries: &mut Vec<Entry>, entry: Entry) -> Result<(), Stop> {
    if let Some(last) = entries.last_mut() {
        if last.column == entry.column {
            last.factor = last.factor.add(entry.factor)?;
            return Ok(());
        }
    }
    entries.push(entry)?;
    Ok(())
}

/// The entries with factors other than 0.
fn nonzero(alloc: Global, entries: &[Entry]) -> Result<Vec<Entry>, Stop> {
    let mut rest = Vec::new(alloc);
    for entry in entries {
        if entry.factor.num() != 0 {
            rest.push(*entry)?;
        }
    }
    Ok(rest)
}

impl Sum {
    /// The sum of nothing.
    pub fn new(alloc: Global) -> Sum {
        Sum {
            entries: Vec::new(alloc),
            constant: Frac::whole(0),
        }
    }

    /// Adds a column times a factor.
    ///
    /// # Errors
    /// `Want` where memory runs out.
    pub fn add(&mut self, column: u32, factor: Frac) -> Result<(), Stop> {
        self.entries.push(Entry { column, factor })?;
        Ok(())
    }

    /// Adds a constant.
    ///
    /// # Errors
    /// `Over` where the constant leaves 128 bits.
    pub fn add_constant(&mut self, amount: Frac) -> Result<(), Stop> {
        self.constant = self.constant.add(amount)?;
        Ok(())
    }

    /// The same sum: its columns ascend, and none has the factor 0.
    ///
    /// # Errors
    /// `Over` where a factor leaves 128 bits; `Want` where memory runs out.
    pub fn tidied(mut self, alloc: Global) -> Result<Sum, Stop> {
        self.entries.sort_unstable_by_key(|entry| entry.column);
        let mut joined = Vec::new(alloc);
        for entry in &self.entries {
            join(&mut joined, *entry)?;
        }
        Ok(Sum {
            entries: nonzero(alloc, &joined)?,
            constant: self.constant,
        })
    }
}

/// The greatest common divisor of a number and one above 0.
fn common(a: i128, b: i128) -> Result<i128, Stop> {
    if b <= 0 {
        return Err(Stop::Miss);
    }
    match b.checked_div(Frac::new(a, b).den()) {
        Some(divisor) => Ok(divisor),
        None => Err(Stop::Miss),
    }
}

/// The greatest common divisor of the numerators, with the sign of the first one.
fn divisor_of(first: Frac, entries: &[Entry]) -> Result<Frac, Stop> {
    let Some(mut divisor) = first.num().checked_abs() else {
        return Ok(first);
    };
    for entry in entries {
        divisor = common(entry.factor.num(), divisor)?;
    }
    if first.num() < 0 {
        return crate::stop::turned(Frac::whole(divisor));
    }
    Ok(Frac::whole(divisor))
}

/// What a sum is divided by to be the one that stands for its multiples. Those of whole numbers have whole factors.
fn unit_of(numbers: Numbers, first: Entry, entries: &[Entry]) -> Result<Frac, Stop> {
    match numbers {
        Numbers::Int => divisor_of(first.factor, entries),
        Numbers::Real => Ok(first.factor),
    }
}

/// The entries over a fraction.
fn over(alloc: Global, entries: &[Entry], unit: Frac) -> Result<Vec<Entry>, Stop> {
    let mut all = Vec::new(alloc);
    for entry in entries {
        all.push(Entry {
            column: entry.column,
            factor: quotient(entry.factor, unit)?,
        })?;
    }
    Ok(all)
}

/// A factor, and the entries of which these are that multiple: the ones that stand for all multiples.
///
/// # Errors
/// `Over` where a factor leaves 128 bits; `Want` where memory runs out.
pub fn primitive(
    alloc: Global,
    numbers: Numbers,
    first: Entry,
    entries: &[Entry],
) -> Result<(Frac, Vec<Entry>), Stop> {
    let unit = unit_of(numbers, first, entries)?;
    Ok((unit, over(alloc, entries, unit)?))
}
