//! The columns of terms and of sums.
ghost use Rattle.std.specs.Prelude.{◌≡◌, ◌<◌, IsTrue, length};
ghost use Rattle.std.specs.List.{All};

use crate::stop::Stop;
use crate::sum::{Sum, primitive};
use cs_farkas::Numbers;
use cs_index::{Index, mix};
use cs_linear::{Entry, Tableau};
use std::alloc::Global;
use vx_frac::Frac;

/// What a column stands for: the term of a number, or the sum at a place.
#[derive(Clone, Copy)]
pub enum Origin {
    Term(u32),
    Sum(usize),
}

/// A column's origin and sort.
#[derive(Clone, Copy)]
pub struct Column {
    pub origin: Origin,
    pub numbers: Numbers,
}

/// A sum of columns, which has a column of its own.
#[derive(Drop)]
pub struct Named {
    pub entries: Vec<Entry>,
    pub column: u32,
}

/// A factor times a column, if there is one, and a constant.
#[derive(Clone, Copy)]
pub struct Line {
    pub column: Option<u32>,
    pub factor: Frac,
    pub constant: Frac,
}

/// The tableau, and what its columns stand for.
#[derive(Drop)]
pub struct Columns {
    pub tableau: Tableau,
    pub columns: Vec<Column>,
    pub sums: Vec<Named>,
    // whether a column is that of a product
    pub has_products: bool,
    // by terms: their columns
    of_terms: Vec<Option<u32>>,
    // the sums by their columns
    index: Index,
}

/// Whether all entries are of columns below a width.
fn are_known(entries: &[Entry], width: usize) -> bool
    ensures { IsTrue result → All (λ e. e.column < width) entries.now }
{
    for entry in entries {
        if entry.column as usize >= width {
            return false;
        }
    }
    true
}

fn is_same(left: &[Entry], right: &[Entry]) -> bool {
    left.len() == right.len()
        && left
            .iter()
            .zip(right)
            .all(|(a, b)| a.column == b.column && a.factor == b.factor)
}

fn key_of(entries: &[Entry]) -> u64 {
    let mut key = 0;
    for entry in entries {
        key = mix(key, u64::from(entry.column));
    }
    key
}

impl Columns {
    /// No columns.
    pub fn new(alloc: Global) -> Columns {
        Columns {
            tableau: Tableau::new(alloc),
            columns: Vec::new(alloc),
            sums: Vec::new(alloc),
            has_products: false,
            of_terms: Vec::new(alloc),
            index: Index::new(alloc),
        }
    }

    /// The column of a term, if it has one.
    pub fn find(&self, term: u32) -> Option<u32> {
        *self.of_terms.get(term as usize)?
    }

    /// Makes room for a term.
    fn reach(&mut self, term: u32) -> Result<(), Stop> {
        for _ in self.of_terms.len()..=term as usize {
            self.of_terms.push(None)?;
        }
        Ok(())
    }

    /// A new free column.
    fn free(&mut self) -> Result<u32, Stop> {
        if self.tableau.width() >= u32::MAX as usize {
            return Err(Stop::Want);
        }
        Ok(self.tableau.add_column()?)
    }

    /// A new column that is a sum.
    fn basic(&mut self, alloc: Global, entries: &[Entry]) -> Result<u32, Stop> {
        if self.tableau.width() >= u32::MAX as usize {
            return Err(Stop::Want);
        }
        if !are_known(entries, self.tableau.width()) {
            return Err(Stop::Miss);
        }
        Ok(self.tableau.add_row(alloc, entries)?)
    }

    /// The column of a term, which gets one if it has none.
    ///
    /// # Errors
    /// `Want` where memory runs out.
    pub fn column_of(&mut self, numbers: Numbers, term: u32) -> Result<u32, Stop> {
        if let Some(column) = self.find(term) {
            return Ok(column);
        }
        self.reach(term)?;
        let column = self.free()?;
        self.columns.push(Column {
            origin: Origin::Term(term),
            numbers,
        })?;
        if let Some(place) = self.of_terms.get_mut(term as usize) {
            *place = Some(column);
        }
        Ok(column)
    }

    /// The column of a sum, if it has one.
    fn find_sum(&self, key: u64, entries: &[Entry]) -> Option<u32> {
        for at in self.index.under(key) {
            if let Some(named) = self.sums.get(*at as usize) {
                if is_same(&named.entries, entries) {
                    return Some(named.column);
                }
            }
        }
        None
    }

    /// The column of a sum, which gets one if it has none.
    fn column_of_sum(
        &mut self,
        alloc: Global,
        numbers: Numbers,
        entries: Vec<Entry>,
    ) -> Result<u32, Stop> {
        let key = key_of(&entries);
        if let Some(column) = self.find_sum(key, &entries) {
            return Ok(column);
        }
        let Ok(at) = u32::try_from(self.sums.len()) else {
            return Err(Stop::Want);
        };
        let column = self.basic(alloc, &entries)?;
        self.columns.push(Column {
            origin: Origin::Sum(at as usize),
            numbers,
        })?;
        self.sums.push(Named { entries, column })?;
        self.index.add(key, at)?;
        Ok(column)
    }

    /// A tidy sum as a line.
    ///
    /// # Errors
    /// `Over` where a fraction leaves 128 bits; `Want` where memory runs out.
    pub fn line_of(&mut self, alloc: Global, numbers: Numbers, sum: &Sum) -> Result<Line, Stop> {
        match sum.entries.as_slice() {
            [] => Ok(Line {
                column: None,
                factor: Frac::whole(1),
                constant: sum.constant,
            }),
            [only] => Ok(Line {
                column: Some(only.column),
                factor: only.factor,
                constant: sum.constant,
            }),
            [first, ..] => {
                let (factor, entries) = primitive(alloc, numbers, *first, &sum.entries)?;
                Ok(Line {
                    column: Some(self.column_of_sum(alloc, numbers, entries)?),
                    factor,
                    constant: sum.constant,
                })
            }
        }
    }
}
