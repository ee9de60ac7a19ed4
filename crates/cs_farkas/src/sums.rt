//! Sums of terms, each with a factor: they stop at the first fraction that leaves 128 bits.
ghost use Rattle.std.specs.Prelude.{◌≡◌, ◌<◌, length, slice_set, IfOk, IsTrue};
ghost use Rattle.cs_farkas.specs.Columns.{other_than_zero, others_in};

use crate::calls::{Break, plus, times};
use std::alloc::{AllocError, Global};
use vx_frac::Frac;

/// The sum without a column, and those of the columns by the numbers of their terms.
#[derive(Drop)]
pub struct Sums {
    constant: Frac,
    columns: Vec<Frac>,
    others: usize,
    ghost counted: { others ≡ others_in columns.items },
}

fn other_than_zero(sum: Frac) -> usize
    ensures { result ≡ other_than_zero sum }
{
    if sum.num() == 0 { 0 } else { 1 }
}

impl Sums {
    ghost use Rattle.vx_frac.specs.Fraction.{fraction};
    ghost use Rattle.cs_farkas.specs.Sums as clean;
    ghost use Rattle.std.specs.List.{list_all};
    ghost use Rattle.cs_farkas.specs.Rows.{cleared, is_zero};
    ghost use Rattle.cs_farkas.specs.Views.{Ends, sums, width, IsClear};

    /// Sums of 0, with so many columns.
    pub fn new(alloc: Global, columns: usize) -> Result<Sums, AllocError>
        ensures width { IfOk result (λ s. width s ≡ columns) }
        ensures clear { IfOk result IsClear }
    {
        Ok(Sums {
            constant: Frac::whole(0),
            columns: vec![in alloc; Frac::whole(0); columns]?,
            others: 0,
        })
    }

    /// Sets the constant to 0.
    pub fn begin(&mut self)
        requires { IsClear self.old }
        ensures value { sums self.new ≡ cleared (width self.old) }
        ensures width { width self.new ≡ width self.old }
    {
        self.constant = Frac::whole(0);
    }

    /// Whether each column is 0.
    pub fn is_clear(&self) -> bool
        ensures value { result ≡ list_all is_zero (sums self.now).columns }
        ensures clear { IsTrue result → IsClear self.now }
    {
        self.others == 0
    }

    /// The sum without a column.
    pub fn constant(&self) -> Frac
        ensures { fraction result ≡ (sums self.now).constant }
    {
        self.constant
    }

    /// Adds an amount times the multiplier to the constant.
    ///
    /// # Errors
    /// `Over` where a fraction leaves 128 bits.
    pub fn add_constant(&mut self, multiplier: Frac, amount: Frac) -> Result<(), Break>
        ensures value { Ends (λ u. sums self.new) result (clean.add_constant (fraction multiplier) (fraction amount) (sums self.old)) }
        ensures columns { self.new.columns ≡ self.old.columns }
    {
        let product = times(amount, multiplier)?;
        self.constant = plus(self.constant, product)?;
        Ok(())
    }

    /// Adds an amount times the multiplier to a column.
    ///
    /// # Errors
    /// `Over` where a fraction leaves 128 bits.
    pub fn add_column(&mut self, multiplier: Frac, amount: Frac, column: u32) -> Result<(), Break>
        requires { column < width self.old }
        ensures value { Ends (λ u. sums self.new) result (clean.add_column (fraction multiplier) (fraction amount) column (sums self.old)) }
        ensures len { width self.new ≡ width self.old }
    {
        let product = times(amount, multiplier)?;
        let at = column as usize;
        let before = self.columns[at];
        let after = plus(before, product)?;
        self.put(at, after);
        Ok(())
    }

    /// Writes the sum of a column.
    fn put(&mut self, at: usize, sum: Frac)
        requires { at < width self.old }
        ensures columns { self.new.columns.items ≡ slice_set self.old.columns.items at sum }
        ensures constant { self.new.constant ≡ self.old.constant }
    {
        let _width = self.columns.len();
        let before = self.columns[at];
        self.others = self.others - other_than_zero(before) + other_than_zero(sum);
        self.columns[at] = sum;
    }
}
