//! The tableau: rows, the values of all columns, and bounds.

ghost use Rattle.std.specs.Prelude.{◌≡◌, ◌<◌, ◌^◌, length, All};
ghost use Rattle.cs_linear.specs.Rows.{IsTableau, AreAlike, Solves};
ghost use Rattle.cs_linear.specs.Values.{values};

use crate::bounds::Bound;
use crate::rows::Row;
use vx_frac::Frac;

/// Columns with values, rows that make some of them sums of others, and what is asserted of them.
#[derive(Drop)]
pub struct Tableau {
    // the rows as they were added
    pub(crate) originals: Vec<Row>,
    // the same equations, solved for other columns
    pub(crate) rows: Vec<Row>,
    // the row of each basic column
    pub(crate) homes: Vec<Option<usize>>,
    // each value is a number and a multiple of a small positive one
    pub(crate) mains: Vec<Frac>,
    pub(crate) deltas: Vec<Frac>,
    pub(crate) bounds: Vec<Bound>,
    ghost few: { length homes.items < 2 ^ 32 },
    ghost same_mains: { length mains.items ≡ length homes.items },
    ghost same_deltas: { length deltas.items ≡ length homes.items },
    ghost tableau: { IsTableau rows.items homes.items },
    ghost alike: { AreAlike originals.items rows.items },
    ghost mains_solve: { Solves rows.items (values mains.items) },
    ghost deltas_solve: { Solves rows.items (values deltas.items) },
    ghost known: { All (λ b. b.column < length homes.items) bounds.items },
}
