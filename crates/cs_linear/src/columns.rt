//! Columns, rows and bounds of a tableau, one more or taken back; and a pivot and a move, which keep what it stands for.
ghost use Rattle.std.specs.Prelude.{◌≡◌, ℕ, ◌<◌, ◌≤◌, ◌+◌, ◌^◌, ◌++◌, ◌∷◌, [], length, take, All, IfOk, IfErr, OnOk, OnErr, IfSome, Some, None, slice_get, pos};
ghost use Rattle.vx_frac.specs.Fraction.{fraction};
ghost use Rattle.cs_linear.specs.Numbers.{IsCause};
ghost use Rattle.cs_linear.specs.Rows.{IsTableau, IsFree, AreAlike, Solves, factor_at};
ghost use Rattle.cs_linear.specs.Values.{values, AreMoved};
ghost use Rattle.cs_linear.specs.Amounts.{amount};
ghost use Rattle.cs_linear.specs.Limits.{AreMarked};
ghost use Rattle.cs_linear.specs.Views.{width_of, rows_of, bounds_of, value_of};
ghost use Rattle.cs_linear.specs.Added.{IsAdded};
ghost use Rattle.std.specs.Vec.{vec_capacity};

use crate::add::{entries_of, expanded, total_of};
use crate::bounds::{Bound, Value};
use crate::numbers::{Stop, zero};
use crate::pivot::{rehome, solved, turn_all};
use crate::rows::{Entry, Row};
use crate::tableau::Tableau;
use crate::values::{carry_out, mark, moves};
use std::alloc::Global;
use vx_frac::Frac;

/// Puts an item behind a list that has room.
fn put<T: Drop>(list: &mut Vec<T>, item: T)
    requires { length list.old.items < vec_capacity list.old }
    ensures { list.new.items ≡ list.old.items ++ item ∷ [] }
{
    match list.push(item) {
        Ok(()) => {}
        Err(_) => unreachable!(),
    }
}

/// Makes room for one more row and column.
fn make_room(
    originals: &mut Vec<Row>,
    rows: &mut Vec<Row>,
    homes: &mut Vec<Option<usize>>,
    mains: &mut Vec<Frac>,
    deltas: &mut Vec<Frac>,
) -> Result<(), Stop>
    ensures originals { originals.new.items ≡ originals.old.items }
    ensures rows { rows.new.items ≡ rows.old.items }
    ensures homes { homes.new.items ≡ homes.old.items }
    ensures mains { mains.new.items ≡ mains.old.items }
    ensures deltas { deltas.new.items ≡ deltas.old.items }
    ensures room_for_original { OnOk result (length originals.new.items < vec_capacity originals.new) }
    ensures room_for_row { OnOk result (length rows.new.items < vec_capacity rows.new) }
    ensures room_for_home { OnOk result (length homes.new.items < vec_capacity homes.new) }
    ensures room_for_main { OnOk result (length mains.new.items < vec_capacity mains.new) }
    ensures room_for_delta { OnOk result (length deltas.new.items < vec_capacity deltas.new) }
    ensures cause { IfErr result IsCause }
{
    originals.reserve(1)?;
    rows.reserve(1)?;
    homes.reserve(1)?;
    mains.reserve(1)?;
    deltas.reserve(1)?;
    Ok(())
}

impl Tableau {
    /// A tableau with no columns.
    pub fn new(alloc: Global) -> Tableau
        ensures rows { rows_of result ≡ [] }
        ensures columns { width_of result ≡ 0 }
        ensures bounds { bounds_of result ≡ [] }
    {
        Tableau {
            originals: Vec::new(alloc),
            rows: Vec::new(alloc),
            homes: Vec::new(alloc),
            mains: Vec::new(alloc),
            deltas: Vec::new(alloc),
            bounds: Vec::new(alloc),
        }
    }

    /// Solves the row of a basic column for one of its free columns.
    pub(crate) fn pivot(
        &mut self,
        alloc: Global,
        at: usize,
        column: u32,
        factor: Frac,
    ) -> Result<(), Stop>
        requires row { at < length self.old.rows.items }
        requires column { IsFree self.old.homes.items column }
        requires factor { (r : Row) → slice_get self.old.rows.items at ≡ Some r → fraction factor ≡ factor_at r.entries.items column }
        requires some { ¬ ((fraction factor).numerator ≡ pos 0) }
        ensures rows { self.new.originals ≡ self.old.originals }
        ensures width { length self.new.homes.items ≡ length self.old.homes.items }
        ensures bounds { self.new.bounds ≡ self.old.bounds }
        ensures mains { self.new.mains ≡ self.old.mains }
        ensures deltas { self.new.deltas ≡ self.old.deltas }
        ensures cause { IfErr result IsCause }
    {
        let basic = self.rows[at].basic;
        let solved = solved(alloc, &self.rows[at], column, factor)?;
        turn_all(alloc, &mut self.rows, at, column, &solved)?;
        rehome(&mut self.homes, basic, column, at);
        Ok(())
    }

    /// Moves a free column by a number and a multiple of the small one, and the basic columns with it. Marks what moved.
    pub(crate) fn move_free(
        &mut self,
        alloc: Global,
        column: u32,
        main: Frac,
        delta: Frac,
        marks: &mut Vec<bool>,
    ) -> Result<(), Stop>
        requires free { IsFree self.old.homes.items column }
        requires marks { length marks.old.items ≡ length self.old.homes.items }
        ensures rows { self.new.originals ≡ self.old.originals }
        ensures now { self.new.rows ≡ self.old.rows }
        ensures homes { self.new.homes ≡ self.old.homes }
        ensures bounds { self.new.bounds ≡ self.old.bounds }
        ensures mains { OnOk result (AreMoved self.old.rows.items self.old.homes.items column (fraction main) self.old.mains.items self.new.mains.items) }
        ensures deltas { OnOk result (AreMoved self.old.rows.items self.old.homes.items column (fraction delta) self.old.deltas.items self.new.deltas.items) }
        ensures marked { AreMarked self.old.mains.items self.old.deltas.items self.new.mains.items self.new.deltas.items marks.old.items marks.new.items }
        ensures cause { IfErr result IsCause }
    {
        let mains = moves(alloc, &self.rows, column, main, &self.mains)?;
        let deltas = moves(alloc, &self.rows, column, delta, &self.deltas)?;
        carry_out(&mut self.mains, &mains);
        mark(marks, &mains);
        carry_out(&mut self.deltas, &deltas);
        mark(marks, &deltas);
        Ok(())
    }

    /// A new column, free and without bounds, of value 0.
    ///
    /// # Errors
    /// `Want`, and nothing changed.
    pub fn add_column(&mut self) -> Result<u32, Stop>
        requires { width_of self.old + 1 < 2 ^ 32 }
        ensures column { IfOk result (λ k. k ≡ width_of self.old) }
        ensures width { OnOk result (width_of self.new ≡ width_of self.old + 1) }
        ensures kept { OnErr result (width_of self.new ≡ width_of self.old) }
        ensures rows { rows_of self.new ≡ rows_of self.old }
        ensures bounds { bounds_of self.new ≡ bounds_of self.old }
        ensures cause { IfErr result IsCause }
        ensures values { OnOk result ((k : ℕ) → value_of self.new k ≡ value_of self.old k) }
    {
        self.homes.reserve(1)?;
        self.mains.reserve(1)?;
        self.deltas.reserve(1)?;
        let column = self.homes.len() as u32;
        put(&mut self.homes, None);
        put(&mut self.mains, zero());
        put(&mut self.deltas, zero());
        Ok(column)
    }

    /// A new column that is a sum of others, with the value of that sum.
    ///
    /// # Errors
    /// `Over` or `Want`, and nothing changed.
    pub fn add_row(&mut self, alloc: Global, sum: &[Entry]) -> Result<u32, Stop>
        requires few { width_of self.old + 1 < 2 ^ 32 }
        requires known { All (λ e. e.column < width_of self.old) sum.now }
        ensures column { IfOk result (λ k. k ≡ width_of self.old) }
        ensures width { OnOk result (width_of self.new ≡ width_of self.old + 1) }
        ensures row { OnOk result (IsAdded (rows_of self.old) (width_of self.old) sum.now (rows_of self.new)) }
        ensures kept { OnErr result (width_of self.new ≡ width_of self.old) }
        ensures kept_rows { OnErr result (rows_of self.new ≡ rows_of self.old) }
        ensures bounds { bounds_of self.new ≡ bounds_of self.old }
        ensures cause { IfErr result IsCause }
    {
        let entries = expanded(alloc, &self.rows, &self.homes, sum)?;
        let main = total_of(&entries, &self.mains)?;
        let delta = total_of(&entries, &self.deltas)?;
        let original = entries_of(alloc, sum)?;
        make_room(
            &mut self.originals,
            &mut self.rows,
            &mut self.homes,
            &mut self.mains,
            &mut self.deltas,
        )?;
        let basic = self.homes.len() as u32;
        let home = self.rows.len();
        put(
            &mut self.originals,
            Row {
                basic,
                entries: original,
            },
        );
        put(&mut self.rows, Row { basic, entries });
        put(&mut self.homes, Some(home));
        put(&mut self.mains, main);
        put(&mut self.deltas, delta);
        Ok(basic)
    }

    /// How many columns there are.
    pub fn width(&self) -> usize
        ensures { result ≡ width_of self.now }
    {
        self.homes.len()
    }

    /// Asserts a bound.
    ///
    /// # Errors
    /// `Want`, and nothing changed.
    pub fn assert_bound(&mut self, bound: Bound) -> Result<(), Stop>
        requires { bound.column < width_of self.old }
        ensures asserted { OnOk result (bounds_of self.new ≡ bounds_of self.old ++ bound ∷ []) }
        ensures kept { OnErr result (bounds_of self.new ≡ bounds_of self.old) }
        ensures rows { rows_of self.new ≡ rows_of self.old }
        ensures width { width_of self.new ≡ width_of self.old }
        ensures cause { IfErr result IsCause }
        ensures values { (k : ℕ) → value_of self.new k ≡ value_of self.old k }
    {
        self.bounds.push(bound)?;
        Ok(())
    }

    /// How many bounds stand, to come back to.
    pub fn mark(&self) -> usize
        ensures { result ≡ length (bounds_of self.now) }
    {
        self.bounds.len()
    }

    /// Takes the bounds back to the first so many; rows and values stay.
    pub fn back_to(&mut self, mark: usize)
        requires { mark ≤ length (bounds_of self.old) }
        ensures bounds { bounds_of self.new ≡ take mark (bounds_of self.old) }
        ensures rows { rows_of self.new ≡ rows_of self.old }
        ensures width { width_of self.new ≡ width_of self.old }
        ensures values { (k : ℕ) → value_of self.new k ≡ value_of self.old k }
    {
        self.bounds.truncate(mark);
    }

    /// The value of a column: a number, and a multiple of a small positive one.
    pub fn value(&self, column: u32) -> Value
        requires { column < width_of self.now }
        ensures { amount result ≡ value_of self.now column }
    {
        let at = column as usize;
        Value {
            main: self.mains[at],
            delta: self.deltas[at],
        }
    }
}
