//! A row more: its sum over free columns, and the value of that sum.
ghost use Rattle.std.specs.Prelude.{◌≡◌, ◌<◌, length, List, All, IfOk, IfErr, slice_get, Some};
ghost use Rattle.vx_frac.specs.Fraction.{fraction};
ghost use Rattle.cs_linear.specs.Numbers.{IsCause};
ghost use Rattle.cs_linear.specs.Rows.{Assignment, IsTableau, AreFree, Ascends, Solves, IsFree, total};
ghost use Rattle.cs_linear.specs.Values.{values};
ghost use Rattle.cs_linear.specs.Added.{IsIncluded};

use crate::numbers::{Stop, one, plus, times, zero};
use crate::rows::{Entry, Row, add_multiple};
use std::alloc::Global;
use vx_frac::Frac;

/// One sum plus a multiple of a free column.
fn include_free(
    alloc: Global,
    rows: &[Row],
    homes: &[Option<usize>],
    sum: &[Entry],
    entry: Entry,
) -> Result<Vec<Entry>, Stop>
    requires { IsFree homes.now entry.column }
    ensures value { IfOk result (λ new. IsIncluded rows.now homes.now sum.now entry new.items) }
    ensures cause { IfErr result IsCause }
{
    let mut alone = Vec::new(alloc);
    alone.push(Entry {
        column: entry.column,
        factor: one(),
    })?;
    let new = add_multiple(alloc, sum, entry.factor, &alone)?;
    Ok(new)
}

/// One sum plus a multiple of a basic column, by its row.
fn include_row(
    alloc: Global,
    rows: &[Row],
    homes: &[Option<usize>],
    sum: &[Entry],
    entry: Entry,
    home: usize,
) -> Result<Vec<Entry>, Stop>
    requires tableau { IsTableau rows.now homes.now }
    requires home { slice_get homes.now entry.column ≡ Some (Some home) }
    ensures value { IfOk result (λ new. IsIncluded rows.now homes.now sum.now entry new.items) }
    ensures cause { IfErr result IsCause }
{
    let new = add_multiple(alloc, sum, entry.factor, &rows[home].entries)?;
    Ok(new)
}

/// One sum plus a multiple of a column, over free columns.
fn include(
    alloc: Global,
    rows: &[Row],
    homes: &[Option<usize>],
    sum: &[Entry],
    entry: Entry,
) -> Result<Vec<Entry>, Stop>
    requires tableau { IsTableau rows.now homes.now }
    requires known { entry.column < length homes.now }
    ensures value { IfOk result (λ new. IsIncluded rows.now homes.now sum.now entry new.items) }
    ensures cause { IfErr result IsCause }
{
    match homes[entry.column as usize] {
        None => include_free(alloc, rows, homes, sum, entry),
        Some(home) => include_row(alloc, rows, homes, sum, entry, home),
    }
}

/// A sum of any columns, over free columns.
pub fn expanded(
    alloc: Global,
    rows: &[Row],
    homes: &[Option<usize>],
    sum: &[Entry],
) -> Result<Vec<Entry>, Stop>
    requires tableau { IsTableau rows.now homes.now }
    requires known { All (λ e. e.column < length homes.now) sum.now }
    ensures total { IfOk result (λ new. (a : Assignment) → Solves rows.now a → total new.items a ≡ total sum.now a) }
    ensures free { IfOk result (λ new. AreFree homes.now new.items) }
    ensures ascends { IfOk result (λ new. Ascends 0 new.items) }
    ensures cause { IfErr result IsCause }
{
    let mut new = Vec::new(alloc);
    for entry in sum {
        new = include(alloc, rows, homes, &new, *entry)?;
    }
    Ok(new)
}

/// The value of a sum.
pub fn total_of(entries: &[Entry], all: &[Frac]) -> Result<Frac, Stop>
    requires { All (λ e. e.column < length all.now) entries.now }
    ensures value { IfOk result (λ f. fraction f ≡ total entries.now (values all.now)) }
    ensures cause { IfErr result IsCause }
{
    let mut total = zero();
    for entry in entries {
        let product = times(entry.factor, all[entry.column as usize])?;
        total = plus(total, product)?;
    }
    Ok(total)
}

/// The same entries once more.
pub fn entries_of(alloc: Global, entries: &[Entry]) -> Result<Vec<Entry>, Stop>
    ensures value { IfOk result (λ new. new.items ≡ entries.now) }
    ensures cause { IfErr result IsCause }
{
    let mut new = Vec::new(alloc);
    new.extend_from_slice(entries)?;
    Ok(new)
}
