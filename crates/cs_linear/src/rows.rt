//! Sums of columns and rows, as sorted lists of factors.
ghost use Rattle.std.specs.Prelude.{◌≡◌, ◌<◌, ◌≤◌, ◌+◌, ℕ, List, length, drop, All, IfOk, IfErr, IfSome, IfNone, OnOk, Some, slice_get};
ghost use Rattle.vx_frac.specs.Fraction.{fraction};
ghost use Rattle.vx_frac.specs.Fractions.{none};
ghost use Rattle.cs_linear.specs.Numbers.{plus, times, IsCause};
ghost use Rattle.cs_linear.specs.Rows.{Assignment, Homes, AreFree, IsFree, multiple, total, factor_at, Ascends};
ghost use Rattle.cs_linear.specs.Merged.{kept, rest_of, Goes, IsNext, AreOfOne, AreBefore};

use crate::numbers::{Stop, plus, times};
use std::alloc::Global;
use vx_frac::Frac;

/// A factor of a column.
#[derive(Clone, Copy)]
pub struct Entry {
    pub column: u32,
    pub factor: Frac,
}

/// A basic column is a sum of other columns.
pub struct Row {
    pub basic: u32,
    pub entries: Vec<Entry>,
}

impl Drop for Row {
    fn drop(self) {
        let Self { basic, entries } = self;
    }
}

/// The first column of two sums, and how many entries of each it takes.
#[derive(Clone, Copy)]
struct First {
    entry: Entry,
    left: usize,
    right: usize,
}

/// The factor of a column in a sum; nothing where the sum doesn't have the column.
pub fn factor_of(entries: &[Entry], column: u32) -> Option<Frac>
    requires { Ascends 0 entries.now }
    ensures some { IfSome result (λ f. fraction f ≡ factor_at entries.now column) }
    ensures nothing { IfNone result (factor_at entries.now column ≡ none) }
    ensures rest { IfNone result (rest_of entries.now column ≡ entries.now) }
{
    for entry in entries {
        if entry.column == column {
            return Some(entry.factor);
        }
        if entry.column > column {
            return None;
        }
    }
    None
}

/// Puts an entry behind a sum, unless it is of this column.
fn keep(rest: &mut Vec<Entry>, entry: Entry, column: u32) -> Result<(), Stop>
    ensures value { OnOk result (rest.new.items ≡ kept rest.old.items entry column) }
    ensures cause { IfErr result IsCause }
{
    if entry.column != column {
        rest.push(entry)?;
    }
    Ok(())
}

/// The sum without a column.
pub fn without(alloc: Global, entries: &[Entry], column: u32) -> Result<Vec<Entry>, Stop>
    ensures value { IfOk result (λ rest. rest.items ≡ rest_of entries.now column) }
    ensures cause { IfErr result IsCause }
{
    let mut rest = Vec::new(alloc);
    for entry in entries {
        keep(&mut rest, *entry, column)?;
    }
    Ok(rest)
}

/// Puts an entry behind a sum, unless its factor is 0.
fn push_nonzero(entries: &mut Vec<Entry>, entry: Entry) -> Result<(), Stop>
    ensures goes { OnOk result (Goes entries.old.items entry entries.new.items) }
    ensures cause { IfErr result IsCause }
{
    if entry.factor.num() != 0 {
        entries.push(entry)?;
    }
    Ok(())
}

/// An entry times a factor.
fn scaled(factor: Frac, entry: Entry) -> Result<Entry, Stop>
    ensures column { IfOk result (λ e. e.column ≡ entry.column) }
    ensures factor { IfOk result (λ e. fraction e.factor ≡ times (fraction factor) (fraction entry.factor)) }
    ensures cause { IfErr result IsCause }
{
    let product = times(factor, entry.factor)?;
    Ok(Entry {
        column: entry.column,
        factor: product,
    })
}

/// The next entry of the right sum alone, times a factor.
fn next_right(
    left: &[Entry],
    i: usize,
    factor: Frac,
    right: &[Entry],
    j: usize,
) -> Result<First, Stop>
    requires left { i ≤ length left.now }
    requires right { j < length right.now }
    requires before { AreBefore right.now j left.now i }
    ensures next { IfOk result (IsNext left.now i (fraction factor) right.now j) }
    ensures cause { IfErr result IsCause }
{
    let entry = scaled(factor, right[j])?;
    Ok(First {
        entry,
        left: i,
        right: j + 1,
    })
}

/// The next entries of both sums, which are of one column.
fn next_both(
    left: &[Entry],
    i: usize,
    factor: Frac,
    right: &[Entry],
    j: usize,
) -> Result<First, Stop>
    requires left { i < length left.now }
    requires right { j < length right.now }
    requires same { AreOfOne left.now i right.now j }
    ensures next { IfOk result (IsNext left.now i (fraction factor) right.now j) }
    ensures cause { IfErr result IsCause }
{
    let entry = scaled(factor, right[j])?;
    let sum = plus(left[i].factor, entry.factor)?;
    Ok(First {
        entry: Entry {
            column: entry.column,
            factor: sum,
        },
        left: i + 1,
        right: j + 1,
    })
}

/// The next entry of the left sum alone.
fn next_left(left: &[Entry], i: usize, factor: Frac, right: &[Entry], j: usize) -> First
    requires left { i < length left.now }
    requires right { j ≤ length right.now }
    requires before { AreBefore left.now i right.now j }
    ensures { IsNext left.now i (fraction factor) right.now j result }
{
    First {
        entry: left[i],
        left: i + 1,
        right: j,
    }
}

/// The entry of the least column that comes next in one sum plus a factor times another.
fn next(left: &[Entry], i: usize, factor: Frac, right: &[Entry], j: usize) -> Result<First, Stop>
    requires left { i ≤ length left.now }
    requires right { j ≤ length right.now }
    requires some { i + j < length left.now + length right.now }
    ensures next { IfOk result (IsNext left.now i (fraction factor) right.now j) }
    ensures cause { IfErr result IsCause }
{
    if j >= right.len() {
        return Ok(next_left(left, i, factor, right, j));
    }
    if i >= left.len() {
        return next_right(left, i, factor, right, j);
    }
    let l = left[i].column;
    let r = right[j].column;
    if l == r {
        return next_both(left, i, factor, right, j);
    }
    if l < r {
        return Ok(next_left(left, i, factor, right, j));
    }
    next_right(left, i, factor, right, j)
}

/// One sum plus a factor times another.
pub fn add_multiple(
    alloc: Global,
    left: &[Entry],
    factor: Frac,
    right: &[Entry],
) -> Result<Vec<Entry>, Stop>
    ensures value { IfOk result (λ sum. (a : Assignment) → total sum.items a ≡ plus (total left.now a) (times (fraction factor) (total right.now a))) }
    ensures free { IfOk result (λ sum. (homes : Homes) → AreFree homes left.now → AreFree homes right.now → AreFree homes sum.items) }
    ensures ascends { IfOk result (λ sum. Ascends 0 left.now → Ascends 0 right.now → Ascends 0 sum.items) }
    ensures cause { IfErr result IsCause }
{
    let mut sum = Vec::new(alloc);
    let mut i = 0;
    let mut j = 0;
    while i < left.len() || j < right.len() {
        let next = next(left, i, factor, right, j)?;
        push_nonzero(&mut sum, next.entry)?;
        i = next.left;
        j = next.right;
    }
    Ok(sum)
}
