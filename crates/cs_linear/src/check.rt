//! The check: bounds that are broken are mended one by one, by moves and pivots.
ghost use Rattle.std.specs.Prelude.{◌≡◌, ◌<◌, ◌≤◌, length, List, All, IfOk, IfErr, OnOk, slice_get, Some, pos};
ghost use Rattle.vx_frac.specs.Fraction.{fraction};
ghost use Rattle.cs_linear.specs.Numbers.{times, IsCause};
ghost use Rattle.cs_linear.specs.Values.{values};
ghost use Rattle.cs_linear.specs.Amounts.{amount, has_room_by, has_sign};
ghost use Rattle.cs_linear.specs.Contradictions.{IsAmong, is_broken, amount_at};
ghost use Rattle.cs_linear.specs.Checks.{AreLimits, IsJudged, IsBlock, IsMet, IsWay};
ghost use Rattle.cs_linear.specs.Checks as clean;

use crate::bounds::{Bound, Part, Side, Value};
use crate::limits::Limits;
use crate::numbers::{Stop, minus_one, one, times, zero};
use crate::rows::{Entry, Row};
use std::alloc::Global;
use vx_frac::Frac;

/// What an entry of the row does for a broken bound: nothing, its column can move, or a bound blocks it.
#[derive(Clone, Copy)]
enum Judged {
    Idle,
    Moves,
    Blocked(Part),
}

/// An entry whose column can move, or the bounds that block all of them.
#[derive(Drop)]
pub enum Way {
    Moves(Entry),
    Stuck(Vec<Part>),
}

/// Whether a limit blocks a column of this value.
fn block(limit: Option<Bound>, multiplier: Frac, value: Value) -> Judged
    ensures { IsBlock limit multiplier (amount value) result }
{
    match limit {
        None => Judged::Moves,
        Some(bound) => {
            if bound.has_room(value) {
                return Judged::Moves;
            }
            Judged::Blocked(Part { bound, multiplier })
        }
    }
}

/// What an entry does, by the limit on the side to which its column would have to move.
fn judge(
    entry: Entry,
    toward: Frac,
    limits: &Limits,
    mains: &[Frac],
    deltas: &[Frac],
) -> Result<Judged, Stop>
    requires lower { entry.column < length limits.now.lower.items }
    requires upper { entry.column < length limits.now.upper.items }
    requires mains { entry.column < length mains.now }
    requires deltas { entry.column < length deltas.now }
    ensures value { IfOk result (λ j. (bounds : List Bound) → AreLimits bounds limits.now → IsJudged bounds (values mains.now) (values deltas.now) (fraction toward) entry j) }
    ensures cause { IfErr result IsCause }
{
    let multiplier = times(toward, entry.factor)?;
    let at = entry.column as usize;
    let value = Value {
        main: mains[at],
        delta: deltas[at],
    };
    if zero().is_less(multiplier) {
        return Ok(block(limits.lower[at], multiplier, value));
    }
    if multiplier.is_less(zero()) {
        return Ok(block(limits.upper[at], multiplier, value));
    }
    Ok(Judged::Idle)
}

/// Puts the bound that blocks an entry behind the others; or says that its column can move.
fn meet(
    parts: &mut Vec<Part>,
    entry: Entry,
    toward: Frac,
    limits: &Limits,
    mains: &[Frac],
    deltas: &[Frac],
) -> Result<bool, Stop>
    requires lower { entry.column < length limits.now.lower.items }
    requires upper { entry.column < length limits.now.upper.items }
    requires mains { entry.column < length mains.now }
    requires deltas { entry.column < length deltas.now }
    ensures value { IfOk result (λ moves. (bounds : List Bound) → AreLimits bounds limits.now → IsMet bounds (values mains.now) (values deltas.now) (fraction toward) parts.old.items entry parts.new.items moves) }
    ensures cause { IfErr result IsCause }
{
    match judge(entry, toward, limits, mains, deltas)? {
        Judged::Idle => Ok(false),
        Judged::Moves => Ok(true),
        Judged::Blocked(part) => {
            parts.push(part)?;
            Ok(false)
        }
    }
}

/// The first entry whose column can move, or the bounds that block all.
fn examine(
    alloc: Global,
    entries: &[Entry],
    toward: Frac,
    limits: &Limits,
    mains: &[Frac],
    deltas: &[Frac],
) -> Result<Way, Stop>
    requires lower { All (λ e. e.column < length limits.now.lower.items) entries.now }
    requires upper { All (λ e. e.column < length limits.now.upper.items) entries.now }
    requires mains { All (λ e. e.column < length mains.now) entries.now }
    requires deltas { All (λ e. e.column < length deltas.now) entries.now }
    ensures value { IfOk result (λ w. (bounds : List Bound) → AreLimits bounds limits.now → IsWay bounds (values mains.now) (values deltas.now) (fraction toward) entries.now w) }
    ensures cause { IfErr result IsCause }
{
    let mut parts = Vec::new(alloc);
    for entry in entries {
        if meet(&mut parts, *entry, toward, limits, mains, deltas)? {
            return Ok(Way::Moves(*entry));
        }
    }
    Ok(Way::Stuck(parts))
}

/// Whether a sum has the column.
fn has_column(entries: &[Entry], column: u32) -> bool {
    for entry in entries {
        if entry.column >= column {
            return entry.column == column;
        }
    }
    false
}

/// How many rows have the column.
fn count_rows(rows: &[Row], column: u32) -> usize
    ensures { result ≤ length rows.now }
{
    let mut count = 0;
    for row in rows {
        if has_column(&row.entries, column) {
            count += 1;
        }
    }
    count
}

/// Of so many entries whose columns can move the best is looked for.
const CANDIDATES: usize = 4;

/// Of the first few entries whose columns can move the one that the fewest rows have: so many are rewritten when it changes places. Where there
/// is none, the one that is given.
fn lightest(
    rows: &[Row],
    entries: &[Entry],
    toward: Frac,
    limits: &Limits,
    mains: &[Frac],
    deltas: &[Frac],
    first: Entry,
) -> Result<Entry, Stop>
    requires lower { All (λ e. e.column < length limits.now.lower.items) entries.now }
    requires upper { All (λ e. e.column < length limits.now.upper.items) entries.now }
    requires mains { All (λ e. e.column < length mains.now) entries.now }
    requires deltas { All (λ e. e.column < length deltas.now) entries.now }
    requires first { (bounds : List Bound) → AreLimits bounds limits.now → IsWay bounds (values mains.now) (values deltas.now) (fraction toward) entries.now (Way.Moves first) }
    ensures value { IfOk result (λ e. (bounds : List Bound) → AreLimits bounds limits.now → IsWay bounds (values mains.now) (values deltas.now) (fraction toward) entries.now (Way.Moves e)) }
    ensures cause { IfErr result IsCause }
{
    let mut best = first;
    let mut fewest = count_rows(rows, first.column);
    let mut left = CANDIDATES;
    for entry in entries {
        if left == 0 {
            return Ok(best);
        }
        match judge(*entry, toward, limits, mains, deltas)? {
            Judged::Moves => {
                left -= 1;
                let count = count_rows(rows, entry.column);
                if count < fewest {
                    best = *entry;
                    fewest = count;
                }
            }
            Judged::Idle | Judged::Blocked(_) => {}
        }
    }
    Ok(best)
}

/// An entry whose column can move, or the bounds that block all: the first one, or where the choice is free one that few rows have.
pub fn find_way(
    alloc: Global,
    rows: &[Row],
    entries: &[Entry],
    toward: Frac,
    limits: &Limits,
    mains: &[Frac],
    deltas: &[Frac],
    freely: bool,
) -> Result<Way, Stop>
    requires lower { All (λ e. e.column < length limits.now.lower.items) entries.now }
    requires upper { All (λ e. e.column < length limits.now.upper.items) entries.now }
    requires mains { All (λ e. e.column < length mains.now) entries.now }
    requires deltas { All (λ e. e.column < length deltas.now) entries.now }
    ensures value { IfOk result (λ w. (bounds : List Bound) → AreLimits bounds limits.now → IsWay bounds (values mains.now) (values deltas.now) (fraction toward) entries.now w) }
    ensures cause { IfErr result IsCause }
{
    match examine(alloc, entries, toward, limits, mains, deltas)? {
        Way::Moves(first) => {
            if !freely {
                return Ok(Way::Moves(first));
            }
            let entry = lightest(rows, entries, toward, limits, mains, deltas, first)?;
            Ok(Way::Moves(entry))
        }
        Way::Stuck(parts) => Ok(Way::Stuck(parts)),
    }
}

/// The multiplier of a broken bound.
pub fn own(side: Side) -> Frac
    ensures { fraction result ≡ clean.own side }
{
    match side {
        Side::AtLeast => one(),
        Side::AtMost => minus_one(),
    }
}

/// What its row's factors are multiplied by: less its own multiplier.
pub fn toward(side: Side) -> Frac
    ensures { fraction result ≡ clean.toward side }
{
    match side {
        Side::AtLeast => minus_one(),
        Side::AtMost => one(),
    }
}
