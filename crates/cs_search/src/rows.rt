//! Rows of numbers: for each literal the clauses that watch it.
ghost use Rattle.std.specs.Prelude.{◌≡◌, ℕ, ◌+◌, ◌<◌, ◌^◌, length, slice_get, slice_set, OnOk, IfSome};
ghost use Rattle.cs_search.specs.Rows.{row, slot, IsPut, IsWithout, IsTaken};

use crate::Literal;
use std::alloc::{AllocError, Global};

/// The literal's row.
pub fn slot(literal: Literal) -> usize
    ensures { result ≡ slot literal }
{
    let atom = literal.number as usize;
    if literal.positive {
        atom * 2 + 1
    } else {
        atom * 2
    }
}

/// The number at a place of a row.
pub fn number_at(rows: &[Vec<usize>], at: usize, k: usize) -> Option<usize>
    ensures value { result ≡ slice_get (row rows.now at) k }
    ensures room { IfSome result (λ _. k + 1 < 2 ^ 64) }
{
    if at >= rows.len() {
        return None;
    }
    if k >= rows[at].len() {
        return None;
    }
    Some(rows[at][k])
}

/// Makes rows, up to the one of this number.
fn reach(alloc: Global, rows: &mut Vec<Vec<usize>>, at: usize) -> Result<(), AllocError>
    ensures same { OnOk result ((s : ℕ) → row rows.new.items s ≡ row rows.old.items s) }
    ensures room { OnOk result (at < length rows.new.items) }
{
    while rows.len() <= at {
        rows.push(Vec::new(alloc))?;
    }
    Ok(())
}

/// Puts a number at the end of a row that is there.
fn append(rows: &mut Vec<Vec<usize>>, at: usize, number: usize) -> Result<(), AllocError>
    requires { at < length rows.old.items }
    ensures { OnOk result (IsPut rows.old.items rows.new.items at number) }
{
    rows[at].push(number)?;
    Ok(())
}

/// Puts a number at the end of a row.
pub fn put(
    alloc: Global,
    rows: &mut Vec<Vec<usize>>,
    at: usize,
    number: usize,
) -> Result<(), AllocError>
    ensures { OnOk result (IsPut rows.old.items rows.new.items at number) }
{
    reach(alloc, rows, at)?;
    append(rows, at, number)?;
    Ok(())
}

/// Writes the number at the place, where there is one.
fn write(list: &mut Vec<usize>, at: usize, number: usize)
    ensures { list.new.items ≡ slice_set list.old.items at number }
{
    if at < list.len() {
        list[at] = number;
    }
}

/// Takes the number at a place out, and puts the last one there.
fn leave_out(list: &mut Vec<usize>, k: usize)
    requires { k < length list.old.items }
    ensures { IsWithout list.old.items list.new.items k }
{
    match list.pop() {
        None => unreachable!(),
        Some(last) => write(list, k, last),
    }
}

/// Takes the number at a place of a row out.
pub fn take_out(rows: &mut Vec<Vec<usize>>, at: usize, k: usize)
    requires { k < length (row rows.old.items at) }
    ensures { IsTaken rows.old.items rows.new.items at k }
{
    leave_out(&mut rows[at], k);
}
