//! Rows of numbers.
ghost use Rattle.std.specs.Prelude.{◌≡◌, ◌++◌, ◌∷◌, ℕ, [], ◌<◌, length, OnOk, IfOk};
ghost use Rattle.cs_cong.specs.Rows.{row, IsWritten};

use crate::merges::Want;
use std::alloc::Global;
use std::mem;

/// So many rows with nothing in them.
pub fn empty(alloc: Global, count: usize) -> Result<Vec<Vec<u32>>, Want>
    ensures count { IfOk result (λ rows. length rows.items ≡ count) }
    ensures empty { IfOk result (λ rows. (s : ℕ) → row rows.items s ≡ []) }
{
    let mut rows = Vec::new(alloc);
    for _ in 0..count {
        rows.push(Vec::new(alloc))?;
    }
    Ok(rows)
}

/// Puts a number behind those of a row.
pub fn put(rows: &mut Vec<Vec<u32>>, at: usize, number: u32) -> Result<(), Want>
    requires { at < length rows.old.items }
    ensures { OnOk result (IsWritten rows.old.items rows.new.items at (row rows.old.items at ++ number ∷ [])) }
{
    rows[at].push(number)?;
    Ok(())
}

/// Takes the numbers of a row out of it.
pub fn take_row(alloc: Global, rows: &mut Vec<Vec<u32>>, at: usize) -> Vec<u32>
    requires { at < length rows.old.items }
    ensures taken { result.items ≡ row rows.old.items at }
    ensures rows { IsWritten rows.old.items rows.new.items at [] }
{
    mem::replace(&mut rows[at], Vec::new(alloc))
}

/// Puts further numbers behind those of a row.
pub fn put_all(rows: &mut Vec<Vec<u32>>, at: usize, numbers: &[u32]) -> Result<(), Want>
    requires { at < length rows.old.items }
    ensures { OnOk result (IsWritten rows.old.items rows.new.items at (row rows.old.items at ++ numbers.now)) }
{
    rows[at].extend_from_slice(numbers)?;
    Ok(())
}
