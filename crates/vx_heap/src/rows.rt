//! The places of chunks, in rows by their names.

ghost use Rattle.std.specs.Prelude.{◌≡◌, ◌<◌, ℕ, [], length, map, nat_eq, OnOk, OnErr};
ghost use Rattle.vx_heap.specs.Places.{closed_up, moved, row_of};

use std::alloc::{AllocError, Global};

/// So many rows at most.
const ROWS: usize = 16;

/// Numbers in rows; rows behind the last are empty.
pub struct Rows {
    rows: Vec<Vec<usize>>,
}

impl Drop for Rows {
    fn drop(self) {
        let Self { rows } = self;
    }
}

/// The row of a name.
pub fn row_of(name: &[u8]) -> usize
    ensures { result ≡ row_of name.now }
{
    let mut row = 0;
    for b in name {
        row = (row * 31 + *b as usize) % ROWS;
    }
    row
}

/// A place, once the item at another one is gone.
fn move_up(place: &mut usize, at: usize)
    ensures { place.new ≡ moved at place.old }
{
    if at < *place {
        *place -= 1;
    }
}

/// Places, once the item at one is gone.
fn move_all(places: &mut [usize], at: usize)
    ensures { places.new ≡ map (moved at) places.old }
{
    for place in places.iter_mut() {
        move_up(place, at);
    }
}

/// The places of a row, once the item at one is gone.
fn close_row(row: &mut Vec<usize>, at: usize)
    ensures { row.new.items ≡ closed_up at row.old.items }
{
    row.retain(|place| *place != at);
    move_all(row, at);
}

impl Rows {
    ghost use Rattle.vx_heap.specs.Places.{under, with_number};

    /// No number stands in any row. No memory.
    pub fn new(alloc: Global) -> Rows
        ensures { (k : ℕ) → under result k ≡ [] }
    {
        Rows {
            rows: Vec::new(alloc),
        }
    }

    /// The numbers in a row, in the order in which they were added.
    pub fn under(&self, row: usize) -> &[usize]
        ensures { result.now ≡ under self.now row }
    {
        match self.rows.get(row) {
            Some(numbers) => numbers,
            None => &[],
        }
    }

    /// Empty rows as far as this one.
    fn reach(&mut self, row: usize) -> Result<(), AllocError>
        ensures ok { OnOk result (row < length self.new.rows.items) }
        ensures same { (k : ℕ) → under self.new k ≡ under self.old k }
    {
        let alloc = *self.rows.allocator();
        while self.rows.len() <= row {
            self.rows.push(Vec::new(alloc))?;
        }
        Ok(())
    }

    /// A further number in a row.
    ///
    /// # Errors
    /// Nothing changes where memory runs out.
    pub fn add(&mut self, row: usize, number: usize) -> Result<(), AllocError>
        ensures ok { OnOk result ((k : ℕ) → under self.new k ≡ with_number (nat_eq row k) (under self.old k) number) }
        ensures err { OnErr result ((k : ℕ) → under self.new k ≡ under self.old k) }
    {
        self.reach(row)?;
        self.rows[row].push(number)?;
        Ok(())
    }

    /// An item is gone, and the later ones move up.
    pub fn close_up(&mut self, at: usize)
        ensures { (k : ℕ) → under self.new k ≡ closed_up at (under self.old k) }
    {
        for row in 0..self.rows.len() {
            close_row(&mut self.rows[row], at);
        }
    }
}
