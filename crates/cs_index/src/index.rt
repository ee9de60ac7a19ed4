//! An index: under each key stand some numbers.
ghost use Rattle.std.specs.Prelude.{◌≡◌, ◌-◌, ℕ, [], length, nat_eq, take, OnOk, OnErr};

use smallvec::SmallVec;
use std::alloc::{AllocError, Global};
use std::collections::HashMap;

/// The numbers under a key: mostly one, which stands in the map itself.
type Row = SmallVec<u32, 1>;

/// Numbers by keys.
pub struct Index {
    alloc: Global,
    rows: HashMap<u64, Row>,
}

impl Drop for Index {
    fn drop(self) {
        let Self { alloc, rows } = self;
    }
}

/// Leaves out the last number, if there is one.
fn shorten(row: &mut Row)
    ensures { row.new.items ≡ take (length row.old.items - 1) row.old.items }
{
    let left = row.len().saturating_sub(1);
    row.truncate(left);
}

impl Index {
    ghost use Rattle.cs_index.specs.Under.{under, with_number, without_last};

    /// No number stands under any key. No memory is taken.
    pub fn new(alloc: Global) -> Index
        ensures { (k : ℕ) → under result k ≡ [] }
    {
        Index {
            alloc,
            rows: HashMap::new(alloc),
        }
    }

    /// The numbers under a key, in the order in which they were added.
    pub fn under(&self, key: u64) -> &[u32]
        ensures { result.now ≡ under self.now key }
    {
        match self.rows.get(&key) {
            Some(row) => row,
            None => &[],
        }
    }

    /// A further number under a key.
    ///
    /// # Errors
    /// Nothing changes where memory runs out.
    pub fn add(&mut self, key: u64, number: u32) -> Result<(), AllocError>
        ensures added { OnOk result ((k : ℕ) → under self.new k ≡ with_number (nat_eq key k) (under self.old k) number) }
        ensures kept { OnErr result ((k : ℕ) → under self.new k ≡ under self.old k) }
    {
        if let Some(row) = self.rows.get_mut(&key) {
            row.push(number)?;
            return Ok(());
        }
        let mut row = SmallVec::new(self.alloc);
        row.push(number)?;
        self.rows.insert(key, row)?;
        Ok(())
    }

    /// Takes the last number from under a key, if there is one. No memory.
    pub fn take_last(&mut self, key: u64)
        ensures { (k : ℕ) → under self.new k ≡ without_last (nat_eq key k) (under self.old k) }
    {
        if let Some(row) = self.rows.get_mut(&key) {
            shorten(row);
        }
        self.drop_empty(key);
    }

    // an empty row takes memory, and says no more than none
    fn drop_empty(&mut self, key: u64)
        ensures { (k : ℕ) → under self.new k ≡ under self.old k }
    {
        if self.under(key).is_empty() {
            self.rows.remove(&key);
        }
    }
}
