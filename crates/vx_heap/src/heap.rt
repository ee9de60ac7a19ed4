//! A heap of chunks.

ghost use Rattle.std.specs.Prelude.{◌≡◌, ℕ, map};
ghost use Rattle.vx_heap.specs.Places.{places, row, under};

use crate::Chunk;
use crate::rows::Rows;
use std::rc::Rc;

/// The chunks of a heap, in order, which its copies share.
pub struct SymHeap {
    pub(crate) chunks: Vec<Rc<Chunk>>,
    /// The numbers of the chunks, by the names of their resources.
    pub(crate) rows: Rows,
    ghost listed: { (k : ℕ) → under rows k ≡ places k 0 (map row chunks.items) },
}

impl Drop for SymHeap {
    fn drop(self) {
        let Self { chunks, rows } = self;
    }
}
