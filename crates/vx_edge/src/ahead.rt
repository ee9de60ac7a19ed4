// What was read of a child's output and not got yet.
ghost use Rattle.std.specs.Prelude.{◌≡◌, ◌+◌, ◌≤◌, [], length, take, drop, IfOk};
ghost use Rattle.vx_edge.specs.Ahead.{Grows};

use std::alloc::{AllocError, Global};
use std::cell::Cell;
use std::io::Read;
use std::marker::Model;
use std::rc::Rc;

// Room for the most bytes that are read at once, where none are read ahead.
const LEAST: usize = 65_536;

// The most bytes that are read ahead.
const MOST: usize = 16_777_216;

/// Bytes that were read and not taken yet, which contracts see as the list of them. At most 16,777,216.
#[derive(Drop)]
pub struct Ahead {
    buffer: Vec<u8>,
    // the bytes of the buffer from the one place to the other
    from: usize,
    to: usize,
    // whether there are some
    is_some: Rc<Cell<bool>>,
}

impl Model for Ahead {
    ghost use Rattle.std.specs.Prelude.{◌≤◌, ℕ, List, length, take, drop};

    ghost Value = { List ℕ };

    ghost view = { λ a. drop a.from (take a.to a.buffer.items) };

    ghost invariant = { λ a. (a.from ≤ a.to) × (a.to ≤ length a.buffer.items) × (length a.buffer.items ≤ 16777216) };
}

impl Ahead {
    /// None are read yet.
    ///
    /// # Errors
    /// `AllocError` if there is no memory for 65,536 bytes.
    pub fn new(alloc: Global) -> Result<Ahead, AllocError>
        ensures { IfOk result (λ ahead. ahead ≡ []) }
    {
        Ok(Ahead {
            buffer: vec![in alloc; 0u8; LEAST]?,
            from: 0,
            to: 0,
            is_some: Rc::new(alloc, Cell::new(false))?,
        })
    }

    /// What says whether there are some, also later.
    ///
    /// # Errors
    /// `AllocError` if there are too many of it already.
    pub fn watch(&self) -> Result<Rc<Cell<bool>>, AllocError> {
        self.is_some.clone()
    }

    /// The bytes, in order. No memory.
    pub fn bytes(&self) -> &[u8]
        ensures bytes { result.now ≡ self.now }
        ensures short { length self.now ≤ 16777216 }
    {
        &self.buffer[..self.to][self.from..]
    }

    /// The first so many bytes are taken. No memory.
    pub fn take(&mut self, count: usize)
        requires { count ≤ length self.old }
        ensures { self.new ≡ drop count self.old }
    {
        self.from += count;
        self.is_some.set(self.from < self.to);
    }

    /// Makes room behind the bytes, where there is none and they aren't as many as they may be.
    ///
    /// # Errors
    /// `AllocError` if there is no memory for the room; the bytes stay.
    pub fn make_room(&mut self) -> Result<(), AllocError>
        ensures { self.new ≡ self.old }
    {
        self.move_to_front();
        let len = self.buffer.len();
        if self.to < len {
            return Ok(());
        }
        self.buffer.resize((len * 2).min(MOST), 0)
    }

    // Nothing is taken of what the buffer holds from its front on.
    #[tactic(auto, using(crate::proofs::Aheads::turned))]
    fn move_to_front(&mut self)
        ensures { self.new ≡ self.old }
    {
        if self.from < self.to {
            self.buffer.rotate_left(self.from);
        }
        self.to -= self.from;
        self.from = 0;
    }

    /// Reads more bytes, at most so many and no more than there is room for, and answers how many: none at the end of the
    /// stream, and where reading fails. No memory.
    #[tactic(auto, using(crate::proofs::Aheads::reads_on, crate::proofs::Aheads::how_many))]
    pub fn read<R: Read>(&mut self, stream: &mut R, max: usize) -> usize
        ensures more { Grows self.old self.new }
        ensures count { length self.new ≡ length self.old + result }
        ensures most { result ≤ max }
    {
        let count = read_behind(stream, &mut self.buffer, self.to, max);
        self.to += count;
        self.is_some.set(self.from < self.to);
        count
    }
}

// Reads behind the first so many bytes of a buffer, at most so many and no more than it has room for, and answers how many.
fn read_behind<R: Read>(stream: &mut R, buffer: &mut Vec<u8>, at: usize, max: usize) -> usize
    requires { at ≤ length buffer.old.items }
    ensures kept { take at buffer.new.items ≡ take at buffer.old.items }
    ensures len { length buffer.new.items ≡ length buffer.old.items }
    ensures within { at + result ≤ length buffer.old.items }
    ensures most { result ≤ max }
{
    let room = &mut buffer[at..];
    let most = room.len().min(max);
    stream.read(&mut room[..most]).unwrap_or(0)
}
