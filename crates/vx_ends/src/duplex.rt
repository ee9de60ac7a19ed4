// Both ends of a stream as one object, so that the order of its calls can be told.
ghost use Rattle.std.specs.Prelude.{◌≡◌, ℕ, ◌<◌, ◌≤◌, Bool, List, ◌++◌, length, Option, Some, IfOk, OnOk, IfSome, ◌||◌};
ghost use Rattle.vx_ends.specs.Causes.{HasCause};
ghost use Rattle.vx_ends.specs.Calls.{TakesSome, taken_by, given_by, is_end};
ghost use Rattle.vx_ends.specs.Talks.{talk_got, talk_sent};
ghost use Rattle.vx_ends.specs.declared.fault.MoreFault.TheVariants as more;
ghost use Rattle.vx_ends.specs.declared.fault.PutFault.TheVariants as put;
ghost use Rattle.vx_ends.specs.declared.piece.Piece.{Piece};

use crate::{MoreFault, PutFault};
use std::alloc::Global;

/// A stream of bytes that is read, and one that is written.
pub trait Duplex {
    /// The bytes given so far, where that is told.
    ghost given: { Self → Option (List ℕ) };

    /// Some read so far has given an empty piece.
    ghost at_end: { Self → Bool };

    /// How often a read has failed.
    ghost read_faults: { Self → ℕ };

    /// The bytes taken so far, where that is told.
    ghost taken: { Self → Option (List ℕ) };

    /// How often a put has failed.
    ghost put_faults: { Self → ℕ };

    /// The pieces given and taken, in the order of the calls, where that is told.
    ghost dialogue: { Self → Option (List Piece) };

    /// The names of the references that it holds: calls keep these.
    ghost names: { Self → List ℕ };

    /// The next bytes, at most so many. An empty piece comes exactly at the end.
    ///
    /// # Errors
    /// `Failed` where the source fails; `Want` where memory runs out.
    fn more(&mut self, alloc: Global, max: usize) -> Result<Vec<u8>, MoreFault>
        requires { 0 < max }
        ensures short { IfOk result (λ piece. length piece.items ≤ max) }
        ensures given { IfSome (given self.old) (λ bytes. given self.new ≡ Some (bytes ++ given_by result)) }
        ensures end { at_end self.new ≡ (at_end self.old || is_end result) }
        ensures cause { HasCause more.Failed (read_faults self.old) (read_faults self.new) result }
        ensures dialogue { dialogue self.new ≡ talk_got (dialogue self.old) result }
        ensures taken { taken self.new ≡ taken self.old }
        ensures puts { put_faults self.new ≡ put_faults self.old }
        ensures names { names self.new ≡ names self.old };

    /// Takes some of a piece, at least one byte, and answers how many.
    ///
    /// # Errors
    /// `Failed` where the sink fails.
    fn put(&mut self, piece: &[u8]) -> Result<usize, PutFault>
        requires { 0 < length piece.now }
        ensures some { TakesSome piece.now result }
        ensures taken { IfSome (taken self.old) (λ bytes. taken self.new ≡ Some (bytes ++ taken_by piece.now result)) }
        ensures calm { OnOk result (put_faults self.new ≡ put_faults self.old) }
        ensures cause { HasCause put.Failed (put_faults self.old) (put_faults self.new) result }
        ensures dialogue { dialogue self.new ≡ talk_sent (dialogue self.old) piece.now result }
        ensures given { given self.new ≡ given self.old }
        ensures end { at_end self.new ≡ at_end self.old }
        ensures reads { read_faults self.new ≡ read_faults self.old }
        ensures names { names self.new ≡ names self.old };
}
