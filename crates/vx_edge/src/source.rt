// Standard input.
ghost use Rattle.std.specs.Prelude.{◌≡◌, None, false};

use std::alloc::Global;
use std::io::{ErrorKind, Read};
use vx_ends::{MoreFault, Source};

/// A source over a reader, as standard input.
#[derive(Drop)]
pub struct StdSource<R> {
    reader: R,
    at_end: bool,
    faults: u64,
}

impl<R: Read> StdSource<R> {
    /// Nothing is read yet.
    pub fn new(reader: R) -> StdSource<R>
        ensures reader { result.reader ≡ reader }
        ensures at_end { result.at_end ≡ false }
        ensures faults { result.faults ≡ 0 }
    {
        StdSource {
            reader,
            at_end: false,
            faults: 0,
        }
    }
}

impl<R: Read> Source for StdSource<R> {
    ghost given = { λ _. None };

    ghost left = { λ _. None };

    ghost at_end = { λ s. s.at_end };

    ghost faults = { λ s. s.faults };

    fn more(&mut self, alloc: Global, max: usize) -> Result<Vec<u8>, MoreFault> {
        let mut piece = vec![in alloc; 0u8; max]?;
        match self.reader.read(&mut piece) {
            Ok(count) => {
                piece.truncate(count);
                self.at_end = self.at_end || piece.is_empty();
                Ok(piece)
            }
            Err(error) if error.kind() == ErrorKind::OutOfMemory => Err(MoreFault::Want),
            Err(_) => {
                self.faults = self.faults.saturating_add(1);
                Err(MoreFault::Failed)
            }
        }
    }
}
