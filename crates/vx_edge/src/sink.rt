// Standard output.
ghost use Rattle.std.specs.Prelude.{◌≡◌, None};

use std::io::Write;
use vx_ends::{PutFault, Sink};

/// A sink over a writer, as standard output.
#[derive(Drop)]
pub struct StdSink<W> {
    writer: W,
    faults: u64,
}

impl<W: Write> StdSink<W> {
    /// Nothing is put yet.
    pub fn new(writer: W) -> StdSink<W>
        ensures { (result.writer ≡ writer) × (result.faults ≡ 0) }
    {
        StdSink { writer, faults: 0 }
    }
}

impl<W: Write> Sink for StdSink<W> {
    ghost taken = { λ _. None };

    ghost faults = { λ s. s.faults };

    fn put(&mut self, piece: &[u8]) -> Result<usize, PutFault> {
        match self.writer.write(piece) {
            Ok(count) if count > 0 => Ok(count),
            _ => {
                self.faults = self.faults.saturating_add(1);
                Err(PutFault::Failed)
            }
        }
    }
}
