//! What is to be put, and putting it.

ghost use Rattle.std.specs.Prelude.{◌≡◌, [], string_bytes};
ghost use Rattle.vx_commands.specs.Outside.{change, taken};
ghost use Rattle.vx_commands.specs.Promised.{Puts};

use std::alloc::Global;
use vx_ends::{PutFault, Sink, put_all};
use vx_report::Status;
use vx_verifier::Runs;

/// How the program ended: its status, and what became of each member with a line, in file order. There are no runs
/// with the statuses of refused words and texts and of want of memory.
pub struct Ended {
    pub status: Status,
    pub runs: Runs,
}

impl Drop for Ended {
    fn drop(self) {
        let Self { status, runs } = self;
    }
}

/// What is to be put, the status that is due where the sink takes it, and what became of each member with a line.
#[derive(Drop)]
pub struct Output {
    pub bytes: Vec<u8>,
    pub status: Status,
    pub runs: Runs,
}

impl Output {
    /// A text, and no runs.
    pub fn text(alloc: Global, bytes: Vec<u8>, status: Status) -> Output
        ensures bytes { result.bytes ≡ bytes }
        ensures status { result.status ≡ status }
        ensures none { result.runs.items ≡ [] }
    {
        Output {
            bytes,
            status,
            runs: Vec::new(alloc),
        }
    }

    /// A line, and no runs.
    pub fn line(alloc: Global, line: String, status: Status) -> Output
        ensures bytes { result.bytes.items ≡ string_bytes line }
        ensures status { result.status ≡ status }
        ensures none { result.runs.items ≡ [] }
    {
        Output::text(alloc, line.into_bytes(), status)
    }
}

/// Puts it; where the sink fails, that is the status.
pub fn put<K: Sink>(out: &mut K, output: Output) -> Ended
    ensures { Puts output (change (taken K.taken K.faults) out.old out.new) result }
{
    let Output {
        bytes,
        status,
        runs,
    } = output;
    match put_all(out, &bytes) {
        Ok(()) => Ended { status, runs },
        Err(PutFault::Failed) => Ended {
            status: Status::Unwritten,
            runs,
        },
    }
}
