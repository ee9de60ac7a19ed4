// Both ends in memory, and the order of their calls.
ghost use Rattle.std.specs.Prelude.{◌≡◌, ◌<◌, [], Some, false};
ghost use Rattle.vx_ends.specs.Dialogue.{sent, got};

use crate::memory::next_piece;
use crate::{Duplex, MoreFault, PutFault, Record};
use std::alloc::Global;
use std::marker::Model;

/// Both ends in memory, with a record of the pieces given and taken. A read gives so many bytes at most; a put takes all
/// of its piece, and fails where there is no memory for it.
#[derive(Drop)]
pub struct MemDuplex {
    bytes: Vec<u8>,
    at: usize,
    most: usize,
    at_end: bool,
    pieces: Record,
    faults: u64,
}

impl Model for MemDuplex {
    ghost use Rattle.std.specs.Prelude.{◌<◌, ◌≤◌, length, drop};
    ghost use Rattle.vx_ends.specs.Fakes.{Talk};

    ghost Value = { Talk };

    ghost view = { λ t. record { left = drop t.at t.bytes.items; most = t.most; at_end = t.at_end; dialogue = t.pieces; faults = t.faults } };

    ghost invariant = { λ t. (t.at ≤ length t.bytes.items) × (0 < t.most) };
}

impl MemDuplex {
    /// These bytes are still to come, at most so many at once, and none are taken yet. No memory.
    pub fn new(alloc: Global, bytes: Vec<u8>, most: usize) -> MemDuplex
        requires { 0 < most }
        ensures { result ≡ record { left = bytes.items; most = most; at_end = false; dialogue = []; faults = 0 } }
    {
        MemDuplex {
            bytes,
            at: 0,
            most,
            at_end: false,
            pieces: Record::new(alloc),
            faults: 0,
        }
    }

    /// The pieces given and taken so far, in order.
    pub fn record(&self) -> &Record
        ensures { result.now ≡ self.now.dialogue }
    {
        &self.pieces
    }
}

impl Duplex for MemDuplex {
    ghost given = { λ t. Some (got t.dialogue) };

    ghost at_end = { λ t. t.at_end };

    ghost read_faults = { λ _. 0 };

    ghost taken = { λ t. Some (sent t.dialogue) };

    ghost put_faults = { λ t. t.faults };

    ghost dialogue = { λ t. Some t.dialogue };

    ghost names = { λ _. [] };

    #[tactic(auto, using(crate::proofs::Dialogues::sent_by_got, crate::proofs::Dialogues::got_by_got))]
    fn more(&mut self, alloc: Global, max: usize) -> Result<Vec<u8>, MoreFault> {
        let piece = next_piece(alloc, &self.bytes, self.at, max.min(self.most))?;
        self.pieces.push_got(&piece)?;
        self.at += piece.len();
        self.at_end = self.at_end || piece.is_empty();
        Ok(piece)
    }

    #[tactic(auto, using(crate::proofs::Dialogues::sent_by_sent, crate::proofs::Dialogues::got_by_sent))]
    fn put(&mut self, piece: &[u8]) -> Result<usize, PutFault> {
        match self.pieces.push_sent(piece) {
            Ok(()) => Ok(piece.len()),
            Err(_) => {
                self.faults = self.faults.saturating_add(1);
                Err(PutFault::Failed)
            }
        }
    }
}
