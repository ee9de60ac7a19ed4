// A source and a sink as one object.
ghost use Rattle.std.specs.Prelude.{[], ◌∷◌, None};

use crate::{Duplex, MoreFault, PutFault, Sink, Source};
use std::alloc::Global;

/// A source and a sink as one. The order of their calls isn't told.
#[derive(Drop)]
pub struct Pair<'i, 'o, I, K> {
    pub input: &'i mut I,
    pub out: &'o mut K,
}

impl<I: Source, K: Sink> Duplex for Pair<'_, '_, I, K> {
    ghost given = { λ p. I.given p.input.now };

    ghost at_end = { λ p. I.at_end p.input.now };

    ghost read_faults = { λ p. I.faults p.input.now };

    ghost taken = { λ p. K.taken p.out.now };

    ghost put_faults = { λ p. K.faults p.out.now };

    ghost dialogue = { λ _. None };

    ghost names = { λ p. p.input.ghost_name ∷ p.out.ghost_name ∷ [] };

    fn more(&mut self, alloc: Global, max: usize) -> Result<Vec<u8>, MoreFault> {
        self.input.more(alloc, max)
    }

    fn put(&mut self, piece: &[u8]) -> Result<usize, PutFault> {
        self.out.put(piece)
    }
}
