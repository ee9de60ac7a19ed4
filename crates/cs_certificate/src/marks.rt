//! Marks on numbered terms, which a new round clears without touching them.
ghost use Rattle.std.specs.Prelude.{◌≡◌, ℕ, ◌+◌, ◌<◌, ◌≤◌, ◌^◌, false, ◌||◌, length, slice_index, IfOk};
ghost use Rattle.cs_certificate.specs.Hints.{same_literal};
ghost use Rattle.cs_certificate.specs.declared.literal.Literal.{Literal};

use crate::Literal;
use std::alloc::{AllocError, Global};

/// For each numbered term the last round in which it was marked, and that in which its negation was.
#[derive(Drop)]
pub struct Marks {
    plain: Vec<u64>,
    negated: Vec<u64>,
    round: u64,
    ghost same_len: { length plain.items ≡ length negated.items },
    ghost begun: { 0 < round },
    ghost plain_past: { (k : ℕ) → slice_index plain.items k ≤ round },
    ghost negated_past: { (k : ℕ) → slice_index negated.items k ≤ round },
}

impl Marks {
    ghost use Rattle.cs_certificate.specs.Marks.{is_marked, terms_in, rounds_in};

    /// Marks on so many terms, none of them set.
    pub fn new(alloc: Global, terms: usize) -> Result<Marks, AllocError>
        ensures terms { IfOk result (λ m. terms_in m ≡ terms) }
        ensures rounds { IfOk result (λ m. rounds_in m ≡ 1) }
    {
        Ok(Marks {
            plain: vec![in alloc; 0; terms]?,
            negated: vec![in alloc; 0; terms]?,
            round: 1,
        })
    }

    /// Clears all marks. No memory.
    pub fn begin(&mut self)
        requires { rounds_in self.old + 1 < 2 ^ 64 }
        ensures clear { (l : Literal) → is_marked self.new l ≡ false }
        ensures terms { terms_in self.new ≡ terms_in self.old }
        ensures rounds { rounds_in self.new ≡ rounds_in self.old + 1 }
    {
        self.round += 1;
    }

    /// Marks a literal. No memory.
    pub fn mark(&mut self, literal: Literal)
        requires { literal.number < terms_in self.old }
        ensures marked { (l : Literal) → is_marked self.new l ≡ (same_literal literal l || is_marked self.old l) }
        ensures terms { terms_in self.new ≡ terms_in self.old }
        ensures rounds { rounds_in self.new ≡ rounds_in self.old }
    {
        let at = literal.number as usize;
        if literal.positive {
            self.plain[at] = self.round;
        } else {
            self.negated[at] = self.round;
        }
    }

    /// Whether a literal is marked in this round.
    pub fn is_marked(&self, literal: Literal) -> bool
        ensures { result ≡ is_marked self.now literal }
    {
        let marks = if literal.positive {
            &self.plain
        } else {
            &self.negated
        };
        match marks.get(literal.number as usize) {
            Some(round) => *round == self.round,
            None => false,
        }
    }
}
