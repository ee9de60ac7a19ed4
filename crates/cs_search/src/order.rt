//! Which atom is decided next, and with which sign. None of it is proved but that an atom that is chosen has no value.
ghost use Rattle.std.specs.Prelude.{◌≡◌, Some, slice_get, IfSome, true};

use crate::{Entry, Literal, Value};
use std::alloc::{AllocError, Global};

/// How much a conflict adds to a score, at first.
const STEP: u64 = 16;

/// Beyond this step all scores are made smaller.
const MOST: u64 = 1 << 40;

/// Scores of atoms by the conflicts that they took part in, the signs that they had last, and from where on an atom without a value
/// is looked for where those with a score have one.
#[derive(Drop)]
pub struct Order {
    /// By atoms. Later conflicts count more.
    pub scores: Vec<u64>,
    /// By atoms.
    pub signs: Vec<bool>,
    /// By atoms: how many had a score before it got its first one.
    pub ranks: Vec<usize>,
    /// The atoms that have a score, the highest one first; of equal ones the atom that had a score earlier.
    pub active: Vec<u32>,
    /// What a conflict adds now.
    pub step: u64,
    /// Each active atom before this place has a value.
    pub first: usize,
    /// Each atom below has a value.
    pub next: usize,
}

impl Order {
    /// No atom has a score.
    pub fn new(alloc: Global) -> Order {
        Order {
            scores: Vec::new(alloc),
            signs: Vec::new(alloc),
            ranks: Vec::new(alloc),
            active: Vec::new(alloc),
            step: STEP,
            first: 0,
            next: 0,
        }
    }

    /// Makes room for the signs of so many atoms.
    pub fn reach(&mut self, count: usize) -> Result<(), AllocError> {
        for _ in self.signs.len()..count {
            self.signs.push(false)?;
        }
        Ok(())
    }

    /// Keeps the sign of a literal whose value is taken away.
    fn keep(&mut self, literal: Literal) {
        let atom = literal.number as usize;
        if atom < self.signs.len() {
            self.signs[atom] = literal.positive;
        }
        self.first = 0;
        self.next = self.next.min(atom);
    }

    /// Keeps the signs of what stands at `cut` and behind.
    pub fn keep_from(&mut self, trail: &[Entry], cut: usize) {
        for i in cut..trail.len() {
            self.keep(trail[i].literal);
        }
    }

    /// The sign that the atom had last.
    pub fn sign(&self, atom: u32) -> bool {
        match self.signs.get(atom as usize) {
            Some(sign) => *sign,
            None => false,
        }
    }

    /// Makes room for the score of an atom.
    fn reach_score(&mut self, atom: u32) -> Result<(), AllocError> {
        for _ in self.scores.len()..=atom as usize {
            self.scores.push(0)?;
        }
        for _ in self.ranks.len()..=atom as usize {
            self.ranks.push(0)?;
        }
        Ok(())
    }

    /// Whether the first atom is to be chosen before the second one.
    fn is_before(&self, first: u32, second: u32) -> bool {
        let score = self.score(first);
        let other = self.score(second);
        score > other || (score == other && self.rank(first) < self.rank(second))
    }

    /// Moves the active atom at this place forward to where it belongs.
    fn lift(&mut self, place: usize) {
        let mut at = place;
        while at > 0 && at < self.active.len() {
            if !self.is_before(self.active[at], self.active[at - 1]) {
                return;
            }
            self.active.swap(at - 1, at);
            at -= 1;
        }
    }

    /// Where an active atom stands.
    fn place(&self, atom: u32) -> Option<usize> {
        for i in 0..self.active.len() {
            if self.active[i] == atom {
                return Some(i);
            }
        }
        None
    }

    /// An atom gets its first score.
    fn activate(&mut self, atom: u32) -> Result<(), AllocError> {
        if (atom as usize) < self.ranks.len() {
            self.ranks[atom as usize] = self.active.len();
        }
        self.active.push(atom)?;
        Ok(())
    }

    /// Adds to the score of an atom.
    fn bump(&mut self, atom: u32) -> Result<(), AllocError> {
        self.reach_score(atom)?;
        let score = self.score(atom);
        if score == 0 {
            self.activate(atom)?;
        }
        self.write(atom, score.saturating_add(self.step));
        if let Some(place) = self.place(atom) {
            self.lift(place);
        }
        Ok(())
    }

    /// Writes the score of an atom that has room.
    fn write(&mut self, atom: u32, score: u64) {
        if (atom as usize) < self.scores.len() {
            self.scores[atom as usize] = score;
        }
    }

    /// Makes all scores smaller. None becomes 0.
    fn shrink(&mut self) {
        for i in 0..self.scores.len() {
            let score = self.scores[i];
            if score > 0 {
                self.scores[i] = (score >> 32) + 1;
            }
        }
        self.step = (self.step >> 32).max(STEP);
        for at in 0..self.active.len() {
            self.lift(at);
        }
    }

    /// Later conflicts count more.
    fn grow(&mut self) {
        self.step = self.step.saturating_add(self.step / 16);
        if self.step > MOST {
            self.shrink();
        }
    }

    /// Counts a conflict for the atoms of these literals.
    pub fn count(&mut self, literals: &[Literal]) -> Result<(), AllocError> {
        self.first = 0;
        for literal in literals {
            self.bump(literal.number)?;
        }
        self.grow();
        Ok(())
    }

    /// The score of an atom.
    fn score(&self, atom: u32) -> u64 {
        match self.scores.get(atom as usize) {
            Some(score) => *score,
            None => 0,
        }
    }

    /// How many atoms had a score before this one.
    fn rank(&self, atom: u32) -> usize {
        match self.ranks.get(atom as usize) {
            Some(rank) => *rank,
            None => 0,
        }
    }

    /// Of the atoms that have a score and no value, the one with the highest score.
    pub fn best(&mut self, values: &[Value]) -> Option<u32>
        ensures { IfSome result (λ atom. slice_get values.now atom ≡ Some Value.Unset) }
    {
        for place in self.first..self.active.len() {
            let atom = self.active[place];
            if is_unset(values, atom) {
                self.first = place;
                return Some(atom);
            }
        }
        self.first = self.active.len();
        None
    }
}

/// Has the atom no value?
fn is_unset(values: &[Value], atom: u32) -> bool
    ensures { result ≡ true → slice_get values.now atom ≡ Some Value.Unset }
{
    match values.get(atom as usize) {
        None => false,
        Some(value) => match value {
            Value::Unset => true,
            Value::Positive(_) => false,
            Value::Negative(_) => false,
        },
    }
}
