//! The merges that an explanation needs.
ghost use Rattle.std.specs.Prelude.{◌≡◌, ◌<◌, ℕ, true, false, MatchOption, OnOk};
ghost use Rattle.cs_cong.specs.Marked.{is_marked};

use crate::merges::Want;
use std::alloc::Global;
use std::collections::BTreeSet;

/// Numbers of merges. They are taken from the last one down, and those that are added stand before the one that was taken.
#[derive(Drop)]
pub struct Needs {
    pub(crate) all: BTreeSet<u32>,
    // those that weren't taken
    waiting: BTreeSet<u32>,
    // the one that was taken last
    pub(crate) time: u32,
    ghost waits: { (k : ℕ) → k < time → is_marked all k ≡ true → is_marked waiting k ≡ true },
    ghost before: { (k : ℕ) → is_marked waiting k ≡ true → k < time },
}

impl Needs {
    /// None, of merges before this one.
    pub fn new(alloc: Global, time: u32) -> Needs
        ensures time { result.time ≡ time }
        ensures none { (k : ℕ) → is_marked result.all k ≡ false }
    {
        Needs {
            all: BTreeSet::new(alloc),
            waiting: BTreeSet::new(alloc),
            time,
        }
    }

    /// A further one.
    pub fn add(&mut self, at: u32) -> Result<(), Want>
        requires { at < self.old.time }
        ensures time { self.new.time ≡ self.old.time }
        ensures here { OnOk result (is_marked self.new.all at ≡ true) }
        ensures others { OnOk result ((k : ℕ) → (k ≡ at → ⊥) → is_marked self.new.all k ≡ is_marked self.old.all k) }
    {
        self.waiting.insert(at)?;
        self.all.insert(at)?;
        Ok(())
    }

    /// Takes the last one of those that weren't taken.
    pub fn next(&mut self) -> Option<u32>
        ensures all { self.new.all ≡ self.old.all }
        ensures taken { MatchOption result ((k : ℕ) → k < self.old.time → is_marked self.old.all k ≡ false) (λ at. at < self.old.time) }
        ensures time { MatchOption result (self.new.time ≡ self.old.time) (λ at. self.new.time ≡ at) }
        ensures last { MatchOption result (self.new.time ≡ self.old.time) (λ at. (k : ℕ) → at < k → k < self.old.time → is_marked self.old.all k ≡ false) }
    {
        match self.waiting.pop_last() {
            None => None,
            Some(at) => {
                self.time = at;
                Some(at)
            }
        }
    }

    /// Those that were added.
    pub fn found(self) -> BTreeSet<u32>
        ensures { result ≡ self.all }
    {
        self.all
    }
}
