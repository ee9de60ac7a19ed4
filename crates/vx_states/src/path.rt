//! The path of a symbolic state, which its copies and its questions share.

ghost use Rattle.std.specs.Prelude.{◌≡◌, ◌-◌, IfOk, drop, length, map};
ghost use Rattle.vx_rules.specs.States.{path_terms};
ghost use Rattle.vx_states.specs.Paths.{entries};
ghost use Rattle.vx_heap.specs.Views.{held_term};

use std::alloc::{AllocError, Global};
use std::rc::Rc;
use vx_segments::Entry;

/// The assertions of a path, with the segments that they stand in. It is held from its newest entry on, so that a longer path shares the shorter one, and a
/// copy takes no longer than one entry.
pub enum Path {
    Empty,
    /// A branch's condition.
    Branch(Rc<Path>, Entry),
    Fact(Rc<Path>, Entry),
}

impl Drop for Path {
    fn drop(mut self) {
        loop {
            let before = match self {
                Path::Empty => return,
                Path::Branch(before, _entry) | Path::Fact(before, _entry) => before,
            };
            match Rc::into_inner(before) {
                Some(next) => self = next,
                None => return,
            }
        }
    }
}

impl Path {
    /// The same path once more.
    pub fn copy(&self) -> Result<Path, AllocError>
        ensures { IfOk result (λ copy. entries copy ≡ entries self.now) }
    {
        Ok(match self {
            Path::Empty => Path::Empty,
            Path::Branch(before, entry) => Path::Branch(before.clone()?, entry.copy()?),
            Path::Fact(before, entry) => Path::Fact(before.clone()?, entry.copy()?),
        })
    }

    /// The entries in order, the oldest first.
    #[tactic(auto, using(crate::proofs::Stores::taken_over))]
    pub fn entries(&self, alloc: Global) -> Result<Vec<Entry>, AllocError>
        ensures { IfOk result (λ v. map (λ e. held_term e.term) v.items ≡ path_terms (entries self.now)) }
    {
        let mut taken = Vec::new(alloc);
        let mut rest = self;
        'entries: loop {
            match rest {
                Path::Empty => break 'entries,
                Path::Branch(before, entry) | Path::Fact(before, entry) => {
                    taken.push(entry.copy()?)?;
                    rest = before;
                }
            }
        }
        taken.reverse();
        Ok(taken)
    }

    /// The newest entries, so many or all, the oldest of them first. It takes no longer than for these.
    #[tactic(auto, using(crate::proofs::Stores::taken_over, crate::proofs::Stores::newest_taken, crate::proofs::Stores::all_taken))]
    pub fn newest(&self, alloc: Global, count: usize) -> Result<Vec<Entry>, AllocError>
        ensures { IfOk result (λ v. map (λ e. held_term e.term) v.items ≡ drop (length (entries self.now) - count) (path_terms (entries self.now))) }
    {
        let mut taken = Vec::new(alloc);
        let mut rest = self;
        'entries: loop {
            if taken.len() >= count {
                break 'entries;
            }
            match rest {
                Path::Empty => break 'entries,
                Path::Branch(before, entry) | Path::Fact(before, entry) => {
                    taken.push(entry.copy()?)?;
                    rest = before;
                }
            }
        }
        taken.reverse();
        Ok(taken)
    }
}
