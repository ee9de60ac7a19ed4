//! Terms of a path with the numbers of their segments. A segment is what a member's execution adds on one side of a fork: what stands in
//! it is taken back as a whole, once that side is over.
#![tactic(auto)]

ghost use Rattle.std.specs.Prelude.{◌≡◌, IfOk};
ghost use Rattle.vx_segments.specs.Views.{entry as entry_of};

use std::alloc::AllocError;
use std::rc::Rc;
use vx_terms::Term;

/// A term of a path, with the number of its segment. The first segment, which is there from the member's start on, has number 0.
#[derive(Drop)]
pub struct Entry {
    pub segment: u64,
    pub term: Rc<Term>,
}

impl Entry {
    /// The same entry once more.
    pub fn copy(&self) -> Result<Entry, AllocError>
        ensures { IfOk result (λ copy. entry_of copy ≡ entry_of self.now) }
    {
        Ok(Entry {
            segment: self.segment,
            term: self.term.clone()?,
        })
    }
}
