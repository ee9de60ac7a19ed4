//! A path with an index, by which its terms are found again without a walk.

ghost use Rattle.std.specs.Prelude.{◌≡◌, ◌+◌, [], IfOk, true, false, length};
ghost use Rattle.vx_states.specs.Index.{IsIndexed};
ghost use Rattle.vx_rules.specs.States.{in_path};
ghost use Rattle.vx_states.specs.Paths.{entries, extended};
ghost use Rattle.vx_heap.specs.Views.{held_term};
ghost use Rattle.vx_terms.specs.Views.{term};

use crate::Path;
use crate::index::{Index, with_term};
use crate::key::key;
use std::alloc::{AllocError, Global};
use std::rc::Rc;
use vx_segments::Entry;
use vx_terms::Term;

/// A path whose terms are indexed, with the number of its entries, and that of the segment in which new ones stand.
pub struct IndexedPath {
    pub path: Path,
    pub index: Index,
    pub count: usize,
    pub segment: u64,
    ghost indexed: { IsIndexed (entries path) index },
    ghost counted: { count ≡ length (entries path) },
}

impl Drop for IndexedPath {
    fn drop(self) {
        let Self {
            path,
            index,
            count,
            segment,
        } = self;
    }
}

/// One entry more; a number that has no room for it is want of memory.
fn one_more(count: usize) -> Result<usize, AllocError>
    ensures { IfOk result (λ n. n ≡ count + 1) }
{
    match count.checked_add(1) {
        Some(more) => Ok(more),
        None => Err(AllocError),
    }
}

impl IndexedPath {
    /// No entries.
    pub fn new() -> IndexedPath
        ensures { entries result.path ≡ [] }
    {
        IndexedPath {
            path: Path::Empty,
            index: Index::Nothing,
            count: 0,
            segment: 0,
        }
    }

    /// The same path once more.
    pub fn copy(&self) -> Result<IndexedPath, AllocError>
        ensures { IfOk result (λ copy. entries copy.path ≡ entries self.now.path) }
    {
        Ok(IndexedPath {
            path: self.path.copy()?,
            index: self.index.copy()?,
            count: self.count,
            segment: self.segment,
        })
    }

    /// Whether a term is an entry.
    pub fn holds(&self, t: &Term) -> bool
        ensures { result ≡ in_path (term t.now) (entries self.now.path) }
    {
        self.index.holds(key(t), t)
    }

    /// A fact after the others.
    pub fn add_fact(self, alloc: Global, t: Rc<Term>) -> Result<IndexedPath, AllocError>
        ensures { IfOk result (λ more. entries more.path ≡ extended (entries self.path) (held_term t) false) }
    {
        let IndexedPath {
            path,
            index,
            count,
            segment,
        } = self;
        let index = with_term(alloc, &index, 0, key(&t), &t)?;
        let path = Path::Fact(Rc::new(alloc, path)?, Entry { segment, term: t });
        let count = one_more(count)?;
        Ok(IndexedPath {
            path,
            index,
            count,
            segment,
        })
    }

    /// A branch's condition after the others.
    pub fn add_branch(self, alloc: Global, t: Rc<Term>) -> Result<IndexedPath, AllocError>
        ensures { IfOk result (λ more. entries more.path ≡ extended (entries self.path) (held_term t) true) }
    {
        let IndexedPath {
            path,
            index,
            count,
            segment,
        } = self;
        let index = with_term(alloc, &index, 0, key(&t), &t)?;
        let path = Path::Branch(Rc::new(alloc, path)?, Entry { segment, term: t });
        let count = one_more(count)?;
        Ok(IndexedPath {
            path,
            index,
            count,
            segment,
        })
    }
}
