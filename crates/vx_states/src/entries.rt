//! The entries of a path, and those of a kind joined.

ghost use Rattle.std.specs.Prelude.{◌≡◌, ◌-◌, ◌∷◌, List, IfOk, true, false, drop, if◌then◌else◌, length, map, not};
ghost use Rattle.vx_heap.specs.Views.{held_term};
ghost use Rattle.vx_states.specs.Views.{entry};
ghost use Rattle.vx_rules.specs.States as states;
ghost use Rattle.vx_states.specs.Paths.{entries};
ghost use Rattle.vx_states.specs.SymStates.{state};

use crate::{Path, SymState};
use std::alloc::{AllocError, Global};
use std::rc::Rc;
use vx_terms::{Term, make};

/// An entry of a path.
#[derive(Drop)]
pub struct Entry {
    pub term: Rc<Term>,
    pub is_branch: bool,
}

/// The newest so many entries, in path order; where there are fewer, all of them.
#[tactic(auto, using(crate::proofs::Taken::taken_over))]
pub(crate) fn newest(alloc: Global, path: &Path, count: usize) -> Result<Vec<Entry>, AllocError>
    ensures { IfOk result (λ v. map entry v.items ≡ drop (length (entries path.now) - count) (entries path.now)) }
{
    let mut taken = Vec::new(alloc);
    let mut rest = path;
    let mut left = count;
    'entries: while left > 0 {
        match rest {
            Path::Empty => break 'entries,
            Path::Branch(before, entry) => {
                taken.push(Entry {
                    term: entry.term.clone()?,
                    is_branch: true,
                })?;
                rest = before;
            }
            Path::Fact(before, entry) => {
                taken.push(Entry {
                    term: entry.term.clone()?,
                    is_branch: false,
                })?;
                rest = before;
            }
        }
        left -= 1;
    }
    taken.reverse();
    Ok(taken)
}

/// Whether an entry is of a kind: a branch, or a fact.
fn is_of(e: &Entry, branches: bool) -> bool
    ensures { result ≡ (if branches then (entry e.now).branch else not (entry e.now).branch) }
{
    if branches { e.is_branch } else { !e.is_branch }
}

/// One entry more, where it is of the kind.
fn joined(alloc: Global, all: Rc<Term>, branches: bool, e: &Entry) -> Result<Rc<Term>, AllocError>
    ensures { IfOk result (λ more. (rest : List states.Entry) → states.joined_onto (held_term more) branches rest ≡ states.joined_onto (held_term all) branches (entry e.now ∷ rest)) }
{
    if is_of(e, branches) {
        return make::and(alloc, &all, &e.term);
    }
    Ok(all)
}

/// Those of a kind joined, in path order.
pub(crate) fn conjunction(
    alloc: Global,
    branches: bool,
    those: &[Entry],
) -> Result<Rc<Term>, AllocError>
    ensures { IfOk result (λ t. held_term t ≡ states.conjunction branches (map entry those.now)) }
{
    let mut all = make::boolean(alloc, true)?;
    for e in those {
        all = joined(alloc, all, branches, e)?;
    }
    Ok(all)
}

/// The branches that a side brought, joined, and its facts, joined.
#[derive(Drop)]
pub(crate) struct News {
    pub branches: Rc<Term>,
    pub facts: Rc<Term>,
}

/// What a state has on its path that an earlier one had not.
pub(crate) fn news_since(
    alloc: Global,
    before: &SymState,
    after: &SymState,
) -> Result<News, AllocError>
    ensures branches { IfOk result (λ b. held_term b.branches ≡ states.conjunction true (states.new_entries (state before.now) (state after.now))) }
    ensures facts { IfOk result (λ b. held_term b.facts ≡ states.conjunction false (states.new_entries (state before.now) (state after.now))) }
{
    let count = after.path.count.saturating_sub(before.path.count);
    let new = newest(alloc, &after.path.path, count)?;
    Ok(News {
        branches: conjunction(alloc, true, &new)?,
        facts: conjunction(alloc, false, &new)?,
    })
}
