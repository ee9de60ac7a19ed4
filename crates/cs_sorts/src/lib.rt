//! Sorts of terms, and live symbols.
#![tactic(auto)]

ghost use Rattle.cs_sorts.specs.Laws.{TellsSorts, TellsLive};
ghost use Rattle.cs_sorts.specs.Examples.{Examples};

mod live;
mod sorting;

pub use live::is_live;
pub use sorting::sort_in;

/// The computed sort is the sort of a well-sorted term, and live terms are told.
pub fn sorts_are_told()
    ensures sorts { TellsSorts }
    ensures live { TellsLive }
{}

/// Terms that are well-sorted or live, and that aren't.
pub fn examples()
    ensures { Examples }
{}
