//! Sums of constraints in code: each with its multiplier, to a contradiction.
#![tactic(auto)]

ghost use Rattle.cs_farkas.specs.Bridge.{FarkasByNumber, AnyWidth};
ghost use Rattle.cs_farkas.specs.Examples.{Examples};

mod calls;
mod combine;
mod read;
mod reading;
mod rows;
mod sums;

pub use calls::Break;
pub use combine::{combination_of, refutes};
pub use read::add_all;
pub use reading::{Reading, reading_of};
pub use rows::{Bound, Combination, Numbers, Part, Relation};
pub use sums::Sums;

/// The outcome of a `farkas` step by numbers is decided by its rule, and by the fractions that it meets.
pub fn farkas_by_number()
    ensures decided { FarkasByNumber }
    ensures width { AnyWidth }
{}

/// Sums that are a contradiction, that aren't, and that leave 128 bits.
pub fn examples()
    ensures { Examples }
{}
