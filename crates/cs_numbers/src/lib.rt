//! The numbers of terms, and the table of numbered terms.
#![tactic(auto)]

ghost use Rattle.cs_numbers.specs.Laws.{Numbers, NumbersMore, Tabulates, InputByNumber};
ghost use Rattle.cs_numbers.specs.Examples.{Examples};

mod adding;
mod extending;
mod key;
mod occurrence;
mod occurring;
mod parts;
mod table;
mod terms;

pub use adding::{add, number};
pub use extending::extend;
pub use table::{node_at, node_of, nodes_of, place_of};
pub use terms::NumberedTerms;

/// Numbers are given as certificates number terms.
pub fn numbers_are_given()
    ensures first { Numbers }
    ensures more { NumbersMore }
{}

/// The nodes of numbered terms represent them.
pub fn nodes_represent()
    ensures table { Tabulates }
    ensures input { InputByNumber }
{}

/// Terms with their numbers, and without one.
pub fn examples()
    ensures { Examples }
{}
