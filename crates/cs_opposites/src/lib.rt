//! Assertions that hold `false`, or a term and its negation, and the steps that refute them.
#![tactic(auto)]

ghost use Rattle.cs_opposites.specs.Law.{Law};

mod find;
mod refute;
mod steps;

pub use refute::opposed;

/// No interpretation makes assertions true that hold `false`, or a term and its negation.
pub fn opposites_refute()
    ensures { Law }
{}
