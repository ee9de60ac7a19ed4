//! The steps of a certificate, each of which meets its rule as it is made.
#![tactic(auto)]

ghost use Rattle.cs_derivation.specs.Finish.{Finishes};

mod derivation;
mod naming;
mod numbers;
mod seen;
mod start;
mod steps;

pub use derivation::Derivation;

/// Where the steps lead to an empty clause, they are finished, and all of them are writable.
pub fn empty_clauses_finish()
    ensures { Finishes }
{}
