//! Executes the members of a typed program in file order, and asks a solver the questions that come up. The clauses of
//! `verify` are what is promised of that.
#![tactic(auto)]

mod line;
mod members;
mod outset;
mod program;
mod symbols;
mod verifying;

pub use program::{settled, typed_programs_are_whole};
pub use verifying::{Runs, Verification, verify};
