//! Settling: from a program as it is written to the settled syntax that meaning and rules speak of.
#![tactic(auto)]

mod assertions;
mod clauses;
mod edges;
mod expr;
mod functions;
mod groups;
mod members;
mod mentions;
mod names;
mod stmt;
mod table;

pub use members::settle;
