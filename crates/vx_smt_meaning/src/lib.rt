//! Commands of SMT-LIB 2.6, their assertion stacks, and what a dialogue with a solver means.
#![tactic(auto)]

mod command;
mod reply;

pub use command::{Command, Declared};
pub use reply::Reply;
