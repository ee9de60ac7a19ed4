//! The companion solver over streams: it reads commands, answers each, and puts the answers.
#![tactic(auto)]

mod answer;
mod bytes;
mod ending;
mod next;
mod solver;
mod space;
#[cfg(test)]
mod tests;

pub use ending::Ending;
pub use next::Next;
pub use solver::{Solver, serve, serve_both};
