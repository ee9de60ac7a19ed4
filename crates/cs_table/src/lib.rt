//! Numbered terms in code: each a head over the numbers of its parts.
#![tactic(auto)]

mod key;
mod look;
mod node;
mod numbers;
mod steps;
mod table;

pub use key::{key_of_operator, key_of_part, key_of_symbol};
pub use look::{equality, number_of};
pub use node::{Head, Node};
pub use numbers::{divide, split};
pub use steps::{Literal, Stop, chain, congruence, define, pick, trichotomy};
pub use table::Table;
