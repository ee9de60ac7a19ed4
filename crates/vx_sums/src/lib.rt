//! A location is read, written or taken by what all its chunks have together.
#![tactic(auto)]

mod located;
mod over;
mod starts;

pub use over::{read_over, take_over, write_over};
pub use starts::{read, take, write};
