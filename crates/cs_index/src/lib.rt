//! Numbers that are found by keys.
#![tactic(auto)]

mod index;
mod key;

pub use index::Index;
pub use key::{mix, mix_bytes, mix_numbers, mix_wide};
