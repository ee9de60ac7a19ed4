//! What a member of a settled program leads to by what it mentions.
#![tactic(auto)]

mod closure;
mod mentions;
mod rows;

pub use closure::leaders;
pub use rows::mentioners;
