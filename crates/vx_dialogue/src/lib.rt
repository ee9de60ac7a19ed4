//! The dialogue with one child, over any link.
#![tactic(auto)]

mod base;
mod batch;
mod dialogue;
pub mod examples;
mod item;
mod laws;
mod pending;
mod preamble;
mod question;
mod scope;
mod standing;
mod symbols;
mod talk;

pub use base::Base;
pub use dialogue::Dialogue;
pub use laws::{questions_are_live, scripts_are_well_formed};
pub use talk::Talk;
