//! Interpretations by tables, and what they make of terms.
#![tactic(auto)]

mod elements;
mod tables;
mod valuing;

pub use elements::{Element, operate};
pub use tables::{Entry, Model};
pub use valuing::{Stop, evaluate, is_model};
