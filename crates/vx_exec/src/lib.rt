//! The rules of statements, step by step.
#![tactic(auto)]

mod fields;
mod loops;
mod made;
mod statement;
mod waits;

pub use statement::{step, step_block, step_executed, step_inner};
