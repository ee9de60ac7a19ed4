//! The rules of functions, step by step: applications and their measures, and how a function is verified.
#![tactic(auto)]

mod apply;
mod measure;
mod verified;

pub use apply::{step_applied, step_apply};
pub use measure::step_measured;
pub use verified::{step_entry, step_measure, step_run, verified_side};
