//! The steps of all rules in one place.
#![tactic(auto)]

mod consuming;
mod evaluating;
mod executing;
mod producing;
mod steps;

pub use steps::step;
