//! What the verdict of a member rests on.
#![tactic(auto)]

mod held;
mod resting;
mod worked;

pub use resting::rest;
pub use worked::a_method_rests_on_its_predicate;
