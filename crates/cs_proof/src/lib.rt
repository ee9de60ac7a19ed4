//! The checker of certificates.
#![tactic(auto)]

ghost use Rattle.cs_proof.specs.Law.{IsFinishedToo, IsRefuted};

mod checker;
mod narrow;
mod plans;
mod prepare;
mod stack;
mod step;

pub use checker::{Checker, Want};
pub use prepare::{Duty, prepared};
pub use stack::Stack;
pub use step::{Step, step_of};

/// Where a checker answers that a certificate is finished, it is, and no interpretation makes all
/// assertions true.
pub fn finished_refutes()
    ensures finished { IsFinishedToo }
    ensures refuted { IsRefuted }
{}
