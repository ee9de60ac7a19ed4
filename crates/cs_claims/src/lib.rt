//! What an assignment claims of classes, and the clauses that contradictions among claims and among numbers teach, whose steps are
//! recorded. It is safe, and it ends; the checker judges the steps.
#![tactic(auto)]

pub mod claims;
pub mod farkas;
pub mod held;
pub mod lemma;
mod numbers;
pub mod shortcuts;
