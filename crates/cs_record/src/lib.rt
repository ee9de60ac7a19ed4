//! What a check records: terms by number, the clauses of its assertions, and the steps of a certificate as they come. It is safe, and it
//! ends; the checker judges the steps.
#![tactic(auto)]

pub mod assembly;
pub mod atoms;
pub mod bounds;
pub mod cases;
pub mod clauses;
pub mod draft;
pub mod numbered;
pub mod orders;
