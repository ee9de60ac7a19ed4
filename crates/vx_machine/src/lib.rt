//! The resumable machine: it executes a member by the written rules and gives control back at every question.
#![tactic(auto)]

mod machine;
mod ready;
mod run;
mod tells;

pub use machine::{Ask, Machine, Outcome};
