//! The tables that an assignment makes.
#![tactic(auto)]

ghost use Rattle.cs_tables.specs.Laws.{EachIsTold, Examples};

mod elements;
mod tables;

pub use tables::{tables_of, tables_over};

/// Each assignment is told by the lists of its truths and of its classes.
#[tactic(auto, using(crate::proofs::Laws::each_is_told))]
pub fn assignments_are_told()
    ensures { EachIsTold }
{}

/// Lines of tables, by hand.
pub fn examples()
    ensures { Examples }
{}
