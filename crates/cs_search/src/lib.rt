//! Search for an assignment that satisfies clauses, with learning.
#![tactic(auto)]

pub use cs_certificate::{Clause, Literal};

/// An atom's value, with its place on the trail.
#[derive(Clone, Copy)]
pub enum Value {
    Unset,
    Positive(usize),
    Negative(usize),
}

/// A literal's truth, with its place on the trail.
#[derive(Clone, Copy)]
pub enum Status {
    Unassigned,
    True(usize),
    False(usize),
}

/// A literal made true: by the clause of this number, or by a decision.
#[derive(Clone, Copy)]
pub struct Entry {
    pub literal: Literal,
    pub reason: Option<usize>,
}

pub mod add;
pub mod analyse;
pub mod assignment;
pub mod choose;
pub mod examine;
pub mod laws;
pub mod learn;
pub mod order;
pub mod propagate;
pub mod queue;
pub mod rows;
pub mod search;
pub mod settle;
