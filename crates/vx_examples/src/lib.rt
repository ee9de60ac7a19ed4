//! Computed examples: what the definitions of the rules and of the meaning make of small programs.
//!
//! Each function's clauses are examples: a program stands in specs/, with its text above it, and the clause says which
//! questions its tree asks, in order, or how its walk ends over some replies.
#![tactic(auto)]

pub mod amounts;
pub mod applications;
pub mod assertions;
pub mod assertions_by_rules;
pub mod calls;
pub mod code_trees;
pub mod compound;
pub mod evaluation;
pub mod expressions;
pub mod failures;
pub mod fields;
pub mod functions;
pub mod giving;
pub mod instances;
pub mod loops;
pub mod operators;
pub mod outcomes;
pub mod predicates;
pub mod refused;
pub mod rule_branches;
pub mod runs;
pub mod settling;
pub mod sorts;
pub mod statements;
pub mod store;
pub mod sums;
pub mod terms;
pub mod untyped;
pub mod values;
pub mod views;
pub mod walks;
