//! From tokens to statements and blocks, and to the clauses of loops and members.
#![tactic(auto)]

mod clauses;
mod plain;
mod semicolon;
mod stmt;

pub use clauses::{begins_measure, clause, is_measure};
pub use semicolon::skip_semicolon;
pub use stmt::block;
