//! Decides a stack of assertions: search over clauses, classes of equal terms, linear arithmetic and models, joined. A refutation is
//! answered only where the checker of certificates finishes its steps and all of them are writable, and a model only where it makes all assertions true. A stack
//! without numbers of which few terms are Bool is always decided.
#![tactic(auto)]

mod attempts;
mod beginning;
mod cases;
mod check;
mod clashes;
mod elements;
mod figures;
mod forced;
mod lemmas;
mod misread;
mod model;
mod products;
mod settled;
mod signs;
mod turns;

pub use attempts::decide;
