//! Which terms and steps are writable: their text is one that is read back.
#![tactic(auto)]

mod small;
mod term_walk;
mod writable;

pub use term_walk::is_writable_term;
pub use writable::are_writable;
