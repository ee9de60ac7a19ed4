//! The text of commands of SMT-LIB 2.6, and of their terms.
#![tactic(auto)]

mod laws;
mod terms;
mod text;

pub use laws::{spells_once, written_spells};
pub use terms::put_term;
pub use text::{put_number, put_numeral, write};
