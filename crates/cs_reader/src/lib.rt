//! Certificates of unsatisfiability as they are written.
#![tactic(auto)]

mod decimal;
mod index;
mod key;
mod mark;
mod reader;
mod refusal;
mod spell;
mod step;
mod stop;
mod symbols;
mod word;

pub use index::SymbolIndex;
pub use key::symbol_key;
pub use reader::ReadFault;
pub use refusal::Refusal;
pub use spell::{Scope, spelled};
pub use step::{Certificate, Literal, Step};
pub use stop::Stop;
pub use symbols::Symbols;
