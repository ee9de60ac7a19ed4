//! Generated programs: fields, predicates and as many methods as are asked for.
#![tactic(auto)]

mod fault;
mod laws;
mod text;

pub use fault::GenFault;
pub use laws::generated_is_typed;
pub use text::generate;
