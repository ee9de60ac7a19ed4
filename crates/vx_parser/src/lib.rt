//! From the bytes of a text to its program.
#![tactic(auto)]

mod fault;
mod member;
mod program;
mod stop;

pub use fault::TextFault;
pub use program::{parse, unsupported};
