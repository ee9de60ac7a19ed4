//! Which command an s-expression is, over what is declared.
#![tactic(auto)]

mod build;
mod command;
mod fault;
mod head;
mod laws;
mod live;
mod name;
mod number;
mod reading;
mod term;
mod word;

pub use fault::{CommandFault, Fault};
pub use laws::{
    examples, stays_apart, understood_has_word, understood_in_any_order, understood_is_sorted,
    understood_is_writable, understood_may_follow, written_is_understood,
};
pub use live::Live;
pub use reading::understand;
