//! The companion solver in process: a session that is spoken to by a link.
#![tactic(auto)]

mod builtin;
mod laws;

pub use builtin::{Builtin, CompanionLink, EndedLink};
pub use laws::{answers_are_right, replies_are_lawful};
