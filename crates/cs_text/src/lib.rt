//! The text of certificates.
#![tactic(auto)]

mod items;
mod laws;
mod text;

pub use laws::written_is_read_back;
pub use text::write;
