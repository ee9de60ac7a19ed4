//! Which programs are typed, and the first fault of one that isn't.
#![tactic(auto, using(vx_expressions::proofs::Fails::passed_on))]

mod groups;
mod laws;
mod members;
mod parameters;
mod program;
mod typed;
mod uses;

pub use laws::{example_programs, groups_are_told, members_are_told, programs_are_told};
pub use program::check;
pub use typed::Typed;
pub use vx_expressions::{Expected, Signature, TypeFault, word_of};
