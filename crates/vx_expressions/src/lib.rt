//! Which expressions and assertions are typed, and the first fault of one that isn't.
#![tactic(auto, using(crate::proofs::Fails::passed_on))]

mod amounts;
mod assertions;
mod expectations;
mod expr;
mod fault;
mod laws;
mod operators;
mod setting;

pub use assertions::{Claim, assertion, call};
pub use expectations::{expect, place};
pub use expr::{arguments_fit, check, check_all, field_type, instance, read, share, unknown};
pub use fault::{Expected, TypeFault, word_of};
pub use laws::{
    assertions_are_told, example_assertions, example_expressions, pure_assertions_are_expressions,
    types_are_single, types_are_told,
};
pub use setting::{Members, Setting, Signature, Variable, Variables, find, member};
