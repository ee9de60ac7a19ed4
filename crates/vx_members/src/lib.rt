//! The steps that reach into another member, those of calls and of `fold`, and the sides that members begin with.
#![tactic(auto)]

mod calls;
mod folds;
mod member;

pub use calls::{at_returns, postcondition, step_call, step_return, way_back};
pub use folds::{instance_of, step_fold, step_fold_amount, step_folded, step_unfold_amount};
pub use member::{Promise, first_side, make_promise, predicate_side, step_sides};
