//! The heap of a symbolic state: chunks, those that a probe looks at, and what putting and taking an amount makes of it.
//! Values are let go by impls of `Drop`: a derived one is proved again in each crate that lets one go.
#![tactic(auto)]

mod amounts;
mod candidates;
mod chunk;
mod conditions;
mod facts;
mod heap;
mod held;
mod put;
mod references;
mod rows;
mod sums;

pub use amounts::{not_negative, positive, whole, zero};
pub use candidates::Candidate;
pub use chunk::{Chunk, Resource};
pub use conditions::{equal_arguments, holds_amount, holds_some};
pub use facts::merged;
pub use heap::SymHeap;
pub use references::{add_unlike, unlike};
pub use sums::{share, sum_at, value_facts, value_where};
