//! Which members lead to which: reachability, groups and closures.
#![tactic(auto)]

mod edges;
mod found;
mod groups;
mod order;
mod search;

pub use edges::{Edges, are_in_range};
pub use groups::{Groups, all_groups};
pub use search::{group, reaches, rests};
