//! Classes of terms that are equal by what was asserted and by congruence, with explanations.
#![tactic(auto)]

mod classes;
mod congruent;
mod explain;
mod laws;
mod merges;
mod needs;
mod paths;
mod queue;
mod rows;
mod waiting;

pub use classes::Classes;
pub use congruent::{Applied, Claim};
pub use explain::{Chain, Derived};
pub use laws::{explained_are_joined, joined_are_merged, merged_are_joined, walks_lead};
pub use merges::{Link, Merge, Merges, Reason, Want};
pub use paths::Edge;
