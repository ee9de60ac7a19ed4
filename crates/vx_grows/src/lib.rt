//! The paths of a member's questions only grow.
#![tactic(auto)]

ghost use Rattle.vx_grows.specs.Grows.{GrowthLaw};

/// In a member's tree the path of each question begins with the path of the question above it: on each way down the tree,
/// whatever the replies, a path only grows. Both sides of a fork go on from the question above it. It is so for every program,
/// also for one that isn't typed.
pub fn paths_only_grow()
    ensures { GrowthLaw }
{}
