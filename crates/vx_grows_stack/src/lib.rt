//! The paths of the questions of a side that waits only grow from the path of its state.
#![tactic(auto)]

ghost use Rattle.vx_grows_stack.specs.Sides.{SidesGrow};

/// Whatever waits on the stack: in the tree that a side stands for the path of each question begins with the path of the
/// question above it, and the first ones with the path of the side's state.
pub fn sides_only_grow()
    ensures { SidesGrow }
{}
