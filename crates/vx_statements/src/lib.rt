//! Which statements are typed, and the first fault of one that isn't.
#![tactic(auto, using(vx_expressions::proofs::Fails::passed_on))]

mod laws;
mod names;
mod stmt;

pub use laws::statements_are_told;
pub use names::{Role, add_name, declare, twice};
pub use stmt::{asserted, block, truth};
