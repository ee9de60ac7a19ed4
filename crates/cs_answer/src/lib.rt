//! What a check is answered, and what makes such an answer right: the checker of certificates finishes the steps, a model makes all
//! assertions true, or an undecided check has a cause, which is looked at again. Which stacks are always decided.
#![tactic(auto)]

mod answer;
mod deeds;
mod few;
mod formed;
mod judging;
mod large;
mod nonlinear;

pub use answer::{Answer, Cause};
pub use few::is_few;
pub use judging::{certified, evaluated, stopped};
pub use nonlinear::is_nonlinear;
