//! The rules of expressions, step by step.
#![tactic(auto)]

mod arguments;
mod divisions;
mod expression;
mod made;
mod operand;
mod operators;
mod waits;

pub use arguments::{step_all, step_argument};
pub use expression::step;
pub use operand::step_operand;
