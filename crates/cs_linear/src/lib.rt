//! Linear arithmetic: bounds of columns over rows of equations, by the simplex method.
#![tactic(auto)]

mod add;
mod bounds;
mod check;
mod columns;
mod laws;
mod limits;
mod mend;
mod numbers;
mod pivot;
mod rows;
mod tableau;
mod values;

pub use bounds::{Bound, Part, Side, Value};
pub use laws::contradictions_have_no_solution;
pub use mend::{Checked, Conflict, Undecided};
pub use numbers::Stop;
pub use rows::{Entry, Row};
pub use tableau::Tableau;
