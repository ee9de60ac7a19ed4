//! Tables of rows, which programs read from standard input to run them and to write what came of each. `docs/ROWS.md` tells
//! what a table is made of.
#![tactic(auto)]

mod row;
mod table;
mod text;

pub use row::{Asks, Row, Solver, Step};
pub use table::{Answers, run_all};
pub use text::Text;
