//! Sums of numbered terms in linear arithmetic: columns of a tableau for terms and sums, comparisons as bounds of columns, contradictions
//! among them, values, and splits of Int columns whose values are no whole numbers.
#![tactic(auto)]

mod arithmetic;
mod choice;
mod columns;
mod constraints;
mod cuts;
mod equations;
mod limits;
mod loose;
mod reading;
mod stop;
mod sum;
mod values;

pub use arithmetic::{Arithmetic, Contradiction, Reason, Share};
pub use columns::{Column, Columns, Line, Named, Origin};
pub use reading::numbers_of;
pub use stop::{Stop, floor, quotient, turned};
pub use sum::{Sum, primitive};
pub use values::{Split, parts_of, small_of, split_at, split_of, split_of_column, values_of};
