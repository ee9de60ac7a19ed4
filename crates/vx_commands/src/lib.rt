//! What the program does for the words of its command line: `run` joins reading, typing, execution and report.
#![tactic(auto)]

mod answers;
mod generated;
mod output;
mod reading;
mod reports;
mod saying;
mod top;
mod whole_runs;

pub use output::Ended;
pub use reports::Telling;
pub use top::run;
