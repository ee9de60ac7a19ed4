//! The report: a line for each member with its verdict, and the total line.
#![tactic(auto)]

mod report;
mod run;
mod status;

pub use report::{code_word, reply_word, write_place, write_report, write_total};
pub use run::{Cause, MemberRun, Verdict};
pub use status::{Status, status_of};
