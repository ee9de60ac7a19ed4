//! What the words of the command line mean.
#![tactic(auto)]

mod command_table;
mod numbers;
mod order;
mod reading;
mod solver;
mod text;
mod words;

pub use order::{Order, WordsFault};
pub use text::Text;
pub use words::{no_command, read_words};
