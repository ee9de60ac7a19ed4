//! The real ends: files, standard output and child processes, each of which counts its faults, and the words of the command line. No proof says what the
//! system does behind them, so they are trusted.
#![tactic(auto)]

mod ahead;
mod child;
mod disk;
mod sink;
mod source;
mod words;

pub use child::{ChildLink, ChildSpawner};
pub use disk::DiskFiles;
pub use sink::StdSink;
pub use source::StdSource;
pub use words::command_line;
