//! Runs the rows of a table of certificates, dialogues and ends in memory, and writes what came of each; and a script of commands by sessions of the
//! companion solver, with what its checks are answered.
//! `docs/ROWS.md` tells what a table is made of.
#![tactic(auto)]

mod answered;
mod checked;
mod counted;
mod dialogues;
mod links;
mod memories;
mod names;
mod numbered;
mod outside;
mod reading;
mod row;
mod script;
mod sizes;
mod table;
mod told;
mod written;

pub use script::run_script;
pub use table::run_all;
