//! Whole runs that choose by draws from a seed, with a number of steps and numbers of 128 bits: what the drawn run of a seed is, and
//! its interpreter.
#![tactic(auto)]

mod amounts;
mod applying;
mod asserting;
mod binding;
mod blame;
mod blocks;
mod calls;
mod change;
mod changing;
mod context;
mod draws;
mod entries;
mod evaluating;
mod filling;
mod finding;
mod firsts;
mod flattening;
mod folding;
mod frame;
mod frames;
mod fresh;
mod giving;
mod gone;
mod halt;
mod heap;
mod holdings;
mod making;
mod members;
mod operators;
mod outcome;
mod pending;
mod permissions;
mod places;
mod possible;
mod reading;
mod resource;
mod run;
mod shares;
mod state;
mod statement;
mod stepping;
mod store;
mod supply;
mod task;
mod tasks;
mod unfolding;
mod values;
mod valuing;
mod visit;
mod visiting;
mod writing;

pub use outcome::Whole;
pub use run::run_whole;
