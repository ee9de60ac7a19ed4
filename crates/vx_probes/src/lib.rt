//! Candidate by candidate: an instance, or a location in a quiet state, is looked for in the first chunk that a probe shows to be as
//! wanted. Else a location is asked about by what all its chunks have together.
#![tactic(auto)]

mod measures;
mod probes;
mod starts;

pub use measures::{measure_from, root_from, seek_root, step_measured_by};
pub use probes::{read_from, take_from};
pub use starts::{read_field, take_instance, take_location, unfold};
