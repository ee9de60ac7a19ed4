//! The session of the companion solver: commands in, replies out.
#![tactic(auto)]

mod counts;
mod laws;
mod levels;
mod proving;
mod reading;
mod reply;
mod session;

pub use cs_proof::Want;
pub use laws::{
    few_are_decided, kept_proofs_are_shown, opposites_are_refuted, undecided_has_its_cause,
};
pub use levels::Levels;
pub use reply::{Complaint, Reply};
pub use session::{Last, Session};
