//! Within what something is evaluated.
use crate::blame::Blame;

/// The state in which something is evaluated.
#[derive(Clone, Copy)]
pub enum When {
    Now,
    /// In the old part.
    Before,
}

/// Whether what is read, applied and unfolded has to be held, or permissions are ignored.
#[derive(Clone, Copy)]
pub enum Reading {
    Permitted,
    Free,
}

/// How many calls, applications and instances may still be within one another, and how a failure counts.
#[derive(Clone, Copy)]
pub struct Within {
    pub level: u64,
    pub blame: Blame,
}
