//! Constraints, by the numbers of their sides.
use vx_frac::Frac;

/// What left less right is.
#[derive(Clone, Copy)]
pub enum Relation {
    AtMostZero,
    BelowZero,
    IsZero,
}

/// A constraint, by the numbers of its sides.
#[derive(Clone, Copy)]
pub struct Bound {
    pub left: u32,
    pub right: u32,
    pub relation: Relation,
}

/// A constraint and its multiplier.
#[derive(Clone, Copy)]
pub struct Part {
    pub bound: Bound,
    pub multiplier: Frac,
}

/// The sort of all sides.
#[derive(Clone, Copy)]
pub enum Numbers {
    Int,
    Real,
}

/// Constraints of one sort, with their multipliers.
#[derive(Drop)]
pub struct Combination {
    pub numbers: Numbers,
    pub parts: Vec<Part>,
}
