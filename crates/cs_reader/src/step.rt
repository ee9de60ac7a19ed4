//! The steps of a certificate, as they are written.

use vx_frac::Frac;
use vx_sexp::Token;

/// A numbered term, or its negation.
#[derive(Clone, Copy, PartialEq, Eq)]
pub struct Literal {
    pub positive: bool,
    pub number: u128,
}

/// A step. Terms, assertions and clauses are named by their numbers, which are below 2^127.
#[derive(Drop)]
pub enum Step {
    Input(u128),
    /// A term by its tokens.
    Term(Vec<Token>),
    Define(u128, u128),
    Pick(u128, u128),
    Chain(Vec<u128>),
    Congruence(u128, u128),
    Farkas(Vec<Literal>, Vec<Frac>),
    Split(u128, i128),
    Trichotomy(u128, u128),
    Divide(u128, u128, u128),
    Propagate(Vec<Literal>, Vec<u128>),
}

/// A certificate: its steps in order.
#[derive(Drop)]
pub struct Certificate {
    pub steps: Vec<Step>,
}
