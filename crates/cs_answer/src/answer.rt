//! What a check is answered.

use cs_model::Model;
use cs_proof::Step;
use vx_frac::Over;

/// The answer to a check.
#[derive(Drop)]
pub enum Answer {
    /// No interpretation makes all assertions true: the checker has finished these steps.
    Refuted(Vec<Step>),
    /// The model makes all assertions true.
    Satisfied(Model),
    /// The check is undecided.
    Unknown(Cause),
}

/// Why a check is undecided.
#[derive(Clone, Drop)]
pub enum Cause {
    /// An attempt did all that it may: its steps show a thousand deeds or more, and derive no empty clause.
    Budget,
    /// This call of a fraction leaves 128 bits, and some literal has a numerator or a denominator of at least 32,768 in size.
    Over(Over),
    /// The meaning of the term of this number was needed: a product of two terms that are no literals, or a quotient or
    /// remainder by a term that isn't a literal other than 0. Terms are numbered as certificates do.
    Nonlinear(u32),
}
