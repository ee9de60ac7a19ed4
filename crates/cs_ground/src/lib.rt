//! Decides a stack without numbers by all clauses that its terms give at once: the equalities of its terms, the clauses that rules give of them,
//! a search over these, and a model of an assignment that satisfies them all.
#![tactic(auto)]

ghost use Rattle.cs_ground.specs.Laws.{SatisfiedIsEquivalence, SatisfiedAgrees, SatisfiedAssigns};

mod aliases;
mod atoms;
mod classes;
mod clauses;
mod feed;
mod joins;
mod made;
mod models;
mod pairs;
mod replay;
mod settled;
mod solving;

pub use made::{Ground, ground_of};
pub use settled::{Settled, settle};

/// Where an assignment satisfies all clauses of a grounded stack, the terms that it makes equal are so in either order and one after
/// another; with their classes it agrees with the rows of Bool terms and with congruence, and makes a model where there are no numbers.
pub fn satisfied_assigns()
    ensures equivalence { SatisfiedIsEquivalence }
    ensures agrees { SatisfiedAgrees }
    ensures assigns { SatisfiedAssigns }
{}
