//! What is still to be done of assertions.
use crate::blame::Blame;
use crate::context::Within;
use crate::resource::Instance;
use crate::state::State;
use std::rc::Rc;
use vx_ast::Place;
use vx_frac::Frac;
use vx_resolved::Assertion;

/// What is done with an assertion: with so much of it.
#[derive(Clone, Copy)]
pub enum Manner {
    /// It is taken from the newest taking.
    Take(Frac),
    /// It is added to what is held; its truth isn't asked.
    Add(Frac),
    /// It is given, and no value is chosen.
    GiveAgain(Frac),
    /// It is given, with values chosen.
    Give(Frac),
    /// Values are chosen for what is in it: how many instances may still be within one another, and where all of this is given.
    Fill(Frac, u64, Place),
}

/// What is still to be done of assertions.
#[derive(Drop)]
pub enum Visit<'p> {
    Whole(Within, Manner, &'p Assertion),
    /// Clauses of one kind, joined.
    All(Within, Manner, Place, &'p [Rc<Assertion>]),
    /// The newest value is that of a pure part.
    Ask(Blame, Manner, Place),
    /// One part, or none, by the newest value.
    Imply(Within, Manner, Place, &'p Assertion),
    /// One of two by the newest value.
    Choose(Within, Manner, Place, &'p Assertion, &'p Assertion),
    /// A permission of a field: the newest values are the receiver and the amount.
    Points(Within, Manner, Place, &'p Rc<String>),
    /// A permission of a predicate: the newest value is the amount, and the newest list are the arguments.
    Folded(Within, Manner, Place, &'p Rc<String>),
    /// Values are chosen for what is in so much of an instance: how many instances may still be within one another, and where it is given.
    Fill(Within, u64, Place, Instance, Frac),
    /// The values were chosen: this is the state but for its heap, and it has to be possible.
    Given(Blame, Place, State),
}
