//! What is still to be done of statements.
use std::rc::Rc;
use vx_ast::Place;
use vx_frac::Frac;
use vx_resolved::{Block, Expr, Exprs, Method};

/// A call: how many may still be within one another where it stands, its place, its targets and the method.
#[derive(Clone, Copy)]
pub struct Site<'p> {
    pub level: u64,
    pub place: Place,
    pub targets: &'p [Rc<String>],
    pub method: &'p Method,
}

/// What is still to be done of statements. A first number tells how many calls may still be within one another.
#[derive(Clone, Copy)]
pub enum Task<'p> {
    /// A block, or what is left of one.
    Body(u64, &'p Block),
    /// A block's own variables are forgotten: so many are kept.
    Leave(usize),
    /// The newest value is the variable's.
    Assign(&'p Rc<String>),
    /// The newest value is written to a field of the one before.
    Write(Place, &'p Rc<String>),
    /// The newest value has to be true.
    Assume(Place),
    /// One of two blocks, by the newest value.
    Branch(u64, &'p Block, &'p Block),
    /// A loop, with so many rounds at most.
    Again(u64, u64, &'p Expr, &'p Block),
    /// The newest value is the loop's condition; so many rounds at most come behind this one.
    Round(u64, u64, &'p Expr, &'p Block),
    /// A method is called with the newest arguments.
    Call(u64, Place, &'p [Rc<String>], &'p Rc<String>),
    /// The precondition was taken: what is left of it is the newest taking. The caller is the newest one.
    Enter(Site<'p>),
    /// The callee's body and its postcondition are done.
    Return(Site<'p>),
    /// The newest value is the amount of an instance that is folded.
    ToFold(u64, Place, &'p Rc<String>, &'p Exprs),
    ToUnfold(u64, Place, &'p Rc<String>, &'p Exprs),
    /// So much of the instance of the newest arguments is folded.
    Fold(u64, Place, &'p Rc<String>, Frac),
    Unfold(u64, Place, &'p Rc<String>, Frac),
    /// So much of the instance's body was taken, and the instance is held.
    Folded(Place, &'p Rc<String>, Frac),
}
