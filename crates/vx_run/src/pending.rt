//! What is still to be done of expressions. It is kept in a list: an expression may be as deep as a member is long.
use crate::blame::Blame;
use crate::context::{Reading, When, Within};
use std::rc::Rc;
use vx_ast::Place;
use vx_frac::Frac;
use vx_resolved::{Connective, Division, Expr, Exprs, Operator};

/// What is still to be done of expressions.
#[derive(Clone, Copy)]
pub enum Pending<'p> {
    Evaluate(Within, Reading, When, &'p Expr),
    EvaluateAll(Within, Reading, When, &'p Exprs),
    /// The newest value comes before the newest arguments.
    Collect,
    /// The operands of what follows are the newest values.
    Negate(Blame, Place),
    Operate(Blame, Place, Operator),
    Divide(Blame, Place, Division),
    /// The right part, where it is needed after the newest value.
    Connect(Within, Reading, Place, Connective, When, &'p Expr),
    /// One of two, by the newest value.
    Choose(Within, Reading, Place, When, &'p Expr, &'p Expr),
    /// A field of the newest value.
    Read(Blame, Reading, Place, When, &'p Rc<String>),
    /// A function at the newest arguments.
    Apply(Within, Reading, Place, When, &'p Rc<String>),
    /// The newest value is the amount; the arguments are to be found, and the expression is evaluated under them.
    Unfold(Within, Place, When, &'p Rc<String>, &'p Exprs, &'p Expr),
    /// So much of the instance of the newest arguments is unfolded, and the expression evaluated.
    Open(Within, Place, When, &'p Rc<String>, Frac, &'p Expr),
}
