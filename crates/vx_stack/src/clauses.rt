//! Clauses joined by `&&`.

ghost use Rattle.std.specs.Prelude.{◌≡◌, IfOk};
ghost use Rattle.vx_resolved.specs.Resolved.{assertion, assertions, expr, expressions, function};
ghost use Rattle.vx_ast.specs.Syntax as syntax;

use std::alloc::{AllocError, Global};
use std::rc::Rc;
use vx_ast::Place;
use vx_resolved::{Assertion, Connective, Expr, Function};

/// The clauses of one kind, joined in order to the left; none is `true` at this place.
pub fn joined(
    alloc: Global,
    place: Place,
    clauses: &[Rc<Assertion>],
) -> Result<Rc<Assertion>, AllocError>
    ensures { IfOk result (λ a. assertion a.value ≡ syntax.joined place (assertions clauses.now)) }
{
    match clauses {
        [] => {
            let always = Rc::new(alloc, Expr::Truth(place, true))?;
            Ok(Rc::new(alloc, Assertion::Pure(always))?)
        }
        [first, rest @ ..] => {
            let mut all = first.clone()?;
            for clause in rest {
                all = Rc::new(alloc, Assertion::Both(all, clause.clone()?))?;
            }
            Ok(all)
        }
    }
}

/// A function's preconditions, joined.
pub fn precondition(alloc: Global, g: &Function) -> Result<Rc<Assertion>, AllocError>
    ensures { IfOk result (λ a. assertion a.value ≡ syntax.joined (function g.now).place (function g.now).requires) }
{
    joined(alloc, g.place, &g.preconditions)
}

/// Where an expression stands.
pub fn place_of(e: &Expr) -> Place
    ensures { result ≡ syntax.place_of (expr e.now) }
{
    match e {
        Expr::Number(at, _) => *at,
        Expr::Truth(at, _) => *at,
        Expr::Null(at) => *at,
        Expr::Part(at, _, _) => *at,
        Expr::Variable(at, _) => *at,
        Expr::Not(at, _) => *at,
        Expr::Operate(at, _, _, _) => *at,
        Expr::Divide(at, _, _, _) => *at,
        Expr::Connect(at, _, _, _) => *at,
        Expr::Choose(at, _, _, _) => *at,
        Expr::Read(at, _, _) => *at,
        Expr::Old(at, _) => *at,
        Expr::Apply(at, _, _) => *at,
        Expr::Unfolding(at, _, _, _, _) => *at,
    }
}

/// Two expressions joined, at the place of the first.
fn both(alloc: Global, first: Rc<Expr>, second: Rc<Expr>) -> Result<Rc<Expr>, AllocError>
    ensures { IfOk result (λ e. expr e.value ≡ syntax.Connect (syntax.place_of (expr first.value)) syntax.And (expr first.value) (expr second.value)) }
{
    let place = place_of(&first);
    Ok(Rc::new(alloc, Expr::Connect(place, Connective::And, first, second))?)
}

/// Expressions joined in order to the left; none is `true` at this place.
pub fn conjoined(alloc: Global, place: Place, those: &[Rc<Expr>]) -> Result<Rc<Expr>, AllocError>
    ensures { IfOk result (λ e. expr e.value ≡ syntax.conjoined place (expressions those.now)) }
{
    match those {
        [] => Ok(Rc::new(alloc, Expr::Truth(place, true))?),
        [first, rest @ ..] => {
            let mut all = first.clone()?;
            for e in rest {
                all = both(alloc, all, e.clone()?)?;
            }
            Ok(all)
        }
    }
}

/// A pure assertion: `&&` at its top is taken apart.
pub fn as_assertion(alloc: Global, e: &Rc<Expr>) -> Result<Rc<Assertion>, AllocError>
    ensures { IfOk result (λ a. assertion a.value ≡ syntax.as_assertion (expr e.now.value)) }
{
    match &**e {
        Expr::Connect(_, Connective::And, a, b) => {
            let a = as_assertion(alloc, a)?;
            let b = as_assertion(alloc, b)?;
            Ok(Rc::new(alloc, Assertion::Both(a, b))?)
        }
        Expr::Number(_, _)
        | Expr::Truth(_, _)
        | Expr::Null(_)
        | Expr::Part(_, _, _)
        | Expr::Variable(_, _)
        | Expr::Not(_, _)
        | Expr::Operate(_, _, _, _)
        | Expr::Divide(_, _, _, _)
        | Expr::Connect(_, Connective::Or, _, _)
        | Expr::Connect(_, Connective::Implies, _, _)
        | Expr::Choose(_, _, _, _)
        | Expr::Read(_, _, _)
        | Expr::Old(_, _)
        | Expr::Apply(_, _, _)
        | Expr::Unfolding(_, _, _, _, _) => Ok(Rc::new(alloc, Assertion::Pure(e.clone()?))?),
    }
}
