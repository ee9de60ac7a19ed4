//! Assertions, settled.

ghost use Rattle.std.specs.Prelude.{◌≡◌, ◌&&◌, ◌++◌, ◌∷◌, List, if◌then◌else◌, IfOk, OnOk};
ghost use Rattle.vx_ast.specs.Written.{written_expr, written_optional, written_all};
ghost use Rattle.vx_ast.specs.Resolve as resolve;
ghost use Rattle.vx_ast.specs.Resolve.{access, amount, assertion, assertions, expression, expressions};
ghost use Rattle.vx_ast.specs.Syntax as Syntax;
ghost use Rattle.vx_resolved.specs.Resolved as settled;
ghost use Rattle.vx_settling.specs.Names.{names_in};

use crate::expr::{amount, expression, expressions, null, shared};
use crate::names::Names;
use std::alloc::{AllocError, Global};
use std::rc::Rc;
use vx_ast::{BinaryOperator, Expr, ExprKind, Place};
use vx_resolved::Assertion;

/// Whether no permission stands in an expression.
fn is_pure(names: &Names, e: &Expr) -> bool
    ensures { result ≡ resolve.is_pure (names_in names.now) (written_expr e.now) }
{
    match &e.kind {
        ExprKind::Access(_, _) => false,
        ExprKind::Call(name, _) => !names.is_predicate(name),
        ExprKind::Binary(BinaryOperator::And, a, b) => is_pure(names, a) && is_pure(names, b),
        ExprKind::Binary(BinaryOperator::Implies, _, a) => is_pure(names, a),
        ExprKind::Conditional(_, a, b) => is_pure(names, a) && is_pure(names, b),
        ExprKind::Binary(
            BinaryOperator::Or
            | BinaryOperator::Equal
            | BinaryOperator::NotEqual
            | BinaryOperator::Less
            | BinaryOperator::LessEqual
            | BinaryOperator::Greater
            | BinaryOperator::GreaterEqual
            | BinaryOperator::Add
            | BinaryOperator::Subtract
            | BinaryOperator::Multiply
            | BinaryOperator::Divide
            | BinaryOperator::Quotient
            | BinaryOperator::Remainder,
            _,
            _,
        ) => true,
        ExprKind::Number(_)
        | ExprKind::Boolean(_)
        | ExprKind::Null
        | ExprKind::Write
        | ExprKind::Nothing
        | ExprKind::Outcome
        | ExprKind::Variable(_)
        | ExprKind::Read(_, _)
        | ExprKind::Unary(_, _)
        | ExprKind::Old(_)
        | ExprKind::Unfolding(_, _, _, _) => true,
    }
}

fn are_pure(names: &Names, a: &Expr, b: &Expr) -> bool
    ensures { result ≡ (resolve.is_pure (names_in names.now) (written_expr a.now) && resolve.is_pure (names_in names.now) (written_expr b.now)) }
{
    is_pure(names, a) && is_pure(names, b)
}

// An assertion, to be shared.
fn shared_assertion(alloc: Global, a: Assertion) -> Result<Rc<Assertion>, AllocError>
    ensures { IfOk result (λ r. settled.assertion r.value ≡ settled.assertion a) }
{
    Ok(Rc::new(alloc, a)?)
}

// An expression as an assertion of its own.
fn pure(alloc: Global, e: &Expr) -> Result<Rc<Assertion>, AllocError>
    ensures { IfOk result (λ a. settled.assertion a.value ≡ Syntax.Pure (expression (written_expr e.now))) }
{
    let e = expression(alloc, e)?;
    shared_assertion(alloc, Assertion::Pure(e))
}

// How much of a location is held.
fn location(
    alloc: Global,
    place: Place,
    e: &Expr,
    field: &str,
    share: &Option<Rc<Expr>>,
) -> Result<Rc<Assertion>, AllocError>
    ensures { IfOk result (λ a. settled.assertion a.value ≡ Syntax.Points place (expression (written_expr e.now)) field.now (amount place (written_optional share.now))) }
{
    let e = expression(alloc, e)?;
    let share = amount(alloc, place, share)?;
    let field = shared(alloc, field)?;
    shared_assertion(alloc, Assertion::Points(place, e, field, share))
}

// How much of an instance is held.
fn instance(
    alloc: Global,
    place: Place,
    predicate: &str,
    arguments: &[Rc<Expr>],
    share: &Option<Rc<Expr>>,
) -> Result<Rc<Assertion>, AllocError>
    ensures { IfOk result (λ a. settled.assertion a.value ≡ Syntax.Instance place predicate.now (expressions (written_all arguments.now)) (amount place (written_optional share.now))) }
{
    let predicate = shared(alloc, predicate)?;
    let arguments = expressions(alloc, arguments)?;
    let share = amount(alloc, place, share)?;
    shared_assertion(
        alloc,
        Assertion::Instance(place, predicate, arguments, share),
    )
}

// What is neither a location nor an instance is held in no typed program.
fn nowhere(alloc: Global, place: Place) -> Result<Rc<Assertion>, AllocError>
    ensures { IfOk result (λ a. settled.assertion a.value ≡ Syntax.Pure (Syntax.Null place)) }
{
    let e = null(alloc, place)?;
    shared_assertion(alloc, Assertion::Pure(e))
}

// A permission, settled.
fn permission(
    alloc: Global,
    place: Place,
    e: &Expr,
    share: &Option<Rc<Expr>>,
) -> Result<Rc<Assertion>, AllocError>
    ensures { IfOk result (λ a. settled.assertion a.value ≡ access place (written_expr e.now) (amount place (written_optional share.now))) }
{
    match &e.kind {
        ExprKind::Read(of, field) => location(alloc, place, of, &field.text, share),
        ExprKind::Call(name, arguments) => instance(alloc, place, name, arguments, share),
        ExprKind::Number(_)
        | ExprKind::Boolean(_)
        | ExprKind::Null
        | ExprKind::Write
        | ExprKind::Nothing
        | ExprKind::Outcome
        | ExprKind::Variable(_)
        | ExprKind::Unary(_, _)
        | ExprKind::Binary(_, _, _)
        | ExprKind::Conditional(_, _, _)
        | ExprKind::Old(_)
        | ExprKind::Access(_, _)
        | ExprKind::Unfolding(_, _, _, _) => nowhere(alloc, place),
    }
}

// What is applied is an instance that is held whole, or an application.
fn applied(
    alloc: Global,
    names: &Names,
    e: &Expr,
    name: &str,
    arguments: &[Rc<Expr>],
) -> Result<Rc<Assertion>, AllocError>
    ensures { IfOk result (λ a. settled.assertion a.value ≡ (if (names_in names.now).is_predicate name.now then Syntax.Instance e.now.place name.now
        (expressions (written_all arguments.now)) (resolve.whole e.now.place) else Syntax.Pure (expression (written_expr e.now)))) }
{
    if names.is_predicate(name) {
        return instance(alloc, e.place, name, arguments, &None);
    }
    pure(alloc, e)
}

// What an implication assumes is settled here.
fn implied(alloc: Global, c: &Expr, a: Rc<Assertion>) -> Result<Rc<Assertion>, AllocError>
    ensures { IfOk result (λ r. settled.assertion r.value ≡ Syntax.Implied (expression (written_expr c.now)) (settled.assertion a.value)) }
{
    let c = expression(alloc, c)?;
    shared_assertion(alloc, Assertion::Implied(c, a))
}

// What a choice is made by is settled here.
fn chosen(
    alloc: Global,
    c: &Expr,
    a: Rc<Assertion>,
    b: Rc<Assertion>,
) -> Result<Rc<Assertion>, AllocError>
    ensures { IfOk result (λ r. settled.assertion r.value ≡ Syntax.Chosen (expression (written_expr c.now)) (settled.assertion a.value) (settled.assertion b.value)) }
{
    let c = expression(alloc, c)?;
    shared_assertion(alloc, Assertion::Chosen(c, a, b))
}

fn both(alloc: Global, a: Rc<Assertion>, b: Rc<Assertion>) -> Result<Rc<Assertion>, AllocError>
    ensures { IfOk result (λ r. settled.assertion r.value ≡ Syntax.Both (settled.assertion a.value) (settled.assertion b.value)) }
{
    shared_assertion(alloc, Assertion::Both(a, b))
}

/// An assertion, settled: `&&` at its top is taken apart, and so is what a permission stands in.
pub fn assertion(alloc: Global, names: &Names, e: &Expr) -> Result<Rc<Assertion>, AllocError>
    ensures { IfOk result (λ a. settled.assertion a.value ≡ assertion (names_in names.now) (written_expr e.now)) }
{
    match &e.kind {
        ExprKind::Access(a, share) => permission(alloc, e.place, a, share),
        ExprKind::Call(name, arguments) => applied(alloc, names, e, name, arguments),
        ExprKind::Binary(BinaryOperator::And, a, b) => {
            let a = assertion(alloc, names, a)?;
            let b = assertion(alloc, names, b)?;
            both(alloc, a, b)
        }
        ExprKind::Binary(BinaryOperator::Implies, c, a) => {
            if is_pure(names, a) {
                return pure(alloc, e);
            }
            let a = assertion(alloc, names, a)?;
            implied(alloc, c, a)
        }
        ExprKind::Conditional(c, a, b) => {
            if are_pure(names, a, b) {
                return pure(alloc, e);
            }
            let a = assertion(alloc, names, a)?;
            let b = assertion(alloc, names, b)?;
            chosen(alloc, c, a, b)
        }
        ExprKind::Binary(
            BinaryOperator::Or
            | BinaryOperator::Equal
            | BinaryOperator::NotEqual
            | BinaryOperator::Less
            | BinaryOperator::LessEqual
            | BinaryOperator::Greater
            | BinaryOperator::GreaterEqual
            | BinaryOperator::Add
            | BinaryOperator::Subtract
            | BinaryOperator::Multiply
            | BinaryOperator::Divide
            | BinaryOperator::Quotient
            | BinaryOperator::Remainder,
            _,
            _,
        ) => pure(alloc, e),
        ExprKind::Number(_)
        | ExprKind::Boolean(_)
        | ExprKind::Null
        | ExprKind::Write
        | ExprKind::Nothing
        | ExprKind::Outcome
        | ExprKind::Variable(_)
        | ExprKind::Read(_, _)
        | ExprKind::Unary(_, _)
        | ExprKind::Old(_)
        | ExprKind::Unfolding(_, _, _, _) => pure(alloc, e),
    }
}

/// Assertions, each settled.
pub type Assertions = Vec<Rc<Assertion>>;

/// One assertion more.
#[tactic(auto, using(crate::proofs::Lists::one_behind))]
pub fn add_assertion(
    alloc: Global,
    names: &Names,
    e: &Expr,
    done: &mut Assertions,
) -> Result<(), AllocError>
    ensures { OnOk result ((rest : List Syntax.Assertion) → settled.assertions done.new.items ++ rest
        ≡ settled.assertions done.old.items ++ assertion (names_in names.now) (written_expr e.now) ∷ rest) }
{
    done.push(assertion(alloc, names, e)?)?;
    Ok(())
}

/// Assertions, settled, in order.
pub fn assertions(alloc: Global, names: &Names, all: &[Rc<Expr>]) -> Result<Assertions, AllocError>
    ensures { IfOk result (λ v. settled.assertions v.items ≡ assertions (names_in names.now) (written_all all.now)) }
{
    let mut done = Vec::new(alloc);
    for e in all {
        add_assertion(alloc, names, e, &mut done)?;
    }
    Ok(done)
}
