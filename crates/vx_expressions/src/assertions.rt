//! Assertions.

ghost use Rattle.std.specs.Prelude.{◌≡◌, option_map};
ghost use Rattle.vx_ast.specs.Written.{written_expr, written_all, written_optional};
ghost use Rattle.vx_expressions.specs.Faults as faults;
ghost use Rattle.vx_expressions.specs.Gives.{Gives};
ghost use Rattle.vx_expressions.specs.Views.{setting, signature, claim_of};

use crate::expectations::{expect, place};
use crate::expr::{application, arguments, check, check_all, held, share};
use crate::{Setting, Signature, TypeFault};
use std::alloc::Global;
use std::rc::Rc;
use vx_ast::{BinaryOperator, Expr, ExprKind, Place, ValueType};

/// What an expression is where an assertion may stand.
#[derive(Clone, Copy)]
pub enum Claim {
    Value(ValueType),
    Permission,
}

// A part of an assertion is a truth or a permission.
fn stands(e: &Expr, x: Claim) -> Result<(), TypeFault>
    ensures { Gives (λ u. tt) result (faults.held (written_expr e.now) (claim_of x)) }
{
    match x {
        Claim::Value(t) => expect(place(e), ValueType::Bool, t),
        Claim::Permission => Ok(()),
    }
}

fn joined(x: Claim, y: Claim) -> Claim
    ensures { claim_of result ≡ faults.joined (claim_of x) (claim_of y) }
{
    match (x, y) {
        (Claim::Value(_), Claim::Value(_)) => Claim::Value(ValueType::Bool),
        (Claim::Value(_), Claim::Permission) => Claim::Permission,
        (Claim::Permission, _) => Claim::Permission,
    }
}

fn conjunction(a: &Expr, b: &Expr, x: Claim, y: Claim) -> Result<Claim, TypeFault>
    ensures { Gives claim_of result (faults.conjunction (written_expr a.now) (written_expr b.now) (claim_of x) (claim_of y)) }
{
    stands(a, x)?;
    stands(b, y)?;
    Ok(joined(x, y))
}

fn implication(c: &Expr, a: &Expr, t: ValueType, y: Claim) -> Result<Claim, TypeFault>
    ensures { Gives claim_of result (faults.implication (written_expr c.now) (written_expr a.now) t (claim_of y)) }
{
    expect(place(c), ValueType::Bool, t)?;
    stands(a, y)?;
    Ok(joined(Claim::Value(ValueType::Bool), y))
}

fn sides(a: &Expr, b: &Expr, x: Claim, y: Claim) -> Result<Claim, TypeFault>
    ensures { Gives claim_of result (faults.choice (written_expr a.now) (written_expr b.now) (claim_of x) (claim_of y)) }
{
    match (x, y) {
        (Claim::Value(t), Claim::Value(u)) => {
            expect(place(b), t, u)?;
            Ok(Claim::Value(t))
        }
        (Claim::Value(_), Claim::Permission) => {
            stands(a, x)?;
            stands(b, y)?;
            Ok(Claim::Permission)
        }
        (Claim::Permission, Claim::Value(_)) => {
            stands(a, x)?;
            stands(b, y)?;
            Ok(Claim::Permission)
        }
        (Claim::Permission, Claim::Permission) => {
            stands(a, x)?;
            stands(b, y)?;
            Ok(Claim::Permission)
        }
    }
}

fn chosen(
    c: &Expr,
    a: &Expr,
    b: &Expr,
    t: ValueType,
    x: Claim,
    y: Claim,
) -> Result<Claim, TypeFault>
    ensures { Gives claim_of result (faults.chosen (written_expr c.now) (written_expr a.now) (written_expr b.now) t (claim_of x) (claim_of y)) }
{
    expect(place(c), ValueType::Bool, t)?;
    sides(a, b, x, y)
}

fn value(
    alloc: Global,
    s: Setting,
    at: Place,
    name: &str,
    es: &[Rc<Expr>],
    found: &[ValueType],
    member: Option<Signature>,
) -> Result<Claim, TypeFault>
    ensures { Gives claim_of result (faults.value_of_call (setting s.entry) at name.now (written_all es.now) found.now (option_map signature member.entry)) }
{
    let t = application(alloc, s, at, name, es, found, member)?;
    Ok(Claim::Value(t))
}

fn called(
    alloc: Global,
    s: Setting,
    at: Place,
    name: &str,
    es: &[Rc<Expr>],
    found: &[ValueType],
    member: Option<Signature>,
) -> Result<Claim, TypeFault>
    ensures { Gives claim_of result (faults.called (setting s.entry) at name.now (written_all es.now) found.now (option_map signature member.entry)) }
{
    match member {
        Some(Signature::Predicate(expected, _)) => {
            arguments(at, es, found, expected)?;
            Ok(Claim::Permission)
        }
        Some(Signature::Field(_)) => value(alloc, s, at, name, es, found, member),
        Some(Signature::Function(_, _)) => value(alloc, s, at, name, es, found, member),
        Some(Signature::Method(_, _)) => value(alloc, s, at, name, es, found, member),
        None => value(alloc, s, at, name, es, found, member),
    }
}

/// What a call is as an assertion: a permission, where it is an instance of a predicate, or a value of its type.
///
/// # Errors
/// Its first fault, at its place; `Want` where memory runs out.
pub fn call(
    alloc: Global,
    s: Setting,
    at: Place,
    name: &str,
    es: &[Rc<Expr>],
) -> Result<Claim, TypeFault>
    ensures { Gives claim_of result (faults.call (setting s.entry) at name.now (written_all es.now)) }
{
    let found = check_all(alloc, s, es)?;
    called(alloc, s, at, name, es, &found, s.member(name))
}

fn access(
    alloc: Global,
    s: Setting,
    e: &Expr,
    amount: &Option<Rc<Expr>>,
) -> Result<Claim, TypeFault>
    ensures { Gives claim_of result (faults.access (setting s.entry) (written_expr e.now) (written_optional amount.now)) }
{
    held(alloc, s, e)?;
    share(alloc, s, amount)?;
    Ok(Claim::Permission)
}

fn pure(alloc: Global, s: Setting, e: &Expr) -> Result<Claim, TypeFault>
    ensures { Gives claim_of result (faults.pure (setting s.entry) (written_expr e.now)) }
{
    let t = check(alloc, s, e)?;
    Ok(Claim::Value(t))
}

// What an expression is where an assertion may stand, or its first fault.
fn claimed(alloc: Global, s: Setting, e: &Expr) -> Result<Claim, TypeFault>
    ensures { Gives claim_of result (faults.claim (setting s.entry) (written_expr e.now)) }
{
    match &e.kind {
        ExprKind::Access(a, amount) => access(alloc, s, a, amount),
        ExprKind::Call(name, es) => call(alloc, s, e.place, name, es),
        ExprKind::Binary(BinaryOperator::And, a, b) => {
            let x = claimed(alloc, s, a)?;
            let y = claimed(alloc, s, b)?;
            conjunction(a, b, x, y)
        }
        ExprKind::Binary(BinaryOperator::Implies, c, a) => {
            let t = check(alloc, s, c)?;
            let y = claimed(alloc, s, a)?;
            implication(c, a, t, y)
        }
        ExprKind::Conditional(c, a, b) => {
            let t = check(alloc, s, c)?;
            let x = claimed(alloc, s, a)?;
            let y = claimed(alloc, s, b)?;
            chosen(c, a, b, t, x, y)
        }
        ExprKind::Binary(
            BinaryOperator::Or
            | BinaryOperator::Equal
            | BinaryOperator::NotEqual
            | BinaryOperator::Less
            | BinaryOperator::LessEqual
            | BinaryOperator::Greater
            | BinaryOperator::GreaterEqual
            | BinaryOperator::Add
            | BinaryOperator::Subtract
            | BinaryOperator::Multiply
            | BinaryOperator::Divide
            | BinaryOperator::Quotient
            | BinaryOperator::Remainder,
            _,
            _,
        ) => pure(alloc, s, e),
        ExprKind::Number(_)
        | ExprKind::Boolean(_)
        | ExprKind::Null
        | ExprKind::Write
        | ExprKind::Nothing
        | ExprKind::Outcome
        | ExprKind::Variable(_)
        | ExprKind::Read(_, _)
        | ExprKind::Unary(_, _)
        | ExprKind::Old(_)
        | ExprKind::Unfolding(_, _, _, _) => pure(alloc, s, e),
    }
}

/// An assertion is typed: a truth, or what holds a permission. Otherwise its first fault.
///
/// # Errors
/// Its first fault, at its place; `Want` where memory runs out.
pub fn assertion(alloc: Global, s: Setting, e: &Expr) -> Result<(), TypeFault>
    ensures { Gives (λ u. tt) result (faults.assertion (setting s.entry) (written_expr e.now)) }
{
    let x = claimed(alloc, s, e)?;
    stands(e, x)
}
