//! Types of expressions.

ghost use Rattle.std.specs.Prelude.{◌≡◌, ◌<◌, Some, slice_get, IfSome, option_map, List, [], ◌∷◌, length, map};
ghost use Rattle.vx_ast.specs.declared.ValueType.{ValueType};
ghost use Rattle.vx_ast.specs.Written.{written_expr, written_all, written_optional, name_of};
ghost use Rattle.vx_expressions.specs.Faults as faults;
ghost use Rattle.vx_expressions.specs.Gives.{Gives, told};
ghost use Rattle.vx_expressions.specs.Views.{setting, signature, types_of};

use crate::amounts::amount;
use crate::expectations::{expect, place};
use crate::operators::{Operand, binary_type, choice_type, unary_type};
use crate::{Setting, Signature, TypeFault};
use std::alloc::Global;
use std::rc::Rc;
use vx_ast::{Declaration, Expr, ExprKind, Name, Place, ValueType};

/// The fault of a name that isn't declared, or not of the kind needed; where memory runs out, `Want`.
pub fn unknown(alloc: Global, place: Place, name: &str) -> TypeFault
    ensures { IfSome (told result) (λ f. f ≡ faults.Unknown place name.now) }
{
    match String::from_str(alloc, name) {
        Ok(name) => TypeFault::Unknown(place, name),
        Err(_) => TypeFault::Want,
    }
}

fn type_at(found: &[ValueType], i: usize) -> ValueType
    requires { i < length found.now }
    ensures { slice_get found.now i ≡ Some result }
{
    found[i]
}

/// The types of arguments are those of the parameters, as far as there are such.
///
/// # Errors
/// `Mismatch` at the first argument of another type.
pub fn arguments_fit(
    es: &[Rc<Expr>],
    found: &[ValueType],
    expected: &[Declaration],
) -> Result<(), TypeFault>
    ensures { Gives (λ x. tt) result (faults.arguments_fit (written_all es.now) found.now (types_of expected.now)) }
{
    for i in 0..es.len() {
        if (i >= found.len()) | (i >= expected.len()) {
            return Ok(());
        }
        let t = type_at(found, i);
        expect(place(&es[i]), expected[i].value_type, t)?;
    }
    Ok(())
}

pub fn arguments(
    at: Place,
    es: &[Rc<Expr>],
    found: &[ValueType],
    expected: &[Declaration],
) -> Result<(), TypeFault>
    ensures { Gives (λ x. tt) result (faults.arguments at (written_all es.now) found.now (types_of expected.now)) }
{
    if found.len() != expected.len() {
        return Err(TypeFault::Arity(at, expected.len(), found.len()));
    }
    arguments_fit(es, found, expected)
}

// Whether the predicate has a body.
fn instance_of(
    alloc: Global,
    at: Place,
    name: &str,
    es: &[Rc<Expr>],
    found: &[ValueType],
    member: Option<Signature>,
) -> Result<bool, TypeFault>
    ensures { Gives (λ b. b) result (faults.instance_of at name.now (written_all es.now) found.now (option_map signature member.entry)) }
{
    match member {
        Some(Signature::Predicate(expected, has_body)) => {
            arguments(at, es, found, expected)?;
            Ok(has_body)
        }
        Some(Signature::Field(_)) => Err(unknown(alloc, at, name)),
        Some(Signature::Function(_, _)) => Err(unknown(alloc, at, name)),
        Some(Signature::Method(_, _)) => Err(unknown(alloc, at, name)),
        None => Err(unknown(alloc, at, name)),
    }
}

pub fn application(
    alloc: Global,
    s: Setting,
    at: Place,
    name: &str,
    es: &[Rc<Expr>],
    found: &[ValueType],
    member: Option<Signature>,
) -> Result<ValueType, TypeFault>
    ensures { Gives (λ t. t) result (faults.application (setting s.entry) at name.now (written_all es.now) found.now (option_map signature member.entry)) }
{
    match member {
        Some(Signature::Function(expected, of)) => {
            if !s.applies {
                return Err(TypeFault::NotHere(at));
            }
            arguments(at, es, found, expected)?;
            Ok(of)
        }
        Some(Signature::Predicate(expected, _)) => {
            arguments(at, es, found, expected)?;
            Err(TypeFault::Impure(at))
        }
        Some(Signature::Field(_)) => Err(unknown(alloc, at, name)),
        Some(Signature::Method(_, _)) => Err(unknown(alloc, at, name)),
        None => Err(unknown(alloc, at, name)),
    }
}

fn known(alloc: Global, s: Setting, at: Place, name: &str) -> Result<ValueType, TypeFault>
    ensures { Gives (λ t. t) result (faults.known at name.now ((setting s.entry).variable name.now)) }
{
    match s.variable(name) {
        Some(t) => Ok(t),
        None => Err(unknown(alloc, at, name)),
    }
}

/// The type of a field, by what its name stands for.
///
/// # Errors
/// `Unknown` where that is no field; `Want` where memory runs out.
pub fn field_type(
    alloc: Global,
    field: &Name,
    member: Option<Signature>,
) -> Result<ValueType, TypeFault>
    ensures { Gives (λ t. t) result (faults.field_type (name_of field.now) (option_map signature member.entry)) }
{
    match member {
        Some(Signature::Field(t)) => Ok(t),
        Some(Signature::Predicate(_, _)) => Err(unknown(alloc, field.place, &field.text)),
        Some(Signature::Function(_, _)) => Err(unknown(alloc, field.place, &field.text)),
        Some(Signature::Method(_, _)) => Err(unknown(alloc, field.place, &field.text)),
        None => Err(unknown(alloc, field.place, &field.text)),
    }
}

fn read_type(
    alloc: Global,
    s: Setting,
    e: &Expr,
    field: &Name,
    t: ValueType,
) -> Result<ValueType, TypeFault>
    ensures { Gives (λ t. t) result (faults.read_type (setting s.entry) (written_expr e.now) (name_of field.now) t) }
{
    expect(place(e), ValueType::Ref, t)?;
    field_type(alloc, field, s.member(&field.text))
}

fn outcome_type(at: Place, outcome: Option<ValueType>) -> Result<ValueType, TypeFault>
    ensures { Gives (λ t. t) result (faults.outcome_type at outcome) }
{
    match outcome {
        Some(t) => Ok(t),
        None => Err(TypeFault::ResultHere(at)),
    }
}

fn old_type(at: Place, has_old: bool, t: ValueType) -> Result<ValueType, TypeFault>
    ensures { Gives (λ t. t) result (faults.old_type at has_old t) }
{
    if has_old {
        return Ok(t);
    }
    Err(TypeFault::OldHere(at))
}

fn unfolded_type(at: Place, has_body: bool, t: ValueType) -> Result<ValueType, TypeFault>
    ensures { Gives (λ t. t) result (faults.unfolded_type at has_body t) }
{
    if has_body {
        return Ok(t);
    }
    Err(TypeFault::UnfoldAbstract(at))
}

/// The types of arguments, each checked before any is compared.
///
/// # Errors
/// The first fault of the first argument that has one; `Want` where memory runs out.
#[cycle(typing)]
pub fn check_all(alloc: Global, s: Setting, es: &[Rc<Expr>]) -> Result<Vec<ValueType>, TypeFault>
    ensures { Gives (λ ts. ts.items) result (faults.check_all (setting s.entry) (written_all es.now)) }
{
    let mut types = Vec::new(alloc);
    for e in es {
        types.push(check(alloc, s, e)?)?;
    }
    Ok(types)
}

#[cycle(typing)]
fn applied(
    alloc: Global,
    s: Setting,
    at: Place,
    name: &str,
    es: &[Rc<Expr>],
) -> Result<ValueType, TypeFault>
    ensures { Gives (λ t. t) result (faults.applied (setting s.entry) at name.now (written_all es.now)) }
{
    let found = check_all(alloc, s, es)?;
    application(alloc, s, at, name, es, &found, s.member(name))
}

/// An instance of a predicate: whether that has a body, or the first fault.
///
/// # Errors
/// Its first fault, at its place; `Want` where memory runs out.
#[cycle(typing)]
pub fn instance(
    alloc: Global,
    s: Setting,
    at: Place,
    name: &str,
    es: &[Rc<Expr>],
) -> Result<bool, TypeFault>
    ensures { Gives (λ b. b) result (faults.instance (setting s.entry) at name.now (written_all es.now)) }
{
    let found = check_all(alloc, s, es)?;
    instance_of(alloc, at, name, es, &found, s.member(name))
}

/// How much is held.
///
/// # Errors
/// Its first fault, at its place; `Want` where memory runs out.
#[cycle(typing)]
pub fn share(alloc: Global, s: Setting, e: &Option<Rc<Expr>>) -> Result<(), TypeFault>
    ensures { Gives (λ x. tt) result (faults.check_share (setting s.entry) (written_optional e.now)) }
{
    match e {
        None => Ok(()),
        Some(e) => {
            let t = check(alloc, s, e)?;
            amount(s.constant, e, t)
        }
    }
}

/// The type of a field read under an expression.
///
/// # Errors
/// Its first fault, at its place; `Want` where memory runs out.
#[cycle(typing)]
pub fn read(alloc: Global, s: Setting, e: &Expr, field: &Name) -> Result<ValueType, TypeFault>
    ensures { Gives (λ t. t) result (faults.read (setting s.entry) (written_expr e.now) (name_of field.now)) }
{
    let t = check(alloc, s, e)?;
    read_type(alloc, s, e, field, t)
}

/// What stands first in an `acc`.
#[cycle(typing)]
pub fn held(alloc: Global, s: Setting, e: &Expr) -> Result<(), TypeFault>
    ensures { Gives (λ x. tt) result (faults.check_held (setting s.entry) (written_expr e.now)) }
{
    match &e.kind {
        ExprKind::Read(under, field) => {
            read(alloc, s, under, field)?;
            Ok(())
        }
        ExprKind::Call(name, es) => {
            instance(alloc, s, e.place, name, es)?;
            Ok(())
        }
        _ => {
            check(alloc, s, e)?;
            Err(TypeFault::Impure(place(e)))
        }
    }
}

/// The type of an expression, or its first fault.
///
/// # Errors
/// Its first fault, at its place; `Want` where memory runs out.
#[cycle(typing)]
pub fn check(alloc: Global, s: Setting, e: &Expr) -> Result<ValueType, TypeFault>
    ensures { Gives (λ t. t) result (faults.check (setting s.entry) (written_expr e.now)) }
{
    let at = e.place;
    match &e.kind {
        ExprKind::Number(_) => Ok(ValueType::Int),
        ExprKind::Boolean(_) => Ok(ValueType::Bool),
        ExprKind::Null => Ok(ValueType::Ref),
        ExprKind::Write => Ok(ValueType::Perm),
        ExprKind::Nothing => Ok(ValueType::Perm),
        ExprKind::Outcome => outcome_type(at, s.outcome),
        ExprKind::Variable(name) => known(alloc, s, at, name),
        ExprKind::Call(name, es) => applied(alloc, s, at, name, es),
        ExprKind::Read(under, field) => read(alloc, s, under, field),
        ExprKind::Unary(op, a) => {
            let of = check(alloc, s, a)?;
            unary_type(*op, Operand { expr: a, of })
        }
        ExprKind::Binary(op, a, b) => {
            let t = check(alloc, s, a)?;
            let u = check(alloc, s, b)?;
            binary_type(*op, Operand { expr: a, of: t }, Operand { expr: b, of: u })
        }
        ExprKind::Conditional(c, a, b) => {
            let k = check(alloc, s, c)?;
            let t = check(alloc, s, a)?;
            let u = check(alloc, s, b)?;
            choice_type(
                Operand { expr: c, of: k },
                Operand { expr: a, of: t },
                Operand { expr: b, of: u },
            )
        }
        ExprKind::Old(a) => {
            let t = check(alloc, s, a)?;
            old_type(at, s.has_old, t)
        }
        ExprKind::Access(a, amount) => {
            held(alloc, s, a)?;
            share(alloc, s, amount)?;
            Err(TypeFault::Impure(at))
        }
        ExprKind::Unfolding(name, es, amount, a) => {
            let has_body = instance(alloc, s, name.place, &name.text, es)?;
            share(alloc, s, amount)?;
            let t = check(alloc, s, a)?;
            unfolded_type(name.place, has_body, t)
        }
    }
}
