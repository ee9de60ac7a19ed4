//! The operators on values.
ghost use Rattle.std.specs.Prelude.{◌≡◌, ◌≢◌, pos};
ghost use Rattle.std.specs.Int.{int_div_euclid, int_rem_euclid};
ghost use Rattle.vx_ast.specs.Syntax as syntax;
ghost use Rattle.vx_frac.specs.Fraction.{fraction};
ghost use Rattle.vx_frac.specs.Fractions as fractions;
ghost use Rattle.vx_frac.specs.Fractions.{fits_i128};
ghost use Rattle.vx_frac.specs.declared.Op.TheVariants as calls;
ghost use Rattle.vx_resolved.specs.Resolved.{operator, division};
ghost use Rattle.vx_meaning.specs.Values as meaning;
ghost use Rattle.vx_meaning.specs.Values.{IntValue, BoolValue, RefValue, PermValue};
ghost use Rattle.vx_run.specs.Going.{expect, Failed, Wide};
ghost use Rattle.vx_run.specs.Widths as widths;
ghost use Rattle.vx_run.specs.Widths.{within_128_bits};
ghost use Rattle.vx_run.specs.Views as views;
ghost use Rattle.vx_run.specs.Views.{value, outcome, told};

use crate::outcome::Whole;
use crate::values::Value;
use vx_ast::Place;
use vx_frac::{Frac, Op, Over};
use vx_resolved::{Division, Operator};

/// `!`.
pub fn negate(at: Place, v: Value) -> Result<Value, Whole>
    ensures { told result ≡ expect (meaning.negated (value v)) (Failed at) }
{
    match v {
        Value::Bool(b) => Ok(Value::Bool(!b)),
        Value::Int(_) | Value::Ref(_) | Value::Perm(_) => Err(Whole::Failed(at)),
    }
}

/// The end where the result of an operation leaves 128 bits.
pub fn wide(at: Place, call: Over) -> Whole
    ensures { outcome result ≡ Wide at call.op (fraction call.a) (fraction call.b) }
{
    Whole::Wide {
        place: at,
        op: call.op,
        a: call.a,
        b: call.b,
    }
}

/// The result of an operation on whole numbers, which are fractions over 1.
fn number(at: Place, exact: Result<Frac, Over>) -> Result<Value, Whole>
    ensures { told result ≡ views.computed at (λ q. IntValue q.numerator) exact }
{
    match exact {
        Ok(f) => Ok(Value::Int(f.num())),
        Err(call) => Err(wide(at, call)),
    }
}

/// The result of an operation on fractions.
fn amount(at: Place, exact: Result<Frac, Over>) -> Result<Value, Whole>
    ensures { told result ≡ views.computed at PermValue exact }
{
    match exact {
        Ok(f) => Ok(Value::Perm(f)),
        Err(call) => Err(wide(at, call)),
    }
}

/// An operator on whole numbers.
fn on_ints(at: Place, op: Operator, a: i128, b: i128) -> Result<Value, Whole>
    ensures { told result ≡ widths.operate within_128_bits at (operator op) (IntValue a) (IntValue b) }
{
    match op {
        Operator::Equal => Ok(Value::Bool(a == b)),
        Operator::Less => Ok(Value::Bool(a < b)),
        Operator::LessEqual => Ok(Value::Bool(a <= b)),
        Operator::Greater => Ok(Value::Bool(b < a)),
        Operator::GreaterEqual => Ok(Value::Bool(b <= a)),
        Operator::Add => number(at, Frac::whole(a).add(Frac::whole(b))),
        Operator::Subtract => number(at, Frac::whole(a).sub(Frac::whole(b))),
        Operator::Multiply => number(at, Frac::whole(a).mul(Frac::whole(b))),
    }
}

/// Whether two fractions are one.

fn is_same(a: Frac, b: Frac) -> bool
    ensures { result ≡ fractions.same_fraction (fraction a) (fraction b) }
{
    a.is_at_most(b) && b.is_at_most(a)
}

/// An operator on fractions.
fn on_fractions(at: Place, op: Operator, a: Frac, b: Frac) -> Result<Value, Whole>
    ensures { told result ≡ widths.operate within_128_bits at (operator op) (PermValue (fraction a)) (PermValue (fraction b)) }
{
    match op {
        Operator::Equal => Ok(Value::Bool(is_same(a, b))),
        Operator::Less => Ok(Value::Bool(a.is_less(b))),
        Operator::LessEqual => Ok(Value::Bool(a.is_at_most(b))),
        Operator::Greater => Ok(Value::Bool(b.is_less(a))),
        Operator::GreaterEqual => Ok(Value::Bool(b.is_at_most(a))),
        Operator::Add => amount(at, a.add(b)),
        Operator::Subtract => amount(at, a.sub(b)),
        Operator::Multiply => amount(at, a.mul(b)),
    }
}

/// A remainder; of the least number by -1 it is 0 too.
fn remainder(a: i128, b: i128) -> i128
    requires { b ≢ pos 0 }
    ensures { result ≡ int_rem_euclid a b }
{
    if b == -1 {
        return 0;
    }
    a.rem_euclid(b)
}

/// A quotient; that of the least number by -1 leaves 128 bits.
fn quotient(at: Place, a: i128, b: i128) -> Result<Value, Whole>
    requires { b ≢ pos 0 }
    ensures { told result ≡ views.quotient at a b (fits_i128 (int_div_euclid a b)) }
{
    match a.checked_div_euclid(b) {
        Some(z) => Ok(Value::Int(z)),
        None => Err(Whole::Wide {
            place: at,
            op: Op::Div,
            a: Frac::whole(a),
            b: Frac::whole(b),
        }),
    }
}

/// A quotient or a remainder of whole numbers.
fn divide_ints(at: Place, op: Division, a: i128, b: i128) -> Result<Value, Whole>
    ensures { told result ≡ widths.divide within_128_bits at (division op) (IntValue a) (IntValue b) }
{
    if b == 0 {
        return Err(Whole::Failed(at));
    }
    match op {
        Division::Quotient => quotient(at, a, b),
        Division::Remainder => Ok(Value::Int(remainder(a, b))),
    }
}

/// `\` or `%`.
pub fn divide(at: Place, op: Division, v: Value, w: Value) -> Result<Value, Whole>
    ensures { told result ≡ widths.divide within_128_bits at (division op) (value v) (value w) }
{
    match v {
        Value::Int(a) => match w {
            Value::Int(b) => divide_ints(at, op, a, b),
            Value::Bool(_) | Value::Ref(_) | Value::Perm(_) => Err(Whole::Failed(at)),
        },
        Value::Bool(_) | Value::Ref(_) | Value::Perm(_) => Err(Whole::Failed(at)),
    }
}

/// Where the two are of other types than numbers of one: equality, and what it is.
fn equality(at: Place, op: Operator, is_same: bool) -> Result<Value, Whole>
    ensures { told result ≡ views.only_equality at (operator op) is_same }
{
    match op {
        Operator::Equal => Ok(Value::Bool(is_same)),
        Operator::Less
        | Operator::LessEqual
        | Operator::Greater
        | Operator::GreaterEqual
        | Operator::Add
        | Operator::Subtract
        | Operator::Multiply => Err(Whole::Failed(at)),
    }
}

/// An operator on a whole number and a fraction.
fn on_int_and_fraction(at: Place, op: Operator, a: i128, b: Frac) -> Result<Value, Whole>
    ensures { told result ≡ widths.operate within_128_bits at (operator op) (IntValue a) (PermValue (fraction b)) }
{
    match op {
        Operator::Equal => Ok(Value::Bool(false)),
        Operator::Multiply => amount(at, Frac::whole(a).mul(b)),
        Operator::Less
        | Operator::LessEqual
        | Operator::Greater
        | Operator::GreaterEqual
        | Operator::Add
        | Operator::Subtract => Err(Whole::Failed(at)),
    }
}

/// An operator on a whole number and a value.
fn on_int(at: Place, op: Operator, a: i128, w: Value) -> Result<Value, Whole>
    ensures { told result ≡ widths.operate within_128_bits at (operator op) (IntValue a) (value w) }
{
    match w {
        Value::Int(b) => on_ints(at, op, a, b),
        Value::Bool(_) => equality(at, op, false),
        Value::Ref(_) => equality(at, op, false),
        Value::Perm(b) => on_int_and_fraction(at, op, a, b),
    }
}

/// An operator on a fraction and a value.
fn on_fraction(at: Place, op: Operator, a: Frac, w: Value) -> Result<Value, Whole>
    ensures { told result ≡ widths.operate within_128_bits at (operator op) (PermValue (fraction a)) (value w) }
{
    match w {
        Value::Int(_) => equality(at, op, false),
        Value::Bool(_) => equality(at, op, false),
        Value::Ref(_) => equality(at, op, false),
        Value::Perm(b) => on_fractions(at, op, a, b),
    }
}

fn is_truth(w: Value, a: bool) -> bool
    ensures { result ≡ meaning.same_value (BoolValue a) (value w) }
{
    match w {
        Value::Bool(b) => a == b,
        Value::Int(_) | Value::Ref(_) | Value::Perm(_) => false,
    }
}

fn is_reference(w: Value, a: u64) -> bool
    ensures { result ≡ meaning.same_value (RefValue a) (value w) }
{
    match w {
        Value::Ref(b) => a == b,
        Value::Int(_) | Value::Bool(_) | Value::Perm(_) => false,
    }
}

/// Whether two values are the same.
pub fn is_same_value(v: Value, w: Value) -> bool
    ensures { result ≡ meaning.same_value (value v) (value w) }
{
    match (v, w) {
        (Value::Int(a), Value::Int(b)) => a == b,
        (Value::Perm(a), Value::Perm(b)) => is_same(a, b),
        (Value::Bool(a), w) => is_truth(w, a),
        (Value::Ref(a), w) => is_reference(w, a),
        (Value::Int(_), Value::Bool(_) | Value::Ref(_) | Value::Perm(_)) => false,
        (Value::Perm(_), Value::Int(_) | Value::Bool(_) | Value::Ref(_)) => false,
    }
}

/// An operator on two values.
pub fn operate(at: Place, op: Operator, v: Value, w: Value) -> Result<Value, Whole>
    ensures { told result ≡ widths.operate within_128_bits at (operator op) (value v) (value w) }
{
    match v {
        Value::Int(a) => on_int(at, op, a, w),
        Value::Bool(a) => equality(at, op, is_truth(w, a)),
        Value::Ref(a) => equality(at, op, is_reference(w, a)),
        Value::Perm(a) => on_fraction(at, op, a, w),
    }
}
