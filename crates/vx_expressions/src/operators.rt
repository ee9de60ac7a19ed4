//! The types of operators' nodes, by their operands and the types of these.

ghost use Rattle.std.specs.Prelude.{◌≡◌};
ghost use Rattle.vx_ast.specs.Written.{written_expr};
ghost use Rattle.vx_expressions.specs.Faults as faults;
ghost use Rattle.vx_expressions.specs.Gives.{Gives};

use crate::amounts::is_numeral;
use crate::expectations::{expect, expect_ordered, place};
use crate::{Expected, TypeFault};
use vx_ast::{BinaryOperator, Expr, ExprKind, UnaryOperator, ValueType};

/// An operand and its type.
#[derive(Clone, Copy)]
pub struct Operand<'a> {
    pub expr: &'a Expr,
    pub of: ValueType,
}

fn is_divisor(e: &Expr) -> bool
    ensures { result ≡ faults.is_divisor (written_expr e.now) }
{
    match e.kind {
        ExprKind::Number(n) => n != 0,
        _ => false,
    }
}

pub fn unary_type(op: UnaryOperator, a: Operand) -> Result<ValueType, TypeFault>
    ensures { Gives (λ t. t) result (faults.unary_type op (written_expr a.entry.expr.now) a.entry.of) }
{
    let t = match op {
        UnaryOperator::Not => ValueType::Bool,
        UnaryOperator::Negate => ValueType::Int,
    };
    expect(place(a.expr), t, a.of)?;
    Ok(t)
}

// Both operands have the type that the node then has.
fn both(expected: ValueType, a: Operand, b: Operand) -> Result<ValueType, TypeFault>
    ensures { Gives (λ t. t) result (faults.both expected (written_expr a.entry.expr.now) (written_expr b.entry.expr.now) a.entry.of b.entry.of) }
{
    expect(place(a.expr), expected, a.of)?;
    expect(place(b.expr), expected, b.of)?;
    Ok(expected)
}

fn compared(a: Operand, b: Operand) -> Result<ValueType, TypeFault>
    ensures { Gives (λ t. t) result (faults.compared (written_expr a.entry.expr.now) (written_expr b.entry.expr.now) a.entry.of b.entry.of) }
{
    expect_ordered(place(a.expr), a.of)?;
    expect(place(b.expr), a.of, b.of)?;
    Ok(ValueType::Bool)
}

fn summed(a: Operand, b: Operand) -> Result<ValueType, TypeFault>
    ensures { Gives (λ t. t) result (faults.summed (written_expr a.entry.expr.now) (written_expr b.entry.expr.now) a.entry.of b.entry.of) }
{
    expect_ordered(place(a.expr), a.of)?;
    expect(place(b.expr), a.of, b.of)?;
    Ok(a.of)
}

fn same(a: Operand, b: Operand) -> Result<ValueType, TypeFault>
    ensures { Gives (λ t. t) result (faults.same (written_expr b.entry.expr.now) a.entry.of b.entry.of) }
{
    expect(place(b.expr), a.of, b.of)?;
    Ok(ValueType::Bool)
}

// Two Int, or a numeral and a Perm.
fn multiplied(a: Operand, b: Operand) -> Result<ValueType, TypeFault>
    ensures { Gives (λ t. t) result (faults.multiplied (written_expr a.entry.expr.now) (written_expr b.entry.expr.now) a.entry.of b.entry.of) }
{
    if is_numeral(a.expr) & (b.of == ValueType::Perm) {
        return Ok(ValueType::Perm);
    }
    both(ValueType::Int, a, b)
}

// A fraction of two numerals.
fn divided(a: Operand, b: Operand) -> Result<ValueType, TypeFault>
    ensures { Gives (λ t. t) result (faults.divided (written_expr a.entry.expr.now) (written_expr b.entry.expr.now) a.entry.of b.entry.of) }
{
    if !is_numeral(a.expr) {
        return Err(TypeFault::Mismatch(place(a.expr), Expected::Numeral, a.of));
    }
    if !is_divisor(b.expr) {
        return Err(TypeFault::Mismatch(place(b.expr), Expected::Numeral, b.of));
    }
    Ok(ValueType::Perm)
}

pub fn binary_type(op: BinaryOperator, a: Operand, b: Operand) -> Result<ValueType, TypeFault>
    ensures { Gives (λ t. t) result (faults.binary_type op (written_expr a.entry.expr.now) (written_expr b.entry.expr.now) a.entry.of b.entry.of) }
{
    match op {
        BinaryOperator::And => both(ValueType::Bool, a, b),
        BinaryOperator::Or => both(ValueType::Bool, a, b),
        BinaryOperator::Implies => both(ValueType::Bool, a, b),
        BinaryOperator::Equal => same(a, b),
        BinaryOperator::NotEqual => same(a, b),
        BinaryOperator::Less => compared(a, b),
        BinaryOperator::LessEqual => compared(a, b),
        BinaryOperator::Greater => compared(a, b),
        BinaryOperator::GreaterEqual => compared(a, b),
        BinaryOperator::Add => summed(a, b),
        BinaryOperator::Subtract => summed(a, b),
        BinaryOperator::Multiply => multiplied(a, b),
        BinaryOperator::Divide => divided(a, b),
        BinaryOperator::Quotient => both(ValueType::Int, a, b),
        BinaryOperator::Remainder => both(ValueType::Int, a, b),
    }
}

pub fn choice_type(c: Operand, a: Operand, b: Operand) -> Result<ValueType, TypeFault>
    ensures { Gives (λ t. t) result (faults.choice_type (written_expr c.entry.expr.now) (written_expr b.entry.expr.now) c.entry.of a.entry.of b.entry.of) }
{
    expect(place(c.expr), ValueType::Bool, c.of)?;
    expect(place(b.expr), a.of, b.of)?;
    Ok(a.of)
}
