//! Amounts of permission.

ghost use Rattle.std.specs.Prelude.{◌≡◌};
ghost use Rattle.vx_frac.specs.Fraction.{fraction};
ghost use Rattle.vx_frac.specs.Fractions as fractions;
ghost use Rattle.vx_ast.specs.Written.{written_expr};
ghost use Rattle.vx_expressions.specs.Faults as faults;
ghost use Rattle.vx_expressions.specs.Gives.{Gives};

use crate::TypeFault;
use crate::expectations::{expect, place};
use vx_ast::{BinaryOperator, Expr, ExprKind, Place, ValueType};
use vx_frac::Frac;

fn full() -> Frac
    ensures { fraction result ≡ fractions.full }
{
    Frac::whole(1)
}

fn none() -> Frac
    ensures { fraction result ≡ fractions.none }
{
    Frac::whole(0)
}

fn sum_of(place: Place, f: Frac, g: Frac) -> Result<Frac, TypeFault>
    ensures { Gives fraction result (faults.sum_of place (fraction f) (fraction g)) }
{
    match f.add(g) {
        Ok(sum) => Ok(sum),
        Err(_) => Err(TypeFault::AmountNotConstant(place)),
    }
}

fn difference_of(place: Place, f: Frac, g: Frac) -> Result<Frac, TypeFault>
    ensures { Gives fraction result (faults.difference_of place (fraction f) (fraction g)) }
{
    match f.sub(g) {
        Ok(difference) => Ok(difference),
        Err(_) => Err(TypeFault::AmountNotConstant(place)),
    }
}

fn product_of(place: Place, f: Frac, g: Frac) -> Result<Frac, TypeFault>
    ensures { Gives fraction result (faults.product_of place (fraction f) (fraction g)) }
{
    match f.mul(g) {
        Ok(product) => Ok(product),
        Err(_) => Err(TypeFault::AmountNotConstant(place)),
    }
}

// Two numerals as a fraction.
fn ratio_of(place: Place, n: u128, d: u128) -> Result<Frac, TypeFault>
    ensures { Gives fraction result (faults.ratio_of place n d) }
{
    let limit = 1 << 127;
    if n < limit && d < limit && d > 0 {
        return Ok(Frac::new(n as i128, d as i128));
    }
    Err(TypeFault::AmountNotConstant(place))
}

fn fraction_of(place: Place, a: &Expr, b: &Expr) -> Result<Frac, TypeFault>
    ensures { Gives fraction result (faults.fraction_of place (written_expr a.now) (written_expr b.now)) }
{
    let ExprKind::Number(n) = &a.kind else {
        return Err(TypeFault::AmountNotConstant(place));
    };
    let ExprKind::Number(d) = &b.kind else {
        return Err(TypeFault::AmountNotConstant(place));
    };
    ratio_of(place, *n, *d)
}

fn numeral_of(place: Place, a: &Expr) -> Result<Frac, TypeFault>
    ensures { Gives fraction result (faults.numeral_of place (written_expr a.now)) }
{
    let ExprKind::Number(n) = &a.kind else {
        return Err(TypeFault::AmountNotConstant(place));
    };
    ratio_of(place, *n, 1)
}

// The value of an amount without variables, or E27 at the first part that isn't allowed or leaves 128 bits.
fn amount_value(e: &Expr) -> Result<Frac, TypeFault>
    ensures { Gives fraction result (faults.amount_value (written_expr e.now)) }
{
    let place = e.place;
    match &e.kind {
        ExprKind::Write => Ok(full()),
        ExprKind::Nothing => Ok(none()),
        ExprKind::Binary(BinaryOperator::Divide, a, b) => fraction_of(place, a, b),
        ExprKind::Binary(BinaryOperator::Add, a, b) => {
            let f = amount_value(a)?;
            let g = amount_value(b)?;
            sum_of(place, f, g)
        }
        ExprKind::Binary(BinaryOperator::Subtract, a, b) => {
            let f = amount_value(a)?;
            let g = amount_value(b)?;
            difference_of(place, f, g)
        }
        ExprKind::Binary(BinaryOperator::Multiply, a, b) => {
            let f = numeral_of(place, a)?;
            let g = amount_value(b)?;
            product_of(place, f, g)
        }
        _ => Err(TypeFault::AmountNotConstant(place)),
    }
}

// The amount is above none, which is known without running.
fn constant_amount(e: &Expr) -> Result<(), TypeFault>
    ensures { Gives (λ x. tt) result (faults.constant_amount (written_expr e.now)) }
{
    let value = amount_value(e)?;
    if value.num() > 0 {
        return Ok(());
    }
    Err(TypeFault::AmountNotConstant(place(e)))
}

pub fn is_numeral(e: &Expr) -> bool
    ensures { result ≡ faults.is_numeral (written_expr e.now) }
{
    matches!(e.kind, ExprKind::Number(_))
}

fn made_if(place: Place, holds: bool) -> Result<(), TypeFault>
    ensures { Gives (λ x. tt) result (faults.made_if place holds) }
{
    if holds {
        return Ok(());
    }
    Err(TypeFault::AmountNotConstant(place))
}

// The amount is made of the parts that amounts have, or E27 at the first other part.
fn amount_made(e: &Expr) -> Result<(), TypeFault>
    ensures { Gives (λ x. tt) result (faults.amount_made (written_expr e.now)) }
{
    let place = e.place;
    match &e.kind {
        ExprKind::Write => Ok(()),
        ExprKind::Nothing => Ok(()),
        ExprKind::Variable(_) => Ok(()),
        ExprKind::Binary(BinaryOperator::Divide, a, b) => {
            made_if(place, is_numeral(a) & is_numeral(b))
        }
        ExprKind::Binary(BinaryOperator::Add, a, b) => {
            amount_made(a)?;
            amount_made(b)
        }
        ExprKind::Binary(BinaryOperator::Subtract, a, b) => {
            amount_made(a)?;
            amount_made(b)
        }
        ExprKind::Binary(BinaryOperator::Multiply, a, b) => {
            made_if(place, is_numeral(a))?;
            amount_made(b)
        }
        _ => Err(TypeFault::AmountNotConstant(place)),
    }
}

/// An amount is a Perm made of the parts that amounts have; where it has to be known without running, it is above none.
pub fn amount(constant: bool, e: &Expr, t: ValueType) -> Result<(), TypeFault>
    ensures { Gives (λ x. tt) result (faults.amount constant (written_expr e.now) t) }
{
    expect(place(e), ValueType::Perm, t)?;
    if constant {
        return constant_amount(e);
    }
    amount_made(e)
}
