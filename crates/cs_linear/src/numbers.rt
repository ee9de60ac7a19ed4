//! Sums, products and reciprocals of fractions, and why a call ends early.
ghost use Rattle.std.specs.Prelude.{◌≡◌, IfOk, IfErr, pos};
ghost use Rattle.vx_frac.specs.Fraction.{fraction};
ghost use Rattle.vx_frac.specs.Fractions.{none, full, minus};
ghost use Rattle.cs_linear.specs.Numbers.{plus, times, IsCause};

use std::alloc::{AllocError, AllocFailed};
use vx_frac::{Frac, Op, Over};

/// Why a call ends early: a fraction leaves 128 bits, or memory is wanted.
#[derive(Clone, Copy)]
pub enum Stop {
    Over(Over),
    Want,
}

impl From<AllocError> for Stop {
    ghost use Rattle.cs_linear.specs.declared.numbers.Stop.{Stop};
    ghost use Rattle.cs_linear.specs.declared.numbers.Stop.TheVariants.{Want};

    ghost from_gives = { λ _ e. e ≡ Want };

    fn from(_: AllocError) -> Self {
        Stop::Want
    }
}

impl<T: Drop> From<AllocFailed<T>> for Stop {
    ghost use Rattle.cs_linear.specs.declared.numbers.Stop.{Stop};
    ghost use Rattle.cs_linear.specs.declared.numbers.Stop.TheVariants.{Want};

    ghost from_gives = { λ _ e. e ≡ Want };

    fn from(_: AllocFailed<T>) -> Self {
        Stop::Want
    }
}

#[tactic(auto, unfolding(crate::specs::Numbers::plus))]
/// The sum of two fractions.
pub fn plus(a: Frac, b: Frac) -> Result<Frac, Stop>
    ensures value { IfOk result (λ f. fraction f ≡ plus (fraction a) (fraction b)) }
    ensures cause { IfErr result IsCause }
{
    match a.add(b) {
        Ok(sum) => Ok(sum),
        Err(over) => Err(Stop::Over(over)),
    }
}

#[tactic(auto, unfolding(crate::specs::Numbers::times))]
/// The product of two fractions.
pub fn times(a: Frac, b: Frac) -> Result<Frac, Stop>
    ensures value { IfOk result (λ f. fraction f ≡ times (fraction a) (fraction b)) }
    ensures cause { IfErr result IsCause }
{
    match a.mul(b) {
        Ok(product) => Ok(product),
        Err(over) => Err(Stop::Over(over)),
    }
}

/// The fraction 0.
pub fn zero() -> Frac
    ensures { fraction result ≡ none }
{
    Frac::whole(0)
}

/// The fraction 1.
pub fn one() -> Frac
    ensures { fraction result ≡ full }
{
    Frac::whole(1)
}

/// The fraction -1.
pub fn minus_one() -> Frac
    ensures { fraction result ≡ minus full }
{
    Frac::whole(-1)
}

/// One over a fraction other than 0.
pub fn reciprocal(a: Frac) -> Result<Frac, Stop>
    requires { ¬ ((fraction a).numerator ≡ pos 0) }
    ensures value { IfOk result (λ f. times (fraction f) (fraction a) ≡ full) }
    ensures cause { IfErr result IsCause }
{
    if a.num() > 0 {
        return Ok(Frac::new(a.den(), a.num()));
    }
    match a.num().checked_neg() {
        Some(den) => Ok(Frac::new(-a.den(), den)),
        None => Err(Stop::Over(Over {
            op: Op::Div,
            a: one(),
            b: a,
        })),
    }
}
