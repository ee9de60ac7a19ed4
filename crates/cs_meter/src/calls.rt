//! Whether a call leaves 128 bits.
ghost use Rattle.std.specs.Prelude.{◌≡◌, ◌&&◌, ◌↔◌, not, neg_ℤ, IsTrue, IsSome};
ghost use Rattle.vx_frac.specs.Fraction.{fraction};
ghost use Rattle.vx_frac.specs.Fractions.{fits_i128};
ghost use Rattle.cs_meter.specs.Calls.{quotient_fits, call_fits};

use vx_frac::{Frac, Op, Over};

/// Both numbers with the other sign, where they fit.
fn turned(num: i128, den: i128) -> Option<(i128, i128)>
    ensures { IsSome result ↔ IsTrue (fits_i128 (neg_ℤ num) && fits_i128 (neg_ℤ den)) }
{
    Some((num.checked_neg()?, den.checked_neg()?))
}

/// A quotient's numerator and denominator before they are reduced, where they fit.
fn quotient(a: Frac, b: Frac) -> Option<(i128, i128)>
    ensures { IsSome result ↔ IsTrue (quotient_fits (fraction a) (fraction b)) }
{
    let num = a.num().checked_mul(b.den())?;
    let den = b.num().checked_mul(a.den())?;
    if b.num() < 0 {
        turned(num, den)
    } else {
        Some((num, den))
    }
}

/// Whether this call leaves 128 bits, exactly: it is made again.
pub fn leaves(call: Over) -> bool
    ensures { result ≡ not (call_fits call.op (fraction call.a) (fraction call.b)) }
{
    let Over { op, a, b } = call;
    match op {
        Op::Add => a.add(b).is_err(),
        Op::Sub => a.sub(b).is_err(),
        Op::Mul => a.mul(b).is_err(),
        Op::Cmp => a.cmp(b).is_err(),
        Op::Div => quotient(a, b).is_none(),
    }
}
