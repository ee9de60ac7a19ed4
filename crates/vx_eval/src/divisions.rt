//! What `\` and `%` make of two values, and fractions.

ghost use Rattle.std.specs.Prelude.{◌≡◌, pos, IfOk};
ghost use Rattle.vx_frac.specs.Fractions.{lowest, over};
ghost use Rattle.vx_resolved.specs.Resolved.{division};
ghost use Rattle.vx_rules.specs.Rules as rule;
ghost use Rattle.vx_terms.specs.Terms as written;
ghost use Rattle.vx_heap.specs.Views.{held_term};

use std::alloc::{AllocError, Global};
use std::rc::Rc;
use vx_frac::Frac;
use vx_resolved::Division;
use vx_terms::{Term, make, numbers};

/// A division on two values.
pub fn divided(
    alloc: Global,
    op: Division,
    t: &Rc<Term>,
    u: &Rc<Term>,
) -> Result<Rc<Term>, AllocError>
    ensures { IfOk result (λ r. held_term r ≡ rule.divided (division op) (held_term t.now) (held_term u.now)) }
{
    match op {
        Division::Quotient => numbers::div(alloc, t, u),
        Division::Remainder => numbers::modulo(alloc, t, u),
    }
}

/// The number of a numeral; one past 128 bits, which no text has, is refused as for want of memory.
fn small(n: u128) -> Result<i128, AllocError>
    ensures { IfOk result (λ z. z ≡ pos n) }
{
    match i128::try_from(n) {
        Ok(z) => Ok(z),
        Err(_) => Err(AllocError),
    }
}

/// A numeral as a literal.
pub fn numeral(alloc: Global, n: u128) -> Result<Rc<Term>, AllocError>
    ensures { IfOk result (λ t. held_term t ≡ written.Number (pos n)) }
{
    make::int(alloc, small(n)?)
}

/// `n/d` as a literal; over 0 it counts as over 1.
pub fn part(alloc: Global, n: u128, d: u128) -> Result<Rc<Term>, AllocError>
    ensures { IfOk result (λ t. held_term t ≡ written.Part (lowest (over n d))) }
{
    let above = small(n)?;
    let below = small(d)?;
    if below == 0 {
        return make::real(alloc, Frac::new(above, 1));
    }
    make::real(alloc, Frac::new(above, below))
}
