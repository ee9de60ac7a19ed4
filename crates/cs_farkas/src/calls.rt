//! The calls of fractions in a sum.
ghost use Rattle.std.specs.Prelude.{◌≡◌};
ghost use Rattle.vx_frac.specs.Fraction.{fraction};
ghost use Rattle.cs_farkas.specs.Sums as clean;
ghost use Rattle.cs_farkas.specs.Views.{Ends};

use vx_frac::{Frac, Over};

/// Why a sum ends: the step misses its rule, or a fraction leaves 128 bits.
#[derive(Clone, Copy)]
pub enum Break {
    Miss,
    Over(Over),
}

pub fn times(a: Frac, b: Frac) -> Result<Frac, Break>
    ensures { Ends fraction result (clean.times (fraction a) (fraction b)) }
{
    match a.mul(b) {
        Ok(product) => Ok(product),
        Err(over) => Err(Break::Over(over)),
    }
}

pub fn plus(a: Frac, b: Frac) -> Result<Frac, Break>
    ensures { Ends fraction result (clean.plus (fraction a) (fraction b)) }
{
    match a.add(b) {
        Ok(sum) => Ok(sum),
        Err(over) => Err(Break::Over(over)),
    }
}
