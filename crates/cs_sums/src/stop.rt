//! Why a call ends early, and quotients of fractions.
ghost use Rattle.std.specs.Prelude.{◌≡◌};
ghost use Rattle.vx_frac.specs.Fraction.{fraction};
ghost use Rattle.cs_sums.specs.Between.{IsFloor};

use cs_linear::Undecided;
use std::alloc::{AllocError, AllocFailed};
use vx_frac::{Frac, Op, Over};

/// Why a call ends early.
#[derive(Clone, Copy)]
pub enum Stop {
    /// All units are spent.
    Budget,
    /// This call of a fraction leaves 128 bits.
    Over(Over),
    /// A number names nothing.
    Miss,
    /// Memory runs out.
    Want,
}

impl From<AllocError> for Stop {
    ghost use Rattle.cs_sums.specs.declared.stop.Stop.TheVariants.{Want};

    ghost from_gives = { λ _ e. e ≡ Want };

    fn from(_: AllocError) -> Self {
        Stop::Want
    }
}

impl<T: Drop> From<AllocFailed<T>> for Stop {
    ghost use Rattle.cs_sums.specs.declared.stop.Stop.TheVariants.{Want};

    ghost from_gives = { λ _ e. e ≡ Want };

    fn from(_: AllocFailed<T>) -> Self {
        Stop::Want
    }
}

impl From<Over> for Stop {
    ghost use Rattle.cs_sums.specs.declared.stop.Stop.TheVariants as stops;

    ghost from_gives = { λ over e. e ≡ stops.Over over };

    fn from(over: Over) -> Self {
        Stop::Over(over)
    }
}

impl From<cs_linear::Stop> for Stop {
    ghost use Rattle.cs_sums.specs.Stops.{by_linear};

    ghost from_gives = { λ stop e. e ≡ by_linear stop };

    fn from(stop: cs_linear::Stop) -> Self {
        match stop {
            cs_linear::Stop::Over(over) => Stop::Over(over),
            cs_linear::Stop::Want => Stop::Want,
        }
    }
}

impl From<Undecided> for Stop {
    ghost use Rattle.cs_sums.specs.Stops.{by_check};

    ghost from_gives = { λ undecided e. e ≡ by_check undecided };

    fn from(undecided: Undecided) -> Self {
        match undecided {
            Undecided::Budget => Stop::Budget,
            Undecided::Over(over) => Stop::Over(over),
            Undecided::Want => Stop::Want,
        }
    }
}

impl From<cs_table::Stop> for Stop {
    ghost use Rattle.cs_sums.specs.Stops.{by_table};

    ghost from_gives = { λ stop e. e ≡ by_table stop };

    fn from(stop: cs_table::Stop) -> Self {
        match stop {
            cs_table::Stop::Miss => Stop::Miss,
            cs_table::Stop::Want => Stop::Want,
        }
    }
}

/// A fraction with the other sign.
///
/// # Errors
/// `Over` where it leaves 128 bits.
pub fn turned(a: Frac) -> Result<Frac, Stop> {
    Ok(Frac::whole(0).sub(a)?)
}

/// One over a fraction.
///
/// # Errors
/// `Miss` at 0; `Over` where it leaves 128 bits.
fn reciprocal(a: Frac) -> Result<Frac, Stop> {
    if a.num() > 0 {
        return Ok(Frac::new(a.den(), a.num()));
    }
    match a.num().checked_neg() {
        Some(0) => Err(Stop::Miss),
        Some(den) if den > 0 => Ok(Frac::new(-a.den(), den)),
        _ => Err(Stop::Over(Over {
            op: Op::Div,
            a: Frac::whole(1),
            b: a,
        })),
    }
}

/// One fraction over another.
///
/// # Errors
/// `Miss` where the other is 0; `Over` where the quotient leaves 128 bits.
pub fn quotient(a: Frac, b: Frac) -> Result<Frac, Stop> {
    Ok(a.mul(reciprocal(b)?)?)
}

/// The greatest whole number that is at most a fraction.
pub fn floor(a: Frac) -> i128
    ensures { IsFloor result (fraction a) }
{
    a.num().div_euclid(a.den())
}
