//! Bounds of columns, and the order of values.
ghost use Rattle.std.specs.Prelude.{◌≡◌};
ghost use Rattle.vx_frac.specs.Fraction.{fraction};
ghost use Rattle.cs_linear.specs.Numbers.{IsCause};
ghost use Rattle.cs_linear.specs.Amounts.{amount, is_less, has_room_by, is_broken_by};

use crate::numbers::{minus_one, one, zero};
use vx_frac::Frac;

/// A number and a multiple of a small positive one.
#[derive(Clone, Copy)]
pub struct Value {
    pub main: Frac,
    pub delta: Frac,
}

/// On which side of its limit a value has to be.
#[derive(Clone, Copy)]
pub enum Side {
    AtLeast,
    AtMost,
}

/// What is asserted of a column.
#[derive(Clone, Copy)]
pub struct Bound {
    pub column: u32,
    pub side: Side,
    pub limit: Value,
    pub reason: u32,
}

/// A bound and what it is multiplied by: above 0 for `AtLeast`, below 0 for `AtMost`.
#[derive(Clone, Copy)]
pub struct Part {
    pub bound: Bound,
    pub multiplier: Frac,
}

impl Value {
    ghost use Rattle.vx_frac.specs.Fractions as fractions;
    ghost use Rattle.cs_linear.specs.Amounts as amounts;

    /// The number itself.
    pub fn exactly(number: Frac) -> Value
        ensures { amount result ≡ amounts.exactly (fraction number) }
    {
        Value {
            main: number,
            delta: zero(),
        }
    }

    /// A little above the number, as the limit of those above it.
    pub fn above(number: Frac) -> Value
        ensures { amount result ≡ amounts.above (fraction number) }
    {
        Value {
            main: number,
            delta: one(),
        }
    }

    /// A little below the number, as the limit of those below it.
    pub fn below(number: Frac) -> Value
        ensures { amount result ≡ amounts.below (fraction number) }
    {
        Value {
            main: number,
            delta: minus_one(),
        }
    }

    /// Whether a value is below another: its number is, or isn't greater, and its multiple is below.
    pub fn is_less(self, other: Value) -> bool
        ensures { result ≡ is_less (amount self) (amount other) }
    {
        if self.main.is_less(other.main) {
            return true;
        }
        if other.main.is_less(self.main) {
            return false;
        }
        self.delta.is_less(other.delta)
    }
}

impl Bound {
    /// Whether a value is beyond the limit.
    pub fn is_broken(self, value: Value) -> bool
        ensures { result ≡ is_broken_by self.side (amount self.limit) (amount value) }
    {
        match self.side {
            Side::AtLeast => value.is_less(self.limit),
            Side::AtMost => self.limit.is_less(value),
        }
    }

    /// Whether a value can go on toward the limit.
    pub fn has_room(self, value: Value) -> bool
        ensures { result ≡ has_room_by self.side (amount self.limit) (amount value) }
    {
        match self.side {
            Side::AtLeast => self.limit.is_less(value),
            Side::AtMost => value.is_less(self.limit),
        }
    }
}
