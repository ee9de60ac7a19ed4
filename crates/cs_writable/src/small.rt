// What stands in the lists of steps, and whether its numbers are small: numbers, literals and multipliers.
ghost use Rattle.std.specs.Prelude.{◌≡◌, Bool};
ghost use Rattle.std.specs.List.{list_all};
ghost use Rattle.vx_frac.specs.Fraction.{fraction};
ghost use Rattle.cs_proof.specs.Views.{numbered};
ghost use Rattle.cs_writable.specs.Tests as tests;

use cs_reader::Literal;
use vx_frac::Frac;

/// An item of a list, or a number.
pub trait Small: Copy {
    ghost small: { Self → Bool };

    /// Whether all its numbers stay below 2^127.
    fn is_small(self) -> bool
        ensures { result ≡ small self };
}

impl Small for u128 {
    ghost small = { tests.is_small };

    fn is_small(self) -> bool {
        self < 1 << 127
    }
}

impl Small for Literal {
    ghost small = { λ l. tests.is_small_literal (numbered l) };

    fn is_small(self) -> bool {
        self.number.is_small()
    }
}

impl Small for Frac {
    ghost small = { λ a. tests.is_small_fraction (fraction a) };

    fn is_small(self) -> bool {
        self.num().unsigned_abs().is_small() && self.den().unsigned_abs().is_small()
    }
}

pub fn are_small<T: Small>(items: &[T]) -> bool
    ensures { result ≡ list_all T.small items.now }
{
    for item in items {
        if !item.is_small() {
            return false;
        }
    }
    true
}
