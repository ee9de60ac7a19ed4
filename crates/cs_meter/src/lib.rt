//! The limits of a check: its units, and calls of fractions that leave 128 bits.
#![tactic(auto)]

mod calls;
mod laws;

ghost use Rattle.std.specs.Prelude.{◌≡◌, ◌+◌, ◌<◌, ◌≤◌, ◌↔◌, IsOk, OnOk, OnErr};
ghost use Rattle.cs_meter.specs.Units.{limit};

pub use calls::leaves;
pub use laws::over_is_of_large_numbers;
use std::alloc::AllocError;

/// How many units a check may spend.
pub const LIMIT: u32 = 100_000;

/// The units that a check has spent.
#[derive(Drop)]
pub struct Meter {
    spent: u32,
    ghost within: { spent ≤ limit },
}

/// All units are spent.
#[derive(Clone, Copy)]
pub struct Budget;

impl Clone for Meter {
    ghost is_clone = { λ m n. n ≡ m };

    fn clone(&self) -> Result<Meter, AllocError> {
        Ok(Meter { spent: self.spent })
    }
}

impl Meter {
    /// Nothing is spent yet.
    pub fn new() -> Meter
        ensures { result.spent ≡ 0 }
    {
        Meter { spent: 0 }
    }

    /// The units spent so far.
    pub fn spent(&self) -> u32
        ensures value { result ≡ self.now.spent }
        ensures within { result ≤ limit }
    {
        self.spent
    }

    /// Spends one unit.
    ///
    /// # Errors
    /// `Budget` exactly where all are spent; none is spent then.
    pub fn spend(&mut self) -> Result<(), Budget>
        ensures spent { OnOk result (self.new.spent ≡ self.old.spent + 1) }
        ensures kept { OnErr result (self.new.spent ≡ self.old.spent) }
        ensures left { IsOk result ↔ self.old.spent < limit }
    {
        if self.spent >= LIMIT {
            return Err(Budget);
        }
        self.spent += 1;
        Ok(())
    }

    /// Spends so many units.
    ///
    /// # Errors
    /// `Budget` exactly where fewer are left; all are spent then.
    pub fn spend_many(&mut self, units: u32) -> Result<(), Budget>
        ensures spent { OnOk result (self.new.spent ≡ self.old.spent + units) }
        ensures all { OnErr result (self.new.spent ≡ limit) }
        ensures left { IsOk result ↔ self.old.spent + units ≤ limit }
    {
        if units > LIMIT - self.spent {
            self.spent = LIMIT;
            return Err(Budget);
        }
        self.spent += units;
        Ok(())
    }
}
