//! The law of such calls.
ghost use Rattle.cs_meter.specs.Calls.{OverIsOfLargeNumbers};

/// A call of fractions leaves 128 bits only where one of them has a numerator or a denominator of at least 2^63 in size.
pub fn over_is_of_large_numbers()
    ensures { OverIsOfLargeNumbers }
{}
