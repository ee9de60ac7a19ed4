//! The laws of fractions as amounts: their order, and what sums and differences keep of it.
#![tactic(auto)]

ghost use Rattle.std.specs.Prelude.{◌≡◌, true};
ghost use Rattle.vx_frac.specs.Fractions.{Fraction, at_most, sum, same_fraction};

/// Of two sums with one amount in common the greater has the greater other amount.
pub fn sums_keep_the_order()
    ensures keeps { (a b c : Fraction) → at_most a b ≡ true → at_most (sum c a) (sum c b) ≡ true }
    ensures cancels { (a b c : Fraction) → at_most (sum c a) (sum c b) ≡ true → at_most a b ≡ true }
{}

/// Amounts add up to the same in every order.
pub fn sums_are_of_every_order()
    ensures commutes { (a b : Fraction) → same_fraction (sum a b) (sum b a) ≡ true }
    ensures associates { (a b c : Fraction) → same_fraction (sum (sum a b) c) (sum a (sum b c)) ≡ true }
{}
