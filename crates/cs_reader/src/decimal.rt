//! Fractions that decimals and quotients of decimals write.
ghost use Rattle.std.specs.Prelude.{◌≡◌, pos};
ghost use Rattle.std.specs.Option.{option_map};
ghost use Rattle.vx_frac.specs.Fraction.{fraction};
ghost use Rattle.vx_sexp.specs.Tokens.{before_point, behind_point};
ghost use Rattle.cs_reader.specs.Spelling.{summed, multiplied, over, led_by, part_after, decimal, inverse};

use crate::mark::numeral_of;
use vx_frac::Frac;

/// The sum, where no number of it leaves 128 bits.
fn summed(a: Frac, b: Frac) -> Option<Frac>
    ensures { option_map fraction result ≡ summed (fraction a) (fraction b) }
{
    match a.add(b) {
        Ok(sum) => Some(sum),
        Err(_) => None,
    }
}

/// The product, where no number of it leaves 128 bits.
pub fn multiplied(a: Frac, b: Frac) -> Option<Frac>
    ensures { option_map fraction result ≡ multiplied (fraction a) (fraction b) }
{
    match a.mul(b) {
        Ok(product) => Some(product),
        Err(_) => None,
    }
}

/// A digit in front of a part: both together, by 10.
#[tactic(auto, unfolding(vx_sexp::specs::Characters::is_digit))]
fn led_by(digit: u8, part: Frac) -> Option<Frac>
    ensures { option_map fraction result ≡ led_by digit (fraction part) }
{
    if digit < b'0' || digit > b'9' {
        return None;
    }
    let all = summed(part, Frac::new(i128::from(digit - b'0'), 1))?;
    multiplied(all, Frac::new(1, 10))
}

/// The digits behind a point, read from the last one on.
#[tactic(auto, using(crate::proofs::Lists::part_last))]
fn part_of(digits: &[u8]) -> Option<Frac>
    ensures { option_map fraction result ≡ part_after (over (pos 0) 0) digits.now }
{
    let mut part = Frac::new(0, 1);
    let mut rest = digits;
    while let Some((last, front)) = rest.split_last() {
        part = led_by(*last, part)?;
        rest = front;
    }
    Some(part)
}

/// What stands before the first point and behind it.
fn around_point(text: &[u8]) -> (&[u8], &[u8])
    ensures before { result.0.now ≡ before_point text.now }
    ensures behind { result.1.now ≡ behind_point text.now }
{
    for (at, byte) in text.iter().enumerate() {
        if *byte == b'.' {
            return (&text[..at], &text[at + 1..]);
        }
    }
    (text, &[])
}

/// The fraction that a decimal writes.
pub fn decimal_of(text: &[u8]) -> Option<Frac>
    ensures { option_map fraction result ≡ decimal text.now }
{
    let (whole, behind) = around_point(text);
    let number = numeral_of(whole)?;
    let part = part_of(behind)?;
    summed(part, Frac::new(number as i128, 1))
}

/// 1 by a fraction above 0.
pub fn inverse_of(a: Frac) -> Option<Frac>
    ensures { option_map fraction result ≡ inverse (fraction a) }
{
    if a.num() <= 0 {
        return None;
    }
    Some(Frac::new(a.den(), a.num()))
}
