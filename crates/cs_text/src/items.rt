// The text of what stands in the lists of steps: numbers, literals and multipliers.
ghost use Rattle.std.specs.Prelude.{◌≡◌, ◌++◌, ◌<◌, ◌+◌, ◌^◌, ℕ, List, map, OnOk};
ghost use Rattle.vx_frac.specs.Fraction.{fraction};
ghost use Rattle.vx_smt_meaning.specs.Words.{numeral};
ghost use Rattle.cs_proof.specs.Views.{numbered};
ghost use Rattle.cs_text.specs.Text.{behind, listed, literal_text, ratio_text, multiplier_text};

use cs_reader::Literal;
use std::alloc::AllocError;
use vx_frac::Frac;
use vx_smt_text::put_numeral;

/// An item of a list.
pub trait Item: Copy {
    ghost written: { Self → List ℕ };

    /// Writes it at the end.
    fn put(self, text: &mut Vec<u8>) -> Result<(), AllocError>
        ensures { OnOk result (text.new.items ≡ text.old.items ++ written self) };
}

impl Item for u128 {
    ghost written = { numeral };

    fn put(self, text: &mut Vec<u8>) -> Result<(), AllocError> {
        put_numeral(text, self)
    }
}

impl Item for Literal {
    ghost written = { λ l. literal_text (numbered l) };

    fn put(self, text: &mut Vec<u8>) -> Result<(), AllocError> {
        if self.positive {
            text.push(b'p')?;
            put_numeral(text, self.number)
        } else {
            text.push(b'n')?;
            put_numeral(text, self.number)
        }
    }
}

fn put_ratio(text: &mut Vec<u8>, p: u128, below: u128) -> Result<(), AllocError>
    requires { below + 1 < 2 ^ 128 }
    ensures { OnOk result (text.new.items ≡ text.old.items ++ ratio_text p below) }
{
    if below == 0 {
        put_numeral(text, p)
    } else {
        text.extend_from_slice(b"(/ ")?;
        put_numeral(text, p)?;
        text.push(b' ')?;
        put_numeral(text, below + 1)?;
        text.extend_from_slice(b")")
    }
}

impl Item for Frac {
    ghost written = { λ a. multiplier_text (fraction a) };

    fn put(self, text: &mut Vec<u8>) -> Result<(), AllocError> {
        let below = self.den().unsigned_abs() - 1;
        if self.num() < 0 {
            text.extend_from_slice(b"(- ")?;
            put_ratio(text, self.num().unsigned_abs(), below)?;
            text.extend_from_slice(b")")
        } else {
            put_ratio(text, self.num().unsigned_abs(), below)
        }
    }
}

/// Each behind a blank.
pub fn put_more<T: Item>(text: &mut Vec<u8>, items: &[T]) -> Result<(), AllocError>
    ensures { OnOk result (text.new.items ≡ text.old.items ++ behind (map T.written items.now)) }
{
    for item in items {
        text.push(b' ')?;
        item.put(text)?;
    }
    Ok(())
}

/// In parentheses.
pub fn put_list<T: Item>(text: &mut Vec<u8>, items: &[T]) -> Result<(), AllocError>
    ensures { OnOk result (text.new.items ≡ text.old.items ++ listed (map T.written items.now)) }
{
    match items.split_first() {
        None => text.extend_from_slice(b"()"),
        Some((first, rest)) => {
            text.push(b'(')?;
            first.put(text)?;
            put_more(text, rest)?;
            text.extend_from_slice(b")")
        }
    }
}
