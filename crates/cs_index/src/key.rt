//! Keys.
ghost use Rattle.std.specs.Prelude.{◌≡◌};
ghost use Rattle.cs_index.specs.Keys.{mixed, mixed_all};

/// An odd number whose bits are spread.
const FACTOR: u64 = 0x9E37_79B9_7F4A_7C15;

/// Two keys in one. Over one left key the results of all right keys differ, and over one right key those of all left keys.
#[tactic(auto, unfolding(crate::specs::Keys::mixed))]
pub fn mix(left: u64, right: u64) -> u64
    ensures { result ≡ mixed left right }
{
    let both = left.wrapping_mul(FACTOR).wrapping_add(right);
    both.wrapping_mul(both.wrapping_mul(2).wrapping_add(1))
}

/// A key and a number that may be wider.
#[tactic(auto, using(crate::proofs::Wrapped::mixed_wrapped))]
pub fn mix_wide(key: u64, number: u128) -> u64
    ensures { result ≡ mixed key number }
{
    mix(key, (number % (1 << 64)) as u64)
}

/// A key and the bytes of a text.
pub fn mix_bytes(key: u64, bytes: &[u8]) -> u64
    ensures { result ≡ mixed_all key bytes.now }
{
    let mut all = key;
    for byte in bytes {
        all = mix(all, u64::from(*byte));
    }
    all
}

/// A key and the numbers of a list.
pub fn mix_numbers(key: u64, numbers: &[u32]) -> u64
    ensures { result ≡ mixed_all key numbers.now }
{
    let mut all = key;
    for number in numbers {
        all = mix(all, u64::from(*number));
    }
    all
}
