// The numbers that words write.
ghost use Rattle.std.specs.Prelude.{◌≡◌, ◌==◌, ◌≤◌, IfSome, slice_index};
ghost use Rattle.vx_words.specs.Numbers.{number_in};

const MAX_METHODS: u64 = 2000;

const MAX_JOBS: u64 = 16;

// Rust reads a number with a plus in front, too.
fn has_plus(text: &str) -> bool
    ensures { result ≡ (slice_index text.now 0 == 43) }
{
    text.starts_with('+')
}

// The number that the word's digits write, if it is nothing but digits and the number lies between the two.
fn number_of(text: &str, least: u64, most: u64) -> Option<u64>
    ensures number { result ≡ number_in least most text.now }
    ensures most { IfSome result (λ number. number ≤ most) }
{
    if has_plus(text) {
        return None;
    }
    match text.parse::<u64>() {
        Ok(number) => {
            if least <= number && number <= most {
                Some(number)
            } else {
                None
            }
        }
        Err(_) => None,
    }
}

/// How many methods the word asks for: at most 2000.
pub fn methods_of(text: &str) -> Option<u32>
    ensures number { result ≡ number_in 0 2000 text.now }
{
    let methods = number_of(text, 0, MAX_METHODS)?;
    Some(methods as u32)
}

/// How many lanes the word asks for: from 1 to 16.
pub fn jobs_of(text: &str) -> Option<u32>
    ensures number { result ≡ number_in 1 16 text.now }
{
    let jobs = number_of(text, 1, MAX_JOBS)?;
    Some(jobs as u32)
}

/// The seed that the word writes: below 2^64.
pub fn seed_of(text: &str) -> Option<u64>
    ensures number { result ≡ number_in 0 18446744073709551615 text.now }
{
    number_of(text, 0, u64::MAX)
}
