//! Numbers below a limit, as they are written.
ghost use Rattle.std.specs.Prelude.{◌≡◌, ◌<◌, ◌≤◌, ◌^◌, IfSome};
ghost use Rattle.cs_commands.specs.Names.{with_digit, digits, number_below};

/// A number with a further digit, where it stays below the limit.
#[tactic(auto, unfolding(vx_sexp::specs::Characters::is_digit))]
fn with_digit(limit: u128, value: u128, digit: u8) -> Option<u128>
    requires { limit ≤ 2 ^ 127 }
    ensures value { result ≡ with_digit limit value digit }
    ensures small { IfSome result (λ n. n < limit) }
{
    if digit < b'0' || digit > b'9' {
        return None;
    }
    let next = value
        .checked_mul(10)?
        .checked_add(u128::from(digit - b'0'))?;
    if next < limit { Some(next) } else { None }
}

fn digits_of(limit: u128, text: &[u8]) -> Option<u128>
    requires some { 0 < limit }
    requires small { limit ≤ 2 ^ 127 }
    ensures value { result ≡ digits limit 0 text.now }
    ensures small { IfSome result (λ n. n < limit) }
{
    let mut value = 0u128;
    for digit in text {
        value = with_digit(limit, value, *digit)?;
    }
    Some(value)
}

/// The number below the limit that is written so.
pub fn number_below(limit: u128, text: &[u8]) -> Option<u128>
    requires some { 0 < limit }
    requires small { limit ≤ 2 ^ 127 }
    ensures value { result ≡ number_below limit text.now }
    ensures small { IfSome result (λ n. n < limit) }
{
    let first = text.first()?;
    if *first == b'0' && text.len() > 1 {
        return None;
    }
    digits_of(limit, text)
}
