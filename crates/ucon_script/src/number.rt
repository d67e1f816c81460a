//! Numbers in decimal, without leading zeros.

ghost use Rattle.std.specs.Prelude.{◌≡◌, ◌≤◌, ◌^◌, min, option_map};
ghost use Rattle.std.specs.List.{list_all};
ghost use Rattle.ucon_base.specs.Reading.{is_digit, number_of};
ghost use Rattle.ucon_model.specs.Document.{is_number, number_spelled};

use ucon_base::is_digit;

/// The number that the bytes spell, or `most` for any above it.
pub fn number_spelled(bytes: &[u8], most: u128) -> Option<u128>
    requires { most ≤ 2 ^ 64 }
    ensures { result ≡ option_map (λ n. min n most) (number_spelled bytes.now) }
{
    if is_number(bytes) {
        Some(number_of(bytes, most))
    } else {
        None
    }
}

fn is_number(bytes: &[u8]) -> bool
    ensures { result ≡ is_number bytes.now }
{
    match bytes {
        [] => false,
        [first, others @ ..] => are_digits(bytes) && (*first != b'0' || others.is_empty()),
    }
}

fn are_digits(bytes: &[u8]) -> bool
    ensures { result ≡ list_all is_digit bytes.now }
{
    bytes.iter().all(|b| is_digit(*b))
}

/// The number that digits write, or `most` for any above it.
fn number_of(digits: &[u8], most: u128) -> u128
    requires { most ≤ 2 ^ 64 }
    ensures { result ≡ min (number_of digits.now) most }
{
    let mut n: u128 = 0;
    for d in digits {
        n = (n * 10 + d.saturating_sub(b'0') as u128).min(most);
    }
    n
}
