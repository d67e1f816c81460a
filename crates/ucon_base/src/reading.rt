//! Integers and lone texts, read from their one spelling.

ghost use Rattle.std.specs.Prelude.{◌≡◌, ◌≤◌, ◌<◌, not, length, position, IfSome};
ghost use Rattle.std.specs.List.{prefix_len};
ghost use Rattle.ucon_base.specs.TextBytes.{is_text_byte};
ghost use Rattle.ucon_base.specs.Reading.{is_digit, bad_number_place, bad_integer_place, integer_read, text_len, bad_close, text_read};

use crate::bytes::{is_digit, is_text_byte};
use crate::{Int, Text, Value, ValueFault};

/// The integer that the bytes spell, or the first fault.
#[tactic(auto, using(crate::proofs::PlainNumbers::read_none))]
pub fn read_integer(bytes: &[u8]) -> Result<Value, ValueFault>
    ensures { result ≡ integer_read bytes.now }
{
    if let Some(n) = Int::read(bytes) {
        return Ok(Value::Int(n));
    }
    match bad_integer_place(bytes) {
        Some(at) => Err(ValueFault::BadSpelling(at)),
        None => Err(ValueFault::OutOfRange),
    }
}

fn bad_integer_place(bytes: &[u8]) -> Option<usize>
    ensures { result ≡ bad_integer_place bytes.now }
{
    match bytes {
        [b'-', digits @ ..] => Some(bad_number_place(digits)? + 1),
        [b'0'] => None,
        [b'0', ..] => Some(1),
        _ => bad_number_place(bytes),
    }
}

fn bad_number_place(bytes: &[u8]) -> Option<usize>
    ensures place { result ≡ bad_number_place bytes.now }
    ensures within { IfSome result (λ i. i ≤ length bytes.now) }
{
    match bytes {
        [b'1'..=b'9', digits @ ..] => Some(no_digit(digits)? + 1),
        _ => Some(0),
    }
}

fn no_digit(bytes: &[u8]) -> Option<usize>
    ensures place { result ≡ position (λ d. not (is_digit d)) bytes.now }
    ensures within { IfSome result (λ i. i < length bytes.now) }
{
    bytes.iter().position(|d| !is_digit(*d))
}

/// The text whose bytes these are behind its opening quote.
#[tactic(auto, using(crate::proofs::TextFront::long_front))]
pub fn read_text(bytes: &[u8]) -> Result<Value, ValueFault>
    ensures { result ≡ text_read bytes.now }
{
    let (text, rest) = bytes.split_at(text_len(bytes));
    match bad_close(text.len() + 1, rest) {
        Some(at) => Err(ValueFault::BadSpelling(at)),
        None => match Text::read(text) {
            Ok(text) => Ok(Value::Text(text)),
            Err(_) => Err(ValueFault::TooLong(0)),
        },
    }
}

/// How many bytes of a text stand at the front.
pub fn text_len(bytes: &[u8]) -> usize
    ensures len { result ≡ text_len bytes.now }
    ensures within { result ≤ length bytes.now }
{
    bytes.iter().take_while(|b| is_text_byte(**b)).count()
}

fn bad_close(at: usize, bytes: &[u8]) -> Option<usize>
    requires { at < usize.MAX }
    ensures { result ≡ bad_close at bytes.now }
{
    match bytes {
        [b'"'] => None,
        [b'"', ..] => Some(at + 1),
        _ => Some(at),
    }
}
