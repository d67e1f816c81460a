//! What a word says, by its kind.

ghost use Rattle.std.specs.Prelude.{◌≡◌, ◌<◌, ◌^◌, IfErr, IfOk, IfSome, IsSome, Some};
ghost use Rattle.ucon_base.specs.NameBytes.{is_name};
ghost use Rattle.ucon_model.specs.CommandLine.{name_in, side_in, value_in, number_of, number_in};
ghost use Rattle.ucon_reply.specs.Words.{digits_in};

use std::alloc::Global;
use ucon_base::{Int, Name, NoMemory, Side, Value, ValueFault};

/// The name that the bytes are.
pub fn name_in(bytes: &[u8]) -> Option<Name>
    ensures { result ≡ name_in bytes.now }
{
    Name::read(bytes).ok()
}

/// Whether the bytes are a name.
pub fn is_name(bytes: &[u8]) -> bool
    ensures { result ≡ is_name bytes.now }
{
    Name::read(bytes).is_ok()
}

/// The side that the bytes name.
pub fn side_in(bytes: &[u8]) -> Option<Side>
    ensures { result ≡ side_in bytes.now }
{
    if bytes == b"s".as_slice() {
        Some(Side::Subject)
    } else if bytes == b"o".as_slice() {
        Some(Side::Object)
    } else {
        None
    }
}

/// The value that the bytes spell. Only a set takes memory.
pub fn value_in(alloc: Global, bytes: &[u8]) -> Result<Option<Value>, NoMemory>
    ensures read { IfOk result (λ v. v ≡ value_in bytes.now) }
    ensures sure { IfErr result (λ _. IsSome (value_in bytes.now)) }
{
    match Value::read(alloc, bytes) {
        Ok(v) => Ok(Some(v)),
        Err(ValueFault::NoMemory(refused)) => Err(refused),
        Err(_) => Ok(None),
    }
}

/// The integer that the bytes spell, if a digit begins them.
#[inline(always)]
#[tactic(auto, using(crate::proofs::ReadWords::integer_value))]
pub fn digits_in(bytes: &[u8]) -> Option<Int>
    ensures digits { result ≡ digits_in bytes.now }
    ensures value { IfSome result (λ n. value_in bytes.now ≡ Some (Value.Int n)) }
{
    match bytes {
        [b'0'..=b'9', ..] => Int::read(bytes),
        _ => None,
    }
}

fn number_of(n: Int) -> Option<u32>
    ensures { result ≡ number_of n }
{
    u32::try_from(n.get()).ok()
}

/// The session's number that the bytes spell, which is below 2^32.
pub fn number_in(bytes: &[u8]) -> Option<u32>
    ensures number { result ≡ number_in bytes.now }
    ensures few { IfSome result (λ n. n < 2 ^ 32) }
{
    number_of(Int::read(bytes)?)
}
