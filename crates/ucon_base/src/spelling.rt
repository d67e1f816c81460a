//! Bytes and numbers, added at the end of others.

ghost use Rattle.std.specs.Prelude.{◌≡◌, ◌+◌, ◌/◌, ◌%◌, ◌<◌, ◌≤◌, ◌∷◌, [], ◌++◌, MatchResult, vec_capacity, vec_len};
ghost use Rattle.std.specs.Fmt.{decimal, signed_decimal};
ghost use Rattle.ucon_base.specs.Numbers.{InRange};

use crate::{Int, NoMemory};
use itoa::Buffer;

/// Adds bytes, or nothing if there is no memory.
#[inline(always)]
pub fn put(out: &mut Vec<u8>, bytes: &[u8]) -> Result<(), NoMemory>
    ensures { MatchResult result (λ _. out.new.items ≡ out.old.items ++ bytes.now) (λ _. out.new.items ≡ out.old.items) }
{
    out.extend_from_slice(bytes)?;
    Ok(())
}

/// Adds a number in decimal, or nothing if there is no memory. Room for five digits is asked for once, and so few are written there.
pub fn put_number(out: &mut Vec<u8>, n: u64) -> Result<(), NoMemory>
    ensures { MatchResult result (λ _. out.new.items ≡ out.old.items ++ decimal n) (λ _. out.new.items ≡ out.old.items) }
{
    if n >= 100_000 {
        return put_long(out, n);
    }
    out.reserve(5)?;
    put_short(out, n);
    Ok(())
}

/// Adds a number of any length in decimal, or nothing if there is no memory.
#[inline(never)]
fn put_long(out: &mut Vec<u8>, n: u64) -> Result<(), NoMemory>
    ensures { MatchResult result (λ _. out.new.items ≡ out.old.items ++ decimal n) (λ _. out.new.items ≡ out.old.items) }
{
    let mut digits = Buffer::new();
    put(out, digits.format(n).as_bytes())
}

/// Adds a number of at most five digits if there is room.
#[inline(always)]
#[tactic(auto, using(crate::proofs::Decimals::of_one, crate::proofs::Decimals::of_two))]
fn put_short(out: &mut Vec<u8>, n: u64)
    requires few { n < 100000 }
    requires room { vec_len out.old + 5 ≤ vec_capacity out.old }
    ensures { out.new.items ≡ out.old.items ++ decimal n }
{
    if n < 10 {
        out.push_reserved(b'0' + n as u8);
    } else if n < 100 {
        push_pair(out, n);
    } else if n < 1_000 {
        out.push_reserved(b'0' + (n / 100) as u8);
        push_pair(out, n % 100);
    } else if n < 10_000 {
        push_pair(out, n / 100);
        push_pair(out, n % 100);
    } else {
        out.push_reserved(b'0' + (n / 10_000) as u8);
        push_pair(out, n / 100 % 100);
        push_pair(out, n % 100);
    }
}

/// Adds the two digits of a number below 100 if there is room.
#[inline(always)]
fn push_pair(out: &mut Vec<u8>, n: u64)
    requires few { n < 100 }
    requires room { vec_len out.old + 2 ≤ vec_capacity out.old }
    ensures items { out.new.items ≡ out.old.items ++ (48 + n / 10) ∷ (48 + n % 10) ∷ [] }
    ensures len { vec_len out.new ≡ vec_len out.old + 2 }
    ensures capacity { vec_capacity out.new ≡ vec_capacity out.old }
{
    let at = n as usize * 2;
    out.push_reserved(PAIRS[at]);
    out.push_reserved(PAIRS[at + 1]);
}

/// The two digits of each number below 100.
static PAIRS: [u8; 200] =
    *b"00010203040506070809101112131415161718192021222324252627282930313233343536373839404142434445464748495051525354555657585960616263646566676869707172737475767778798081828384858687888990919293949596979899";

/// Adds an integer in decimal, or nothing if there is no memory, and tells that it is in its range.
pub fn put_integer(out: &mut Vec<u8>, n: Int) -> Result<(), NoMemory>
    ensures text { MatchResult result (λ _. out.new.items ≡ out.old.items ++ signed_decimal n) (λ _. out.new.items ≡ out.old.items) }
    ensures in_range { InRange n }
{
    let mut digits = Buffer::new();
    put(out, digits.format(n.get()).as_bytes())
}
