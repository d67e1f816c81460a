//! The head of a journal, and its text. Who kept an older head sees by it whether a journal goes on from there.

ghost use Rattle.std.specs.Prelude.{◌≡◌, ◌∷◌, [], Some, None, if◌then◌else◌};
ghost use Rattle.std.specs.List.{list_all};
ghost use Rattle.ucon_audit.specs.Head.{head_after, head_from, head_text, is_head_digit, is_head_text};

use sha2::{Digest, Sha256};

/// The head that a journal had after so many records, as somebody kept it: its text.
#[derive(Clone, Copy)]
pub struct Kept {
    pub records: u64,
    pub digits: [u8; 64],
}

impl Kept {
    /// What was kept, where this is a head's text. None where it is none.
    pub fn read(records: u64, text: &[u8]) -> Option<Kept>
        ensures { result ≡ (if is_head_text text.now then Some (record { records = records; digits = text.now }) else None) }
    {
        if !is_head_text(text) {
            return None;
        }
        let mut digits = [0u8; 64];
        digits.copy_from_slice(text);
        Some(Kept { records, digits })
    }
}

/// The head of a journal without records: SHA-256 (FIPS 180-4) of the first 8 bytes of its file.
pub fn first_head(magic: &[u8; 8]) -> [u8; 32]
    ensures { result ≡ head_after magic.now [] }
{
    Sha256::digest(magic.as_slice())
}

/// The head after one record more: SHA-256 of the head before it, followed by the record's payload.
pub fn next_head(head: &[u8; 32], payload: &[u8]) -> [u8; 32]
    ensures { result ≡ head_from head.now (payload.now ∷ []) }
{
    let mut hasher = Sha256::new();
    hasher.update(head.as_slice());
    hasher.update(payload);
    hasher.finalize()
}

/// The text of a head: 64 digits `0`-`9`, `a`-`f`.
pub fn head_text(head: &[u8; 32]) -> [u8; 64]
    ensures { result ≡ head_text head.now }
{
    let mut text = [0u8; 64];
    match hex::encode_to_slice(head.as_slice(), &mut text) {
        Ok(()) => text,
        Err(_) => unreachable!(),
    }
}

/// Whether a text may be that of a head: whether it is 64 digits `0`-`9`, `a`-`f`.
pub fn is_head_text(text: &[u8]) -> bool
    ensures { result ≡ is_head_text text.now }
{
    text.len() == 64 && are_head_digits(text)
}

fn are_head_digits(text: &[u8]) -> bool
    ensures { result ≡ list_all is_head_digit text.now }
{
    text.iter().all(|b| is_head_digit(*b))
}

fn is_head_digit(b: u8) -> bool
    ensures { result ≡ is_head_digit b }
{
    matches!(b, b'0'..=b'9' | b'a'..=b'f')
}
