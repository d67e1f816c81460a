//! How a document is divided.

ghost use Rattle.std.specs.Prelude.{◌≡◌, ◌≤◌, ◌+◌, ◌==◌, length, take, option_map, position, IfSome};
ghost use Rattle.std.specs.List.{before_first, after_first};
ghost use Rattle.ucon_model.specs.Document.{is_divider, before_divider, lines_of, policy_part};
ghost use Rattle.ucon_script.specs.Lines.{Divides};

use memchr::memchr;

/// Where a divider stands.
#[derive(Clone, Copy)]
pub struct Divider<'a> {
    /// The place of its first byte.
    pub place: usize,
    /// How many lines stand above it.
    pub above: usize,
    /// All that stands behind its line.
    pub script: &'a [u8],
}

/// The bytes before the divider, and all of them if there is none.
pub fn policy_part(bytes: &[u8]) -> &[u8]
    ensures { result.now ≡ policy_part bytes.now }
{
    match find_divider(bytes) {
        Some(divider) => &bytes[..divider.place],
        None => bytes,
    }
}

/// The first line that is exactly `%%`. Its two bytes, a newline for each line above and the script lie within the text.
pub fn find_divider(bytes: &[u8]) -> Option<Divider<'_>>
    ensures place { option_map (λ d. take d.place bytes.now) result ≡ before_divider (lines_of bytes.now) }
    ensures within { IfSome result (λ d. (d.place ≤ length bytes.now) × (d.above + 2 + length d.script.now ≤ length bytes.now)) }
    ensures script { Divides bytes.now result }
{
    let mut rest = bytes;
    let mut above: usize = 0;
    while !rest.is_empty() {
        let (line, script) = cut(rest, b'\n');
        if is_divider(line) {
            let place = bytes.len() - rest.len();
            return Some(Divider {
                place,
                above,
                script,
            });
        }
        above += 1;
        rest = script;
    }
    None
}

pub fn is_divider(line: &[u8]) -> bool
    ensures { result ≡ is_divider line.now }
{
    line == b"%%".as_slice()
}

/// What stands before the first separator, and what stands behind it.
#[inline(always)]
pub fn cut(bytes: &[u8], separator: u8) -> (&[u8], &[u8])
    ensures front { result.0.now ≡ before_first (λ b. b == separator) bytes.now }
    ensures back { result.1.now ≡ after_first (λ b. b == separator) bytes.now }
{
    match first_place(bytes, separator) {
        Some(at) => (&bytes[..at], &bytes[at + 1..]),
        None => bytes.split_at(bytes.len()),
    }
}

#[inline(always)]
pub fn first_place(bytes: &[u8], separator: u8) -> Option<usize>
    ensures place { result ≡ position (λ b. b == separator) bytes.now }
    ensures within { IfSome result (λ i. i + 1 ≤ length bytes.now) }
{
    memchr(separator, bytes)
}
