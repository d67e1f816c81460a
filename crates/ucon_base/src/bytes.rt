//! What single bytes are.

ghost use Rattle.std.specs.Prelude.{◌≡◌};
ghost use Rattle.ucon_base.specs.NameBytes.{is_letter, is_word_byte};
ghost use Rattle.ucon_base.specs.Reading.{is_digit};
ghost use Rattle.ucon_base.specs.TextBytes.{is_text_byte};

/// `a` to `z`.
pub fn is_letter(b: u8) -> bool
    ensures { result ≡ is_letter b }
{
    b >= b'a' && b <= b'z'
}

/// `0` to `9`.
pub fn is_digit(b: u8) -> bool
    ensures { result ≡ is_digit b }
{
    b >= b'0' && b <= b'9'
}

/// A byte that may stand in a name: a letter, a digit or `_`.
pub fn is_word_byte(b: u8) -> bool
    ensures { result ≡ is_word_byte b }
{
    WORD_BYTES[b as usize] == b'w'
}

/// A byte that may stand in a text: printable, and not `"`.
pub fn is_text_byte(b: u8) -> bool
    ensures { result ≡ is_text_byte b }
{
    b >= 0x20 && b <= 0x7e && !(b == b'"')
}

/// A `w` for each byte that may stand in a name.
static WORD_BYTES: [u8; 256] = *b"\
    ................................................wwwwwwwwww......\
    ...............................w.wwwwwwwwwwwwwwwwwwwwwwwwww.....\
    ................................................................\
    ................................................................";
