//! Pieces of text, added at the end of bytes.

ghost use Rattle.std.specs.Prelude.{◌≡◌, ◌<◌, ◌^◌, ◌++◌, ◌∷◌, IsTrue, OnOk};
ghost use Rattle.std.specs.Fmt.{decimal};
ghost use Rattle.ucon_base.specs.NameBytes.{is_name};
ghost use Rattle.ucon_base.specs.Spelling.{IsValue, value_spelling};

use std::alloc::Global;
use ucon_base::{Name, NoMemory, Value, put, put_number, put_spelling};

/// Adds a space and a name, and tells that its bytes are a name's.
#[inline(always)]
pub fn put_name(out: &mut Vec<u8>, name: &Name) -> Result<(), NoMemory>
    ensures text { OnOk result (out.new.items ≡ out.old.items ++ 32 ∷ name.now) }
    ensures in_form { OnOk result (IsTrue (is_name name.now)) }
{
    out.push(b' ')?;
    name.put(out)
}

/// Adds a space and a value, and tells that the value is in form.
pub fn put_value(alloc: Global, out: &mut Vec<u8>, v: &Value) -> Result<(), NoMemory>
    ensures text { OnOk result (out.new.items ≡ out.old.items ++ 32 ∷ value_spelling v.now) }
    ensures in_form { OnOk result (IsValue v.now) }
{
    out.push(b' ')?;
    put_spelling(alloc, out, v)
}

/// Adds a word and a session's number, which is below 2^32.
#[inline(always)]
pub fn put_session(out: &mut Vec<u8>, word: &[u8], n: u32) -> Result<(), NoMemory>
    ensures text { OnOk result (out.new.items ≡ out.old.items ++ (word.now ++ decimal n)) }
    ensures few { n < 2 ^ 32 }
{
    put(out, word)?;
    put_number(out, n as u64)
}
