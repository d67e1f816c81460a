//! The one spelling of a value, written.

ghost use Rattle.std.specs.Prelude.{◌≡◌, ◌++◌, IfOk, IsTrue, OnOk, OnErr};
ghost use Rattle.std.specs.List.{list_all};
ghost use Rattle.ucon_base.specs.Spelling.{IsValue, quoted, more_texts, set_spelling, value_spelling};
ghost use Rattle.ucon_base.specs.TextBytes.{is_text};

use crate::{NoMemory, Text, Value, put, put_integer};
use std::alloc::Global;

/// Adds the one spelling of a value and tells that the value is in form, or adds nothing if there is no memory.
pub fn put_spelling(alloc: Global, out: &mut Vec<u8>, v: &Value) -> Result<(), NoMemory>
    ensures ok { OnOk result (out.new.items ≡ out.old.items ++ value_spelling v.now) }
    ensures err { OnErr result (out.new.items ≡ out.old.items) }
    ensures in_form { OnOk result (IsValue v.now) }
{
    let text = spelling(alloc, v)?;
    put(out, &text)
}

fn spelling(alloc: Global, v: &Value) -> Result<Vec<u8>, NoMemory>
    ensures text { IfOk result (λ text. text.items ≡ value_spelling v.now) }
    ensures in_form { OnOk result (IsValue v.now) }
{
    let mut text = Vec::new(alloc);
    match v {
        Value::Int(n) => put_integer(&mut text, *n)?,
        Value::Text(t) => put_quoted(&mut text, t.bytes())?,
        Value::Set(s) => put_set(&mut text, s.slice())?,
    }
    Ok(text)
}

/// Adds bytes between quotes. If there is no memory, some of it may stand there: a caller gives the text up.
pub fn put_quoted(out: &mut Vec<u8>, bytes: &[u8]) -> Result<(), NoMemory>
    ensures { OnOk result (out.new.items ≡ out.old.items ++ quoted bytes.now) }
{
    out.push(b'"')?;
    put(out, bytes)?;
    put(out, b"\"")
}

fn put_set(out: &mut Vec<u8>, texts: &[Text]) -> Result<(), NoMemory>
    ensures text { OnOk result (out.new.items ≡ out.old.items ++ set_spelling texts.now) }
    ensures in_form { OnOk result (IsTrue (list_all is_text texts.now)) }
{
    match texts {
        [] => put(out, b"{}"),
        [first, more @ ..] => {
            out.push(b'{')?;
            put_quoted(out, first.bytes())?;
            put_more_texts(out, more)?;
            put(out, b"}")
        }
    }
}

fn put_more_texts(out: &mut Vec<u8>, texts: &[Text]) -> Result<(), NoMemory>
    ensures text { OnOk result (out.new.items ≡ out.old.items ++ more_texts texts.now) }
    ensures in_form { OnOk result (IsTrue (list_all is_text texts.now)) }
{
    for t in texts {
        out.push(b',')?;
        put_quoted(out, t.bytes())?;
    }
    Ok(())
}
