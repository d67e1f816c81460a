//! The smallest parts of the text.

ghost use Rattle.std.specs.Prelude.{◌≡◌, ◌++◌, OnOk};
ghost use Rattle.std.specs.List.{flat_map};
ghost use Rattle.ucon_model.specs.Printing.{only_if, further_text, set_printing, literal_printing, place_printing};

use ucon_base::{NoMemory, Text, Value, put, put_integer, put_quoted};
use ucon_model::Ref;

/// Adds the bytes if the test is true, and else nothing. `Err` if there is no memory.
pub fn put_if(out: &mut Vec<u8>, test: bool, bytes: &[u8]) -> Result<(), NoMemory>
    ensures { OnOk result (out.new.items ≡ out.old.items ++ only_if test bytes.now) }
{
    if test {
        return put(out, bytes);
    }
    Ok(())
}

fn put_further_texts(out: &mut Vec<u8>, texts: &[Text]) -> Result<(), NoMemory>
    ensures { OnOk result (out.new.items ≡ out.old.items ++ flat_map further_text texts.now) }
{
    for t in texts {
        put(out, b", ")?;
        put_quoted(out, t.bytes())?;
    }
    Ok(())
}

fn put_set(out: &mut Vec<u8>, texts: &[Text]) -> Result<(), NoMemory>
    ensures { OnOk result (out.new.items ≡ out.old.items ++ set_printing texts.now) }
{
    match texts {
        [] => put(out, b"{}"),
        [first, more @ ..] => {
            put(out, b"{")?;
            put_quoted(out, first.bytes())?;
            put_further_texts(out, more)?;
            put(out, b"}")
        }
    }
}

/// Adds a literal, as the printer writes it. `Err` if there is no memory.
pub fn put_literal(out: &mut Vec<u8>, v: &Value) -> Result<(), NoMemory>
    ensures { OnOk result (out.new.items ≡ out.old.items ++ literal_printing v.now) }
{
    match v {
        Value::Int(n) => put_integer(out, *n),
        Value::Text(t) => put_quoted(out, t.bytes()),
        Value::Set(s) => put_set(out, s.slice()),
    }
}

/// Adds a place: `s.`, `o.` or `env.`, and its name. `Err` if there is no memory.
pub fn put_place(out: &mut Vec<u8>, place: &Ref) -> Result<(), NoMemory>
    ensures { OnOk result (out.new.items ≡ out.old.items ++ place_printing place.now) }
{
    let (whose, name) = match place {
        Ref::Subject(name) => (b"s.".as_slice(), name),
        Ref::Object(name) => (b"o.".as_slice(), name),
        Ref::Env(name) => (b"env.".as_slice(), name),
    };
    put(out, whose)?;
    put(out, name.bytes())
}
