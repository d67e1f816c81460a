//! Lines of rows, one of each sort. If there is no memory, some of a line may stand there: a caller gives the text up.

ghost use Rattle.std.specs.Prelude.{◌≡◌, [], ◌∷◌, ◌++◌, codes, decimal, option_copied, OnOk};
ghost use Rattle.std.specs.Fmt.{signed_decimal};
ghost use Rattle.ucon_model.specs.Spelling.{state_word};
ghost use Rattle.ucon_point.specs.Lines.{act_words, entity_line, entity_word, line, session_words, value_line};

use std::alloc::Global;
use ucon_base::{Int, Name, NoMemory, Side, Value, put, put_integer, put_number, put_spelling};
use ucon_model::{Caller, SessionRow, SessionState};

/// Adds the line of a value: a word, a name and the value. None, if it has no value.
pub fn put_value(
    alloc: Global,
    out: &mut Vec<u8>,
    word: &[u8],
    name: &Name,
    value: Option<&Value>,
) -> Result<(), NoMemory>
    ensures { OnOk result (out.new.items ≡ out.old.items ++ value_line word.now name.now (option_copied value.entry)) }
{
    let Some(value) = value else {
        return Ok(());
    };
    put(out, word)?;
    put_name(out, name)?;
    put(out, b" ")?;
    put_spelling(alloc, out, value)?;
    put(out, b"\n")
}

/// Adds the line of an entity.
pub fn put_entity(out: &mut Vec<u8>, side: Side, name: &Name) -> Result<(), NoMemory>
    ensures { OnOk result (out.new.items ≡ out.old.items ++ entity_line side name.now) }
{
    put(out, entity_word(side))?;
    put_name(out, name)?;
    put(out, b"\n")
}

fn entity_word(side: Side) -> &'static [u8]
    ensures { result.now ≡ entity_word side }
{
    match side {
        Side::Subject => b"subject",
        Side::Object => b"object",
    }
}

/// Adds a space and a name.
fn put_name(out: &mut Vec<u8>, name: &Name) -> Result<(), NoMemory>
    ensures { OnOk result (out.new.items ≡ out.old.items ++ 32 ∷ name.now) }
{
    put(out, b" ")?;
    put(out, name.bytes())
}

/// Adds a space and an integer, and ends the line.
fn put_last(out: &mut Vec<u8>, n: Int) -> Result<(), NoMemory>
    ensures { OnOk result (out.new.items ≡ out.old.items ++ 32 ∷ signed_decimal n ++ 10 ∷ []) }
{
    put(out, b" ")?;
    put_integer(out, n)?;
    put(out, b"\n")
}

/// Adds the line of an act, which was last done at this tick.
pub fn put_act(
    out: &mut Vec<u8>,
    subject: &Name,
    action: &Name,
    object: &Name,
    moment: Int,
) -> Result<(), NoMemory>
    ensures { OnOk result (out.new.items ≡ out.old.items ++ line (act_words (subject.now, action.now, object.now) moment)) }
{
    put(out, b"act")?;
    put_names(out, subject, action, object)?;
    put_last(out, moment)
}

/// Adds three names, each behind a space.
fn put_names(out: &mut Vec<u8>, a: &Name, b: &Name, c: &Name) -> Result<(), NoMemory>
    ensures { OnOk result (out.new.items ≡ out.old.items ++ (32 ∷ a.now ++ 32 ∷ b.now ++ 32 ∷ c.now)) }
{
    put_name(out, a)?;
    put_name(out, b)?;
    put_name(out, c)
}

/// Adds the word before a session, and its caller.
fn put_caller(out: &mut Vec<u8>, caller: Caller) -> Result<(), NoMemory>
    ensures { OnOk result (out.new.items ≡ out.old.items ++ (codes "session " ++ decimal caller.0)) }
{
    put(out, b"session ")?;
    put_number(out, caller.0 as u64)
}

/// Adds a space and the word of a state.
fn put_state(out: &mut Vec<u8>, state: SessionState) -> Result<(), NoMemory>
    ensures { OnOk result (out.new.items ≡ out.old.items ++ 32 ∷ state_word state) }
{
    put(out, b" ")?;
    put(out, state_word(state))
}

/// Adds the line of a session.
pub fn put_session(out: &mut Vec<u8>, row: &SessionRow) -> Result<(), NoMemory>
    ensures { OnOk result (out.new.items ≡ out.old.items ++ line (session_words row.now)) }
{
    put_caller(out, row.caller)?;
    put_names(out, &row.right, &row.subject, &row.object)?;
    put_state(out, row.state)?;
    put_last(out, row.start)
}

/// The word of a state.
pub fn state_word(state: SessionState) -> &'static [u8]
    ensures { result.now ≡ state_word state }
{
    match state {
        SessionState::Requesting => b"requesting",
        SessionState::Denied => b"denied",
        SessionState::Accessing => b"accessing",
        SessionState::Revoked => b"revoked",
        SessionState::Ended => b"ended",
    }
}
