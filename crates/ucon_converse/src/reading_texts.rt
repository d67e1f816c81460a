//! What readings are told.

ghost use Rattle.std.specs.Prelude.{◌≡◌, ◌<◌, ◌∷◌, ◌++◌, codes, decimal, IfOk, OnOk};
ghost use Rattle.std.specs.Char.{digit_char};
ghost use Rattle.std.specs.Fmt.{signed_decimal};
ghost use Rattle.std.specs.List.{flat_map};
ghost use Rattle.json.specs.Print.{escape, escape_byte, escape_letter, quoted};
ghost use Rattle.serde_json.specs.Written.{compact_text};
ghost use Rattle.ucon_audit.specs.Report.{tree_of};
ghost use Rattle.ucon_audit.specs.Usages.{usages};
ghost use Rattle.ucon_explain.specs.Text.{try_spelling};
ghost use Rattle.ucon_model.specs.Output.{Lacks};
ghost use Rattle.ucon_model.specs.Readings.{session};
ghost use Rattle.ucon_model.specs.Spelling.{state_word};
ghost use Rattle.ucon_state.specs.Following.{AfterEach, IsFollowing};
ghost use Rattle.ucon_state.specs.Held.{held_after};
ghost use Rattle.ucon_state.specs.Shown.{shown};
ghost use Rattle.ucon_state.specs.Tables.{session_in};
ghost use Rattle.ucon_converse.specs.Readings.{is_of, joined, joint, number_of, row_words, session_words, using_of_words, using_words};

use std::alloc::Global;
use ucon_audit::{report, usages};
use ucon_base::{Int, Name, NoMemory, Side, put, put_integer, put_number};
use ucon_explain::try_text;
use ucon_model::{Caller, SessionRow, SessionState, View, texts_lack_bytes};
use ucon_reply::{put_name, put_session};
use ucon_state::{State, states_hold_what_they_follow};

/// The state after so many entries, as `report` has it.
pub(crate) fn state_text(alloc: Global, entries: u64, state: &State) -> Result<Vec<u8>, NoMemory>
    ensures { IfOk result (λ text. AfterEach (shown state.now) (λ P T. text.items ≡ compact_text (tree_of entries (held_after P T)))) }
{
    let mut line = report(alloc, entries, state)?;
    let _newline = line.pop();
    Ok(line)
}

/// What a try of client 0 would meet, in one line.
pub(crate) fn explain_text(
    alloc: Global,
    state: &State,
    subject: &Name,
    right: &Name,
    object: &Name,
) -> Result<Vec<u8>, NoMemory>
    requires { IsFollowing (shown state.now) }
    ensures { IfOk result (λ text. AfterEach (shown state.now) (λ P T. text.items ≡ joined (try_spelling P T subject.now right.now object.now))) }
{
    let mut lines = try_text(alloc, state, subject, right, object)?;
    let _newline = lines.pop();
    let mut text = Vec::new(alloc);
    put_joined(&mut text, &lines)?;
    Ok(text)
}

/// Adds several lines as one.
fn put_joined(out: &mut Vec<u8>, lines: &[u8]) -> Result<(), NoMemory>
    ensures { OnOk result (out.new.items ≡ out.old.items ++ flat_map joint lines.now) }
{
    for byte in lines {
        put_joint(out, *byte)?;
    }
    Ok(())
}

fn put_joint(out: &mut Vec<u8>, byte: u8) -> Result<(), NoMemory>
    ensures { OnOk result (out.new.items ≡ out.old.items ++ joint byte) }
{
    if byte == b'\n' {
        put(out, b"; ")?;
    } else {
        out.push(byte)?;
    }
    Ok(())
}

/// A session, or that there is none.
pub(crate) fn session_text(alloc: Global, state: &State, n: u32) -> Result<Vec<u8>, NoMemory>
    ensures words { IfOk result (λ text. AfterEach (shown state.now) (λ P T. text.items ≡ session_words n (session T n))) }
    ensures bare { IfOk result (λ text. Lacks 10 text.items) }
{
    states_hold_what_they_follow();
    texts_lack_bytes();
    let mut text = Vec::new(alloc);
    match state.session(n) {
        Some(row) => put_row(&mut text, n, &row)?,
        None => put(&mut text, b"no session")?,
    }
    Ok(text)
}

/// Adds the words of a session.
fn put_row(out: &mut Vec<u8>, n: u32, row: &SessionRow) -> Result<(), NoMemory>
    ensures text { OnOk result (out.new.items ≡ out.old.items ++ row_words n row.now) }
    ensures bare { OnOk result (Lacks 10 (row_words n row.now)) }
{
    texts_lack_bytes();
    put_client(out, n, row.caller)?;
    put_name(out, &row.subject)?;
    put_name(out, &row.right)?;
    put_name(out, &row.object)?;
    put_standing(out, row.state, row.start)
}

/// Adds a session's word and number, and its client.
fn put_client(out: &mut Vec<u8>, n: u32, caller: Caller) -> Result<(), NoMemory>
    ensures { OnOk result (out.new.items ≡ out.old.items ++ (codes "session " ++ decimal n ++ 32 ∷ decimal caller.0)) }
{
    put_session(out, b"session ", n)?;
    put_behind_space(out, u64::from(caller.0))
}

/// Adds a state and a start, each behind a space.
fn put_standing(out: &mut Vec<u8>, state: SessionState, start: Int) -> Result<(), NoMemory>
    ensures { OnOk result (out.new.items ≡ out.old.items ++ (32 ∷ state_word state ++ 32 ∷ signed_decimal start)) }
{
    put(out, b" ")?;
    put(out, state_word(state))?;
    put(out, b" ")?;
    put_integer(out, start)
}

fn state_word(state: SessionState) -> &'static [u8]
    ensures { result.now ≡ state_word state }
{
    match state {
        SessionState::Requesting => b"requesting",
        SessionState::Denied => b"denied",
        SessionState::Accessing => b"accessing",
        SessionState::Revoked => b"revoked",
        SessionState::Ended => b"ended",
    }
}

/// Adds a space and a number.
fn put_behind_space(out: &mut Vec<u8>, n: u64) -> Result<(), NoMemory>
    ensures { OnOk result (out.new.items ≡ out.old.items ++ 32 ∷ decimal n) }
{
    put(out, b" ")?;
    put_number(out, n)
}

/// The numbers of the sessions that are accessing.
pub(crate) fn using_text(alloc: Global, state: &State) -> Result<Vec<u8>, NoMemory>
    ensures { IfOk result (λ text. AfterEach (shown state.now) (λ P T. text.items ≡ using_words (usages T))) }
{
    let numbers = usages(alloc, state)?;
    let mut text = Vec::new(alloc);
    put(&mut text, b"using")?;
    put_numbers(&mut text, numbers.slice())?;
    Ok(text)
}

/// Adds numbers, each behind a space.
fn put_numbers(out: &mut Vec<u8>, numbers: &[u32]) -> Result<(), NoMemory>
    ensures { OnOk result (out.new.items ≡ out.old.items ++ flat_map (λ n. 32 ∷ decimal n) numbers.now) }
{
    for n in numbers {
        put_behind_space(out, u64::from(*n))?;
    }
    Ok(())
}

/// The numbers of the sessions of a subject or an object that are accessing.
pub(crate) fn using_of_text(
    alloc: Global,
    state: &State,
    side: Side,
    name: &Name,
) -> Result<Vec<u8>, NoMemory>
    ensures { IfOk result (λ text. AfterEach (shown state.now) (λ P T. text.items ≡ using_of_words side name.now (session T) (usages T))) }
{
    states_hold_what_they_follow();
    let numbers = usages(alloc, state)?;
    let mut text = Vec::new(alloc);
    put(&mut text, b"using")?;
    put_numbers_of(&mut text, state, side, name, numbers.slice())?;
    Ok(text)
}

/// Adds those of the numbers whose sessions are of a subject or an object.
fn put_numbers_of(
    out: &mut Vec<u8>,
    state: &State,
    side: Side,
    name: &Name,
    numbers: &[u32],
) -> Result<(), NoMemory>
    ensures { OnOk result (out.new.items
        ≡ out.old.items ++ flat_map (number_of side name.now (session_in (shown state.now).tables)) numbers.now) }
{
    for n in numbers {
        put_number_of(out, state, side, name, *n)?;
    }
    Ok(())
}

/// Adds a number, if its session is of a subject or an object.
fn put_number_of(
    out: &mut Vec<u8>,
    state: &State,
    side: Side,
    name: &Name,
    n: u32,
) -> Result<(), NoMemory>
    ensures { OnOk result (out.new.items ≡ out.old.items ++ number_of side name.now (session_in (shown state.now).tables) n) }
{
    if !is_of(state.session(n), side, name) {
        return Ok(());
    }
    put_behind_space(out, u64::from(n))
}

fn is_of(row: Option<SessionRow>, side: Side, name: &Name) -> bool
    ensures { result ≡ is_of side name.now row }
{
    let Some(row) = row else {
        return false;
    };
    match side {
        Side::Subject => row.subject == *name,
        Side::Object => row.object == *name,
    }
}

/// A text as a JSON string.
pub(crate) fn quoted_text(alloc: Global, text: &[u8]) -> Result<Vec<u8>, NoMemory>
    ensures { IfOk result (λ string. string.items ≡ quoted text.now) }
{
    let mut string = Vec::new(alloc);
    string.push(b'"')?;
    put_escaped(&mut string, text)?;
    string.push(b'"')?;
    Ok(string)
}

/// Adds a text as it stands in a JSON string.
fn put_escaped(out: &mut Vec<u8>, text: &[u8]) -> Result<(), NoMemory>
    ensures { OnOk result (out.new.items ≡ out.old.items ++ escape text.now) }
{
    for byte in text {
        put_escaped_byte(out, *byte)?;
    }
    Ok(())
}

/// Adds a byte as it stands in a JSON string.
#[tactic(auto, unfolding(json::specs::Print::escape_byte))]
fn put_escaped_byte(out: &mut Vec<u8>, byte: u8) -> Result<(), NoMemory>
    ensures { OnOk result (out.new.items ≡ out.old.items ++ escape_byte byte) }
{
    let letter = escape_letter(byte);
    if letter > 0 {
        put(out, &[b'\\', letter])
    } else if byte < 32 {
        put(
            out,
            &[b'\\', b'u', b'0', b'0', digit(byte / 16), digit(byte % 16)],
        )
    } else {
        put(out, &[byte])
    }
}

/// The letter of a byte's short escape; 0 where it has none.
fn escape_letter(byte: u8) -> u8
    ensures { result ≡ escape_letter byte }
{
    if byte == b'"' || byte == b'\\' {
        byte
    } else if byte == 8 {
        b'b'
    } else if byte == 12 {
        b'f'
    } else if byte == b'\n' {
        b'n'
    } else if byte == b'\r' {
        b'r'
    } else if byte == b'\t' {
        b't'
    } else {
        0
    }
}

/// The hexadecimal digit of a number below 16.
fn digit(n: u8) -> u8
    requires { n < 16 }
    ensures { result ≡ digit_char n }
{
    if n < 10 { b'0' + n } else { b'a' + (n - 10) }
}
