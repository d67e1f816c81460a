//! A row of a checkpoint from its line.

ghost use Rattle.std.specs.Prelude.{◌≡◌, option_map, IfOk, MatchOption, None, Some};
ghost use Rattle.ucon_model.specs.CommandLine.{name_in};
ghost use Rattle.ucon_model.specs.Payload.{caller_read};
ghost use Rattle.ucon_model.specs.ReplyText.{state_read};
ghost use Rattle.ucon_point.specs.declared.row.Row.TheVariants.{Attribute, Entity, Variable};
ghost use Rattle.ucon_point.specs.RowText.{act_read, front, names_front, row_read, row_told, session_read, valued};

use crate::row::Row;
use crate::words::{caller_in, cut_at, name_in, state_in, value_in};
use std::alloc::Global;
use ucon_base::{Int, Name, NoMemory, Side, Value};
use ucon_model::{Caller, SessionRow, SessionState};

/// The row of which the line is the spelling.
#[tactic(auto, unfolding(crate::specs::RowText::row_read))]
pub fn row_in(alloc: Global, line: &[u8]) -> Result<Option<Row>, NoMemory>
    ensures { IfOk result (λ row. row ≡ row_read line.now) }
{
    match cut_at(b' ', line) {
        Some((word, rest)) => row_told(alloc, word, rest),
        None => Ok(None),
    }
}

/// The row that a first word and the rest of a line tell.
#[tactic(auto, unfolding(crate::specs::RowText::row_told))]
fn row_told(alloc: Global, word: &[u8], rest: &[u8]) -> Result<Option<Row>, NoMemory>
    ensures { IfOk result (λ row. row ≡ row_told word.now rest.now) }
{
    if word == b"env".as_slice() {
        return variable(alloc, rest);
    }
    if word == b"subject".as_slice() {
        return Ok(entity(Side::Subject, rest));
    }
    if word == b"object".as_slice() {
        return Ok(entity(Side::Object, rest));
    }
    if word == b"value".as_slice() {
        return attribute(alloc, rest);
    }
    if word == b"act".as_slice() {
        return Ok(act(rest));
    }
    if word == b"session".as_slice() {
        return Ok(session(rest));
    }
    Ok(None)
}

#[inline(never)]
fn variable(alloc: Global, bytes: &[u8]) -> Result<Option<Row>, NoMemory>
    ensures { IfOk result (λ row. row ≡ option_map (λ p. Variable p.0 p.1) (valued bytes.now)) }
{
    match valued(alloc, bytes)? {
        Some((name, value)) => Ok(Some(Row::Variable(name, value))),
        None => Ok(None),
    }
}

#[inline(never)]
fn attribute(alloc: Global, bytes: &[u8]) -> Result<Option<Row>, NoMemory>
    ensures { IfOk result (λ row. row ≡ option_map (λ p. Attribute p.0 p.1) (valued bytes.now)) }
{
    match valued(alloc, bytes)? {
        Some((name, value)) => Ok(Some(Row::Attribute(name, value))),
        None => Ok(None),
    }
}

#[inline(never)]
fn entity(side: Side, bytes: &[u8]) -> Option<Row>
    ensures { result ≡ option_map (Entity side) (name_in bytes.now) }
{
    match name_in(bytes) {
        Some(name) => Some(Row::Entity(side, name)),
        None => None,
    }
}

/// A name and a value.
#[tactic(auto, unfolding(crate::specs::RowText::valued))]
fn valued(alloc: Global, bytes: &[u8]) -> Result<Option<(Name, Value)>, NoMemory>
    ensures { IfOk result (λ p. p ≡ valued bytes.now) }
{
    let Some((name, rest)) = name_front(bytes) else {
        return Ok(None);
    };
    match value_in(alloc, rest)? {
        Some(value) => Ok(Some((name, value))),
        None => Ok(None),
    }
}

/// Three names and a moment.
#[inline(never)]
#[tactic(auto, unfolding(crate::specs::RowText::act_read))]
fn act(bytes: &[u8]) -> Option<Row>
    ensures { result ≡ act_read bytes.now }
{
    let Some((names, rest)) = names_front(bytes) else {
        return None;
    };
    let moment = Int::read(rest)?;
    Some(Row::Act {
        subject: names.0,
        action: names.1,
        object: names.2,
        moment,
    })
}

/// A client, three names, a state and a start.
#[inline(never)]
#[tactic(auto, unfolding(crate::specs::RowText::session_read))]
fn session(bytes: &[u8]) -> Option<Row>
    ensures { result ≡ session_read bytes.now }
{
    let Some((caller, rest)) = caller_front(bytes) else {
        return None;
    };
    let Some((names, rest)) = names_front(rest) else {
        return None;
    };
    let Some((state, rest)) = state_front(rest) else {
        return None;
    };
    let start = Int::read(rest)?;
    Some(Row::Session(SessionRow {
        caller,
        right: names.0,
        subject: names.1,
        object: names.2,
        state,
        start,
    }))
}

/// Three names, each with a space behind it, and what stands behind them.
#[tactic(auto, unfolding(crate::specs::RowText::names_front))]
fn names_front(bytes: &[u8]) -> Option<((Name, Name, Name), &[u8])>
    ensures { MatchOption result (names_front bytes.now ≡ None) (λ p. names_front bytes.now ≡ Some (p.0, p.1.now)) }
{
    let Some((a, rest)) = name_front(bytes) else {
        return None;
    };
    let Some((b, rest)) = name_front(rest) else {
        return None;
    };
    let Some((c, rest)) = name_front(rest) else {
        return None;
    };
    Some(((a, b, c), rest))
}

/// A name with a space behind it, and what stands behind it.
#[tactic(auto, unfolding(crate::specs::RowText::front))]
fn name_front(bytes: &[u8]) -> Option<(Name, &[u8])>
    ensures { MatchOption result (front name_in bytes.now ≡ None) (λ p. front name_in bytes.now ≡ Some (p.0, p.1.now)) }
{
    let Some((word, rest)) = cut_at(b' ', bytes) else {
        return None;
    };
    let Some(name) = name_in(word) else {
        return None;
    };
    Some((name, rest))
}

/// A client's number with a space behind it, and what stands behind it.
#[tactic(auto, unfolding(crate::specs::RowText::front))]
fn caller_front(bytes: &[u8]) -> Option<(Caller, &[u8])>
    ensures { MatchOption result (front caller_read bytes.now ≡ None) (λ p. front caller_read bytes.now ≡ Some (p.0, p.1.now)) }
{
    let Some((word, rest)) = cut_at(b' ', bytes) else {
        return None;
    };
    let Some(caller) = caller_in(word) else {
        return None;
    };
    Some((caller, rest))
}

/// A state's word with a space behind it, and what stands behind it.
#[tactic(auto, unfolding(crate::specs::RowText::front))]
fn state_front(bytes: &[u8]) -> Option<(SessionState, &[u8])>
    ensures { MatchOption result (front state_read bytes.now ≡ None) (λ p. front state_read bytes.now ≡ Some (p.0, p.1.now)) }
{
    let Some((word, rest)) = cut_at(b' ', bytes) else {
        return None;
    };
    let Some(state) = state_in(word) else {
        return None;
    };
    Some((state, rest))
}
