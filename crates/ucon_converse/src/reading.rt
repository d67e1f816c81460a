//! What a conversation can be asked without a client's number.

ghost use Rattle.std.specs.Prelude.{◌≡◌, Some, IfSome};
ghost use Rattle.ucon_converse.specs.declared.reading.Reading.{Reading as Reading'};
ghost use Rattle.ucon_converse.specs.ReadingLines.{behind_word, names_told, of_one, one_word, reading_read, try_told};
ghost use Rattle.ucon_converse.specs.Readings.{IsReadingOf};

use crate::laws::readings_are_read_back;
use ucon_base::{Name, Side};
use ucon_point::cut_at;
use ucon_reply::{name_in, number_in, side_in};

/// What a conversation can be asked without a client's number. It makes no step.
#[derive(Clone, Copy)]
pub enum Reading {
    /// `state`: all that is there, as `report` has it.
    State,
    /// `session N`: whose a session is, and how it stands.
    Session(u32),
    /// `using`: the numbers of the sessions that are accessing.
    Using,
    /// `using s NAME` or `using o NAME`: those of a subject or an object.
    UsingOf {
        side: Side,
        name: Name,
    },
    /// `explain SUBJECT RIGHT OBJECT`: what a try of client 0 would meet.
    Explain {
        subject: Name,
        right: Name,
        object: Name,
    },
    /// `policy`: the text of the policy in force.
    Policy,
    /// `steps`: how many steps there are.
    Steps,
}

/// The reading that a line is, given without its newline. None where it is none.
pub(crate) fn read_reading(line: &[u8]) -> Option<Reading>
    ensures told { IfSome result (IsReadingOf line.now) }
    ensures asked { (reading : Reading') → IsReadingOf line.now reading → result ≡ Some reading }
{
    readings_are_read_back();
    reading_in(line)
}

fn reading_in(line: &[u8]) -> Option<Reading>
    ensures { result ≡ reading_read line.now }
{
    match cut_at(b' ', line) {
        None => one_word(line),
        Some((word, rest)) => behind_word(word, rest),
    }
}

/// The reading of one word.
fn one_word(word: &[u8]) -> Option<Reading>
    ensures { result ≡ one_word word.now }
{
    if word == b"state".as_slice() {
        Some(Reading::State)
    } else if word == b"using".as_slice() {
        Some(Reading::Using)
    } else if word == b"policy".as_slice() {
        Some(Reading::Policy)
    } else if word == b"steps".as_slice() {
        Some(Reading::Steps)
    } else {
        None
    }
}

/// The reading of a word and what stands behind it.
fn behind_word(word: &[u8], rest: &[u8]) -> Option<Reading>
    ensures { result ≡ behind_word word.now rest.now }
{
    if word == b"session".as_slice() {
        Some(Reading::Session(number_in(rest)?))
    } else if word == b"using".as_slice() {
        let (side, name) = cut_at(b' ', rest)?;
        of_one(side, name)
    } else if word == b"explain".as_slice() {
        let (subject, names) = cut_at(b' ', rest)?;
        try_told(subject, names)
    } else {
        None
    }
}

fn of_one(side: &[u8], name: &[u8]) -> Option<Reading>
    ensures { result ≡ of_one (side.now, name.now) }
{
    let side = side_in(side)?;
    let name = name_in(name)?;
    Some(Reading::UsingOf { side, name })
}

fn try_told(subject: &[u8], names: &[u8]) -> Option<Reading>
    ensures { result ≡ try_told (subject.now, names.now) }
{
    let (right, object) = cut_at(b' ', names)?;
    names_told(subject, right, object)
}

fn names_told(subject: &[u8], right: &[u8], object: &[u8]) -> Option<Reading>
    ensures { result ≡ names_told subject.now right.now object.now }
{
    let subject = name_in(subject)?;
    let right = name_in(right)?;
    let object = name_in(object)?;
    Some(Reading::Explain {
        subject,
        right,
        object,
    })
}
