//! What is printed of an outcome, written without memory.

ghost use Rattle.std.specs.Prelude.{◌≡◌, ◌++◌, codes};
ghost use Rattle.std.specs.Fmt.{decimal};
ghost use Rattle.ucon_outcome.specs.FaultWords.{told_at, syntax_words, typing_words, policy_words, line_words, script_words, cause_words, fault_line};
ghost use Rattle.ucon_outcome.specs.FaultWords.{fault_words, point_line};
ghost use Rattle.ucon_outcome.specs.Out.{GoesOut};

use crate::outcome::{Outcome, PolicyFault};
use itoa::Buffer;
use ucon_base::Name;
use ucon_check::CheckFault;
use ucon_command::LineFault;
use ucon_flow::{Sink, SinkFault, write_all};
use ucon_script::DocFault;
use ucon_syntax::SyntaxFault;

/// Writes what is printed of an outcome: a line, and nothing if all is done.
pub(crate) fn put_fault<W: Sink>(out: &mut W, outcome: &Outcome) -> Result<(), SinkFault>
    ensures { GoesOut (W.seen out.old).contents (W.seen out.new).contents
        (W.seen out.old).faults (W.seen out.new).faults result (fault_words outcome.now) }
{
    if let Outcome::Done = outcome {
        return Ok(());
    }
    put_line(out, outcome)
}

/// Writes the line of a cause.
fn put_line<W: Sink>(out: &mut W, outcome: &Outcome) -> Result<(), SinkFault>
    ensures { GoesOut (W.seen out.old).contents (W.seen out.new).contents (W.seen out.old).faults (W.seen out.new).faults result
        (fault_line (cause_words outcome.now)) }
{
    put(out, b"ucon: ")?;
    put_cause(out, outcome)?;
    put(out, b"\n")
}

fn put_cause<W: Sink>(out: &mut W, outcome: &Outcome) -> Result<(), SinkFault>
    ensures { GoesOut (W.seen out.old).contents (W.seen out.new).contents
        (W.seen out.old).faults (W.seen out.new).faults result (cause_words outcome.now) }
{
    match outcome {
        Outcome::Policy(fault) => put_policy(out, fault),
        Outcome::Script(fault) => put_script(out, fault),
        Outcome::Done => Ok(()),
        Outcome::Usage => put(out, b"usage"),
        Outcome::SourceFault => put(out, b"source fault"),
        Outcome::SinkFault => put(out, b"sink fault"),
        Outcome::DiskFault => put(out, b"disk fault"),
        Outcome::Damaged { number, place } => put_damaged(out, *number, *place),
        Outcome::NotJournal => put(out, b"not a journal"),
        Outcome::OtherPolicy(place) => put_at(out, b"other policy at ", *place),
        Outcome::NoMemory(_) => put(out, b"no memory"),
        Outcome::TooLong => put(out, b"input too long"),
        Outcome::FullPoint(size) => put_at(out, b"point too large ", *size),
        Outcome::OldJournal => put(out, b"old journal"),
    }
}

/// Writes the line that tells how many entries stand before a checkpoint.
pub fn put_point_line<W: Sink>(out: &mut W, entries: u64) -> Result<(), SinkFault>
    ensures { GoesOut (W.seen out.old).contents (W.seen out.new).contents
        (W.seen out.old).faults (W.seen out.new).faults result (point_line entries) }
{
    put_at(out, b"point ", entries)?;
    put(out, b"\n")
}

fn put_damaged<W: Sink>(out: &mut W, number: u64, place: u64) -> Result<(), SinkFault>
    ensures { GoesOut (W.seen out.old).contents (W.seen out.new).contents (W.seen out.old).faults (W.seen out.new).faults result
        (cause_words (Outcome.Damaged number place)) }
{
    put_at(out, b"damaged record ", number)?;
    put_at(out, b" at ", place)
}

fn put_policy<W: Sink>(out: &mut W, fault: &PolicyFault) -> Result<(), SinkFault>
    ensures { GoesOut (W.seen out.old).contents (W.seen out.new).contents (W.seen out.old).faults (W.seen out.new).faults result
        (cause_words (Outcome.Policy fault.now)) }
{
    put(out, b"policy: ")?;
    put_policy_fault(out, fault)
}

fn put_policy_fault<W: Sink>(out: &mut W, fault: &PolicyFault) -> Result<(), SinkFault>
    ensures { GoesOut (W.seen out.old).contents (W.seen out.new).contents
        (W.seen out.old).faults (W.seen out.new).faults result (policy_words fault.now) }
{
    match fault {
        PolicyFault::Syntax(fault) => put_syntax(out, fault),
        PolicyFault::Typing(fault) => put_typing(out, fault),
    }
}

fn put_syntax<W: Sink>(out: &mut W, fault: &SyntaxFault) -> Result<(), SinkFault>
    ensures { GoesOut (W.seen out.old).contents (W.seen out.new).contents
        (W.seen out.old).faults (W.seen out.new).faults result (syntax_words fault.now) }
{
    match fault {
        SyntaxFault::UnknownByte(place) => put_at(out, b"unknown byte at ", *place as u64),
        SyntaxFault::Unexpected(place) => put_at(out, b"unexpected at ", *place as u64),
        SyntaxFault::TooLong(place) => put_at(out, b"too long at ", *place as u64),
        SyntaxFault::TooDeep(place) => put_at(out, b"too deep at ", *place as u64),
        SyntaxFault::TooMany(place) => put_at(out, b"too many at ", *place as u64),
        SyntaxFault::NoMemory(_) => put(out, b"no memory"),
    }
}

fn put_typing<W: Sink>(out: &mut W, fault: &CheckFault) -> Result<(), SinkFault>
    ensures { GoesOut (W.seen out.old).contents (W.seen out.new).contents
        (W.seen out.old).faults (W.seen out.new).faults result (typing_words fault.now) }
{
    match fault {
        CheckFault::Twice(name, item) => put_item(out, b"twice ", name, *item as u64),
        CheckFault::NoName(name, item) => put_item(out, b"no name ", name, *item as u64),
        CheckFault::WrongReader(item) => put_at(out, b"wrong reader at item ", *item as u64),
        CheckFault::WrongKind(item) => put_at(out, b"wrong kind at item ", *item as u64),
        CheckFault::NotCore(right) => put_name(out, b"not core ", right),
        CheckFault::TooManyCells(right, count) => {
            put_counted(out, b"too many cells ", right, *count as u64)
        }
    }
}

fn put_script<W: Sink>(out: &mut W, fault: &DocFault) -> Result<(), SinkFault>
    ensures { GoesOut (W.seen out.old).contents (W.seen out.new).contents (W.seen out.old).faults (W.seen out.new).faults result
        (cause_words (Outcome.Script fault.now)) }
{
    put(out, b"script: ")?;
    put_script_fault(out, fault)
}

fn put_script_fault<W: Sink>(out: &mut W, fault: &DocFault) -> Result<(), SinkFault>
    ensures { GoesOut (W.seen out.old).contents (W.seen out.new).contents
        (W.seen out.old).faults (W.seen out.new).faults result (script_words fault.now) }
{
    match fault {
        DocFault::BadHeading(line) => put_at(out, b"bad heading at line ", *line as u64),
        DocFault::TooManyClients(line) => {
            put_at(out, b"too many clients at line ", *line as u64)
        }
        DocFault::TooManyLines(line) => put_at(out, b"too many lines at line ", *line as u64),
        DocFault::BadLine(line, fault) => put_at(out, line_words(fault), *line as u64),
        DocFault::NoMemory(_) => put(out, b"no memory"),
    }
}

fn line_words(fault: &LineFault) -> &'static [u8]
    ensures { result.now ≡ line_words fault.now }
{
    match fault {
        LineFault::TooLong(_) => b"too long at line ",
        LineFault::NoWord => b"no word at line ",
        LineFault::UnknownWord => b"unknown word at line ",
        LineFault::WrongCount(_) => b"wrong count at line ",
        LineFault::BadWord(_) => b"bad word at line ",
        LineFault::NoMemory(_) => b"no memory at line ",
    }
}

fn put<W: Sink>(out: &mut W, words: &[u8]) -> Result<(), SinkFault>
    ensures { GoesOut (W.seen out.old).contents (W.seen out.new).contents (W.seen out.old).faults (W.seen out.new).faults result words.now }
{
    write_all(out, words)
}

fn put_number<W: Sink>(out: &mut W, n: u64) -> Result<(), SinkFault>
    ensures { GoesOut (W.seen out.old).contents (W.seen out.new).contents (W.seen out.old).faults (W.seen out.new).faults result (decimal n) }
{
    let mut digits = Buffer::new();
    put(out, digits.format(n).as_bytes())
}

/// Writes words and a name.
fn put_name<W: Sink>(out: &mut W, words: &[u8], name: &Name) -> Result<(), SinkFault>
    ensures { GoesOut (W.seen out.old).contents (W.seen out.new).contents
        (W.seen out.old).faults (W.seen out.new).faults result (words.now ++ name.now) }
{
    put(out, words)?;
    put(out, name.bytes())
}

/// Writes words and the number of a place, an item or a line, or of bytes.
fn put_at<W: Sink>(out: &mut W, words: &[u8], n: u64) -> Result<(), SinkFault>
    ensures { GoesOut (W.seen out.old).contents (W.seen out.new).contents
        (W.seen out.old).faults (W.seen out.new).faults result (told_at words.now n) }
{
    put(out, words)?;
    put_number(out, n)
}

/// Writes words, a name, and the number of the item that it stands in.
fn put_item<W: Sink>(out: &mut W, words: &[u8], name: &Name, item: u64) -> Result<(), SinkFault>
    ensures { GoesOut (W.seen out.old).contents (W.seen out.new).contents (W.seen out.old).faults (W.seen out.new).faults result
        (words.now ++ (name.now ++ told_at (codes " at item ") item)) }
{
    put(out, words)?;
    put(out, name.bytes())?;
    put_at(out, b" at item ", item)
}

/// Writes words, a name, a space and a count.
fn put_counted<W: Sink>(out: &mut W, words: &[u8], name: &Name, count: u64) -> Result<(), SinkFault>
    ensures { GoesOut (W.seen out.old).contents (W.seen out.new).contents (W.seen out.old).faults (W.seen out.new).faults result
        (words.now ++ (name.now ++ (codes " " ++ decimal count))) }
{
    put(out, words)?;
    put(out, name.bytes())?;
    put_at(out, b" ", count)
}
