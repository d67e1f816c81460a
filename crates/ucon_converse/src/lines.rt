//! The lines that go out.

ghost use Rattle.std.specs.Prelude.{◌≡◌, ◌++◌, Err, Ok, OnOk};
ghost use Rattle.ucon_model.specs.Output.{Lacks, answer_spelling};
ghost use Rattle.ucon_converse.specs.Replies.{client_line, point_line, ready_line, refusal_line};
ghost use Rattle.ucon_converse.specs.Said.{answer_said, fault_line, unheard_so};
ghost use Rattle.ucon_flow.specs.Lines.{IsLine};

use std::alloc::Global;
use ucon_base::{NoMemory, put, put_number};
use ucon_command::{LineFault, RequestFault};
use ucon_model::{Caller, texts_lack_bytes};
use ucon_store::{Placed, PointFault, StepFault};
use ucon_trial::{put_reply, put_unplaced};

/// Adds the line of what a step said.
pub(crate) fn put_answer(
    alloc: Global,
    out: &mut Vec<u8>,
    caller: Caller,
    said: &Result<Placed, StepFault>,
) -> Result<(), NoMemory>
    ensures text { OnOk result (out.new.items ≡ out.old.items ++ client_line caller (answer_said said.now)) }
    ensures line { OnOk result (IsLine (client_line caller (answer_said said.now))) }
{
    texts_lack_bytes();
    match said {
        Ok(placed) => put_reply(alloc, out, caller, placed.place, &placed.reply),
        Err(fault) => put_unplaced(out, caller, unplaced_words(*fault)),
    }
}

/// Adds the line of a reply with its place.
pub(crate) fn put_placed(
    alloc: Global,
    out: &mut Vec<u8>,
    caller: Caller,
    placed: &Placed,
) -> Result<(), NoMemory>
    ensures text { OnOk result (out.new.items ≡ out.old.items ++ client_line caller (answer_said (Ok placed.now))) }
    ensures line { OnOk result (IsLine (client_line caller (answer_said (Ok placed.now)))) }
{
    texts_lack_bytes();
    put_reply(alloc, out, caller, placed.place, &placed.reply)
}

/// What stands in a line behind the client where no step was taken.
fn unplaced_words(fault: StepFault) -> &'static [u8]
    ensures words { result.now ≡ answer_spelling (answer_said (Err fault)) }
    ensures line { Lacks 10 result.now }
{
    texts_lack_bytes();
    match fault {
        StepFault::NoMemory(_) => b"- no memory",
        StepFault::DiskFault => b"- disk fault",
        StepFault::Stopped => b"- stopped",
    }
}

/// Adds the line to one that asks nothing, or for which there was no memory.
pub(crate) fn put_fault(
    out: &mut Vec<u8>,
    fault: RequestFault,
    stopped: bool,
) -> Result<(), NoMemory>
    ensures { OnOk result (out.new.items ≡ out.old.items ++ fault_line fault stopped) }
{
    match fault {
        RequestFault::BadClient => put_refusal(out, b"bad client"),
        RequestFault::BadCommand(caller, LineFault::NoMemory(_)) => put_unheard(
            out, caller, stopped,
        ),
        RequestFault::BadCommand(_, LineFault::TooLong(_)) => put_refusal(out, b"too long"),
        RequestFault::BadCommand(_, LineFault::NoWord) => put_refusal(out, b"no word"),
        RequestFault::BadCommand(_, LineFault::UnknownWord) => put_refusal(out, b"unknown word"),
        RequestFault::BadCommand(_, LineFault::WrongCount(_)) => put_refusal(out, b"wrong count"),
        RequestFault::BadCommand(_, LineFault::BadWord(_)) => put_refusal(out, b"bad word"),
    }
}

/// Adds the line to a client for whose line there is no memory.
fn put_unheard(out: &mut Vec<u8>, caller: Caller, stopped: bool) -> Result<(), NoMemory>
    ensures { OnOk result (out.new.items ≡ out.old.items ++ client_line caller (unheard_so stopped)) }
{
    if stopped {
        put_unplaced(out, caller, b"- stopped")
    } else {
        put_unplaced(out, caller, b"- no memory")
    }
}

/// Adds the line to one that asks nothing, with these words.
pub(crate) fn put_refusal(out: &mut Vec<u8>, words: &[u8]) -> Result<(), NoMemory>
    ensures { OnOk result (out.new.items ≡ out.old.items ++ refusal_line words.now) }
{
    out.extend_from_slice(b"- - ")?;
    out.extend_from_slice(words)?;
    out.push(b'\n')?;
    Ok(())
}

/// Adds the line of what became of a checkpoint that was asked for.
pub(crate) fn put_pointed(out: &mut Vec<u8>, said: &Result<u64, PointFault>) -> Result<(), NoMemory>
    ensures { OnOk result (out.new.items ≡ out.old.items ++ point_line said.now) }
{
    match said {
        Ok(steps) => put_point(out, *steps),
        Err(PointFault::DiskFault) => put_refusal(out, b"disk fault"),
        Err(PointFault::Stopped) => put_refusal(out, b"stopped"),
        Err(PointFault::OldJournal) => put_refusal(out, b"old journal"),
        Err(PointFault::TooLarge(_)) => put_refusal(out, b"point too large"),
        Err(PointFault::NoMemory(_)) => put_refusal(out, b"no memory"),
    }
}

/// Adds the line of a checkpoint that was made behind so many steps.
fn put_point(out: &mut Vec<u8>, steps: u64) -> Result<(), NoMemory>
    ensures { OnOk result (out.new.items ≡ out.old.items ++ point_line (Ok steps)) }
{
    put(out, b"- ")?;
    put_number(out, steps)?;
    put(out, b" point ")?;
    put_number(out, steps)?;
    put(out, b"\n")
}

/// Adds the first line, with the number of the steps that are there.
pub(crate) fn put_ready(out: &mut Vec<u8>, steps: u64) -> Result<(), NoMemory>
    ensures { OnOk result (out.new.items ≡ out.old.items ++ ready_line steps) }
{
    out.extend_from_slice(b"- ")?;
    put_number(out, steps)?;
    out.extend_from_slice(b" ready\n")?;
    Ok(())
}
