//! The output of a run: one line for each answer.

ghost use Rattle.std.specs.Prelude.{◌≡◌, ◌<◌, ◌++◌, ◌∷◌, [], Some, None, OnOk};
ghost use Rattle.std.specs.Fmt.{decimal};
ghost use Rattle.ucon_model.specs.LegalRun.{placed};
ghost use Rattle.ucon_model.specs.Output.{Lacks, answer_spelling};
ghost use Rattle.ucon_model.specs.ReplyText.{reply_read};
ghost use Rattle.ucon_model.specs.Spelling.{reply_spelling};
ghost use Rattle.ucon_model.specs.Views.{reply_of};
ghost use Rattle.ucon_trial.specs.Hearing.{HearsMore, replied};
ghost use Rattle.ucon_trial.specs.OneAnswer.{entry_of};
ghost use Rattle.ucon_trial.specs.Transcript.{IsTranscript};

use crate::hearer::Hearer;
use std::alloc::Global;
use ucon_base::{NoMemory, put_number};
use ucon_model::{Caller, Reply};
use ucon_reply::put_reply as put_reply_text;
use ucon_script::LineText;

/// The lines of the answers so far.
#[derive(Drop)]
pub struct Transcript {
    pub text: Vec<u8>,
}

impl Transcript {
    /// Begins with no lines, the transcript of no answers.
    pub fn new(alloc: Global) -> Transcript
        ensures { IsTranscript result.text.items [] }
    {
        Transcript {
            text: Vec::new(alloc),
        }
    }
}

impl Hearer for Transcript {
    ghost hears = { λ transcript told. IsTranscript transcript.text.items told };

    fn reply(
        &mut self,
        alloc: Global,
        line: &LineText<'_>,
        place: u64,
        reply: &Reply,
    ) -> Result<(), NoMemory> {
        put_reply(alloc, &mut self.text, line.caller, place, reply)?;
        Ok(())
    }

    fn no_memory(&mut self, line: &LineText<'_>) -> Result<(), NoMemory> {
        put_unplaced(&mut self.text, line.caller, b"- no memory")?;
        Ok(())
    }
}

/// Adds the line of a reply with its place.
pub fn put_reply(
    alloc: Global,
    out: &mut Vec<u8>,
    caller: Caller,
    place: u64,
    reply: &Reply,
) -> Result<(), NoMemory>
    ensures text { OnOk result (out.new.items ≡ out.old.items
        ++ (decimal caller.0 ++ 32 ∷ answer_spelling (placed place (reply_of reply.now)) ++ 10 ∷ [])) }
    ensures one_line { OnOk result (Lacks 10 (reply_spelling (reply_of reply.now))) }
    ensures read_back { OnOk result (reply_read (reply_spelling (reply_of reply.now)) ≡ Some (reply_of reply.now)) }
    ensures client { OnOk result (caller.0 < 256) }
{
    put_client(out, caller)?;
    put_number(out, place)?;
    out.push(b' ')?;
    put_reply_text(alloc, out, reply)?;
    out.push(b'\n')?;
    Ok(())
}

/// Adds the line of an answer without a place.
pub fn put_unplaced(out: &mut Vec<u8>, caller: Caller, answer: &[u8]) -> Result<(), NoMemory>
    ensures text { OnOk result (out.new.items ≡ out.old.items ++ (decimal caller.0 ++ 32 ∷ answer.now ++ 10 ∷ [])) }
    ensures client { OnOk result (caller.0 < 256) }
{
    put_client(out, caller)?;
    out.extend_from_slice(answer)?;
    out.push(b'\n')?;
    Ok(())
}

/// Adds the client's number and a space.
#[inline(always)]
fn put_client(out: &mut Vec<u8>, caller: Caller) -> Result<(), NoMemory>
    ensures text { OnOk result (out.new.items ≡ out.old.items ++ (decimal caller.0 ++ 32 ∷ [])) }
    ensures client { OnOk result (caller.0 < 256) }
{
    put_caller(out, caller)?;
    out.push(b' ')?;
    Ok(())
}

/// Adds the client's number, which mostly has one digit.
#[inline(always)]
#[tactic(auto, using(std::proofs::lemmas::Fmt::decimal_digit))]
fn put_caller(out: &mut Vec<u8>, caller: Caller) -> Result<(), NoMemory>
    ensures text { OnOk result (out.new.items ≡ out.old.items ++ decimal caller.0) }
    ensures client { OnOk result (caller.0 < 256) }
{
    if caller.0 < 10 {
        out.push(b'0' + caller.0)?;
        return Ok(());
    }
    put_number(out, caller.0 as u64)?;
    Ok(())
}
