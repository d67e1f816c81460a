//! A line that spells a command, judged once.

ghost use Rattle.std.specs.Prelude.{◌≡◌, ◌<◌, length, Ok, Err, IfErr, IfOk, IsFalse, IsOk, IsTrue, MatchResult, OnErr, OnOk};
ghost use Rattle.std.specs.Result.{result_ok};
ghost use Rattle.ucon_model.specs.CommandLine.{line_read, most_bytes};
ghost use Rattle.ucon_syntax.specs.Policies.{accepted};
ghost use Rattle.ucon_command.specs.Cuts.{command_cut, commands_are_a_set, words_are_one, HasWords};
ghost use Rattle.ucon_command.specs.Faults.{IsRefusal, IsSure, amends};

use crate::cuts::Cuts;
use crate::cutting::command_into;
use crate::judging::cuts_of;
use crate::line_fault::LineFault;
use std::alloc::Global;
use ucon_base::NoMemory;
use ucon_model::Command;

/// A line that is known to spell a command, and where the command's words stand in it. It takes 24 bytes of memory, and not the room of the longest
/// command.
#[derive(Clone, Copy)]
pub struct CommandLine<'a> {
    pub text: &'a [u8],
    cuts: Cuts,
    ghost spelled: { IsOk (line_read accepted text.now) },
    ghost cut: { result_ok (line_read accepted text.now) ≡ command_cut cuts text.now } by { commands_are_a_set _ _ },
    ghost words: { HasWords cuts text.now } by { words_are_one _ _ },
}

impl<'a> CommandLine<'a> {
    /// The line, if it spells a command, or the first refusal. Only a value that is a set, and an amendment's
    /// policy, take memory while it is judged; so but for an amendment each refusal is told whatever memory there is.
    #[inline(always)]
    pub fn judge(alloc: Global, text: &'a [u8]) -> Result<CommandLine<'a>, LineFault>
        ensures judged { MatchResult result
            (λ l. (l.text.now ≡ text.now) × IsOk (line_read accepted text.now))
            (IsRefusal (line_read accepted text.now)) }
        ensures sure { IsFalse (amends text.now) → IfErr result (IsSure (line_read accepted text.now)) }
        ensures long { most_bytes text.now < length text.now → result ≡ Err (LineFault.TooLong (length text.now)) }
    {
        let cuts = cuts_of(alloc, text)?;
        Ok(CommandLine { text, cuts })
    }

    /// The command. It is built where it is used, and not copied there.
    #[inline(always)]
    pub fn command(&self, alloc: Global) -> Result<Command, NoMemory>
        ensures { IfOk result (λ c. line_read accepted self.now.text.now ≡ Ok c) }
    {
        let mut command = Command::Look(0);
        self.command_into(alloc, &mut command)?;
        Ok(command)
    }

    /// Writes the command over another one, which costs less than a new one. Want of memory leaves the other.
    #[inline(always)]
    pub fn command_into(&self, alloc: Global, out: &mut Command) -> Result<(), NoMemory>
        ensures ok { OnOk result (line_read accepted self.now.text.now ≡ Ok out.new) }
        ensures err { OnErr result (out.new ≡ out.old) }
    {
        command_into(alloc, self.text, self.cuts, out)
    }
}
