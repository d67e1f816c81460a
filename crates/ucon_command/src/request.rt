//! Requests: whose a line is, and what it asks.

ghost use Rattle.std.specs.Prelude.{◌≡◌, IsFalse, IsOk, MatchOption, MatchResult};
ghost use Rattle.ucon_model.specs.declared.command.Caller.{Caller as Caller'};
ghost use Rattle.ucon_model.specs.CommandLine.{line_read};
ghost use Rattle.ucon_model.specs.Plain.{Bytes};
ghost use Rattle.ucon_syntax.specs.Policies.{accepted};
ghost use Rattle.ucon_command.specs.Requests.{IsAskedBy, IsOfClient, IsRefusedTo};

use crate::command_line::CommandLine;
use crate::line_fault::LineFault;
use crate::payload::{caller_in, cut_at};
use std::alloc::Global;
use ucon_model::{Caller, texts_lack_bytes};

/// A line that is a request: the number of a client, 0 to 63, a space, and the text of a command, which isn't built yet.
#[derive(Clone, Copy)]
pub struct Request<'a> {
    pub caller: Caller,
    pub command: CommandLine<'a>,
}

/// Why a line is no request.
#[derive(Clone, Copy)]
pub enum RequestFault {
    /// It doesn't begin with a client's number, 0 to 63 without leading zeros, and a space.
    BadClient,
    /// It is this client's, and what stands behind the space is no command, or there was no memory to judge it.
    BadCommand(Caller, LineFault),
}

/// The request that a line is, given without its newline, or why it is none.
pub fn read_request<'a>(alloc: Global, line: &'a [u8]) -> Result<Request<'a>, RequestFault>
    // What is told is so: the line is that client's, and its command is one.
    ensures told { MatchResult result
        (λ r. IsAskedBy line.now r.caller r.command.text.now × IsOk (line_read accepted r.command.text.now))
        (IsOfClient line.now) }
    // A line of a client is that client's request, or its text is refused.
    ensures asked { (caller : Caller') (text : Bytes) → IsAskedBy line.now caller text
        → MatchResult result (λ r. (r.caller ≡ caller) × (r.command.text.now ≡ text)) (IsRefusedTo caller text) }
{
    texts_lack_bytes();
    match asker(line) {
        Some((caller, text)) => match CommandLine::judge(alloc, text) {
            Ok(command) => Ok(Request { caller, command }),
            Err(fault) => Err(RequestFault::BadCommand(caller, fault)),
        },
        None => Err(RequestFault::BadClient),
    }
}

/// The client whose line it is, and what stands behind the space.
fn asker(line: &[u8]) -> Option<(Caller, &[u8])>
    ensures { MatchOption result ((caller : Caller') (text : Bytes) → IsAskedBy line.now caller text → ⊥) (λ p. IsAskedBy line.now p.0 p.1.now) }
{
    texts_lack_bytes();
    match cut_at(b' ', line) {
        Some((client, text)) => match caller_in(client) {
            Some(caller) => Some((caller, text)),
            None => None,
        },
        None => None,
    }
}
