//! What is printed of a try.

ghost use Rattle.std.specs.Prelude.{◌≡◌, IfOk};
ghost use Rattle.ucon_state.specs.Following.{AfterEach, IsFollowing};
ghost use Rattle.ucon_state.specs.Shown.{shown};
ghost use Rattle.ucon_explain.specs.Text.{refusal_line, try_spelling};

use crate::text::explanation_text;
use crate::trying::{ExplainFault, explain};
use std::alloc::Global;
use ucon_base::{Name, NoMemory};
use ucon_model::{Refusal, Reply};
use ucon_reply::put_reply;
use ucon_state::State;

/// What a try of client 0 would meet now, as it is printed: how it would be refused, in one line, or else its explanation. The try isn't made.
pub fn try_text(
    alloc: Global,
    state: &State,
    subject: &Name,
    right: &Name,
    object: &Name,
) -> Result<Vec<u8>, NoMemory>
    requires { IsFollowing (shown state.now) }
    ensures { IfOk result (λ text. AfterEach (shown state.now) (λ P T. text.items ≡ try_spelling P T subject.now right.now object.now)) }
{
    match explain(alloc, state, subject, right, object) {
        Ok(e) => explanation_text(alloc, &e),
        Err(ExplainFault::Refused(refusal)) => refusal_line(alloc, refusal),
        Err(ExplainFault::NoMemory(refused)) => Err(refused),
    }
}

/// A refusal as one line.
fn refusal_line(alloc: Global, refusal: Refusal) -> Result<Vec<u8>, NoMemory>
    ensures { IfOk result (λ line. line.items ≡ refusal_line refusal) }
{
    let mut line = Vec::new(alloc);
    put_reply(alloc, &mut line, &Reply::Refused(refusal))?;
    line.push(b'\n')?;
    Ok(line)
}
