//! What the try of a right would meet now. It isn't made, and the state stays as it is.

ghost use Rattle.std.specs.Prelude.{◌≡◌, IfErr, IfOk, None};
ghost use Rattle.ucon_state.specs.Following.{AfterEach, IsFollowing};
ghost use Rattle.ucon_state.specs.Shown.{shown};
ghost use Rattle.ucon_accept.specs.Explanation.{explanation_of};
ghost use Rattle.ucon_accept.specs.Trying.{IsRight, explained_with, explanation, refusal_shown};
ghost use Rattle.ucon_explain.specs.declared.trying.ExplainFault.TheVariants as faults;
ghost use Rattle.ucon_explain.specs.Refusing.{IsRefused};

use crate::explainer::explained;
use std::alloc::Global;
use ucon_accept::{Explanation, OneMore, refusal, tried, tries_are_explained_as_shown};
use ucon_base::{Name, NoMemory};
use ucon_model::Refusal;
use ucon_state::State;

/// Why there is no explanation.
#[derive(Clone, Copy, Debug)]
pub enum ExplainFault {
    /// The try would be refused so: no right, no subject, no object, full sessions or full accessing.
    Refused(Refusal),
    NoMemory(NoMemory),
}

impl From<NoMemory> for ExplainFault {
    ghost from_gives = { λ e fault. fault ≡ faults.NoMemory e };

    fn from(e: NoMemory) -> ExplainFault {
        ExplainFault::NoMemory(e)
    }
}

/// The explanation of a try that isn't refused.
fn explain_try(
    alloc: Global,
    state: &State,
    subject: &Name,
    right: &Name,
    object: &Name,
) -> Result<Explanation, NoMemory>
    requires following { IsFollowing (shown state.now) }
    requires allowed { refusal_shown (shown state.now) subject.now right.now object.now ≡ None }
    ensures { IfOk result (λ e. explanation_of e ≡ explained_with (shown state.now) subject.now right.now object.now) }
{
    tries_are_explained_as_shown();
    let view = OneMore {
        state,
        row: tried(subject, right, object),
    };
    explained(alloc, &view, view.number(), &view.row)
}

/// What a try of client 0 would meet now, and on which facts it would be decided.
pub fn explain(
    alloc: Global,
    state: &State,
    subject: &Name,
    right: &Name,
    object: &Name,
) -> Result<Explanation, ExplainFault>
    requires { IsFollowing (shown state.now) }
    ensures explained { IfOk result (λ e. AfterEach (shown state.now) (λ P T. explanation_of e ≡ explanation P T subject.now right.now object.now)) }
    ensures right { IfOk result (λ e. IsRight (shown state.now) (explanation_of e)) }
    ensures refused { IfErr result (λ fault. IsRefused fault (shown state.now) subject.now right.now object.now) }
{
    tries_are_explained_as_shown();
    if let Some(refusal) = refusal(state, subject, right, object) {
        return Err(ExplainFault::Refused(refusal));
    }
    let e = explain_try(alloc, state, subject, right, object)?;
    Ok(e)
}
