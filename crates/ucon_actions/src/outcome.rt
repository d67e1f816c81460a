//! What comes of a command's own actions.

ghost use Rattle.std.specs.Prelude.{◌≡◌, true, false, IfErr, OnOk};
ghost use Rattle.ucon_actions.specs.declared.outcome.ActionFault.TheVariants as faults;

use ucon_base::{NoMemory, Value};
use ucon_model::{Head, Refusal, SessionState};

/// The command reads, or it made actions.
#[derive(Drop)]
pub enum Outcome {
    Value(Value),
    Status(u32, SessionState),
    Made(Head),
}

/// Why a command neither reads nor makes actions.
#[derive(Clone, Copy, Debug)]
pub enum ActionFault {
    Refused(Refusal),
    NoMemory(NoMemory),
}

impl From<NoMemory> for ActionFault {
    ghost from_gives = { λ e fault. fault ≡ faults.NoMemory e };

    fn from(e: NoMemory) -> ActionFault {
        ActionFault::NoMemory(e)
    }
}

impl From<Refusal> for ActionFault {
    ghost from_gives = { λ r fault. fault ≡ faults.Refused r };

    fn from(r: Refusal) -> ActionFault {
        ActionFault::Refused(r)
    }
}

/// The refusal if a test doesn't hold.
pub fn require(holds: bool, refusal: Refusal) -> Result<(), Refusal>
    ensures ok { OnOk result (holds ≡ true) }
    ensures err { IfErr result (λ r. r ≡ refusal) }
    ensures fails { IfErr result (λ r. holds ≡ false) }
{
    if holds { Ok(()) } else { Err(refusal) }
}
