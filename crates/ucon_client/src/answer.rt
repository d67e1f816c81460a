//! What a line is answered.

ghost use Rattle.std.specs.Prelude.{◌≡◌};
ghost use Rattle.ucon_client.specs.Answers.{answered_by};

use ucon_store::{Placed, StepFault};

/// What a line is answered: a reply with its place, or why its step was not taken.
#[derive(Drop)]
pub enum Answer {
    Placed(Placed),
    NoMemory,
    DiskFault,
    Stopped,
}

impl From<Result<Placed, StepFault>> for Answer {
    ghost from_gives = { λ said answer. answer ≡ answered_by said };

    fn from(said: Result<Placed, StepFault>) -> Answer {
        match said {
            Ok(placed) => Answer::Placed(placed),
            Err(StepFault::NoMemory(_)) => Answer::NoMemory,
            Err(StepFault::DiskFault) => Answer::DiskFault,
            Err(StepFault::Stopped) => Answer::Stopped,
        }
    }
}
