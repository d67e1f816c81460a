//! Why a conversation ends before its source does.

ghost use Rattle.std.specs.Prelude.{◌≡◌};

use thiserror::Error;
use ucon_base::NoMemory;
use ucon_flow::ReadFault;

/// Why a conversation ends before its source does.
#[derive(Clone, Copy, Debug, PartialEq, Eq, Error)]
pub enum TalkFault {
    /// The source failed.
    #[error("the source failed")]
    SourceFault,
    /// The voice failed, and has told a front part of the last reply, or nothing of it.
    #[error("the sink failed")]
    SinkFault,
    /// The input has 2^64 - 1 bytes or more.
    #[error("the source has too many bytes")]
    TooLong,
    /// There was no memory for a line or a reply.
    #[error("no memory")]
    NoMemory(NoMemory),
}

impl From<ReadFault> for TalkFault {
    ghost use Rattle.ucon_tell.specs.Faults.{fault_of};

    ghost from_gives = { λ e f. f ≡ fault_of e };

    fn from(e: ReadFault) -> TalkFault {
        match e {
            ReadFault::SourceFault => TalkFault::SourceFault,
            ReadFault::TooLong => TalkFault::TooLong,
            ReadFault::NoMemory(refused) => TalkFault::NoMemory(refused),
        }
    }
}

impl From<NoMemory> for TalkFault {
    ghost use Rattle.ucon_tell.specs.declared.talk_fault.TalkFault.TheVariants as faults;

    ghost from_gives = { λ e f. f ≡ faults.NoMemory e };

    fn from(e: NoMemory) -> TalkFault {
        TalkFault::NoMemory(e)
    }
}
