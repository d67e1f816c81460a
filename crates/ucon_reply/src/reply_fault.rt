//! Why bytes are no reply.

ghost use Rattle.std.specs.Prelude.{◌≡◌};

use std::alloc::AllocFailed;
use ucon_base::NoMemory;

/// Why bytes are no text of a reply.
#[derive(Clone, Copy, Debug, PartialEq, Eq)]
pub enum ReplyFault {
    /// The bytes are no reply's text.
    BadReply,
    NoMemory(NoMemory),
}

impl From<NoMemory> for ReplyFault {
    ghost use Rattle.ucon_reply.specs.declared.reply_fault.ReplyFault.TheVariants as faults;

    ghost from_gives = { λ e f. f ≡ faults.NoMemory e };

    fn from(e: NoMemory) -> ReplyFault {
        ReplyFault::NoMemory(e)
    }
}

impl<T: Drop> From<AllocFailed<T>> for ReplyFault {
    ghost use Rattle.ucon_reply.specs.declared.reply_fault.ReplyFault.TheVariants as faults;
    ghost use Rattle.ucon_base.specs.Memory.{out_of_memory};

    ghost from_gives = { λ _ f. f ≡ faults.NoMemory out_of_memory };

    fn from(e: AllocFailed<T>) -> ReplyFault {
        ReplyFault::NoMemory(NoMemory::from(e))
    }
}
