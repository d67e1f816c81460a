//! Why bytes are no payload.

ghost use Rattle.std.specs.Prelude.{◌≡◌};

use ucon_base::NoMemory;

/// Why bytes are no payload of a step.
#[derive(Clone, Copy, Debug, PartialEq, Eq)]
pub enum PayloadFault {
    /// The offset in bytes, from 0, of the first part that is none: the caller, the command or the reply.
    BadPlace(usize),
    NoMemory(NoMemory),
}

impl From<NoMemory> for PayloadFault {
    ghost use Rattle.ucon_command.specs.declared.payload_fault.PayloadFault.TheVariants as faults;

    ghost from_gives = { λ e f. f ≡ faults.NoMemory e };

    fn from(e: NoMemory) -> PayloadFault {
        PayloadFault::NoMemory(e)
    }
}
