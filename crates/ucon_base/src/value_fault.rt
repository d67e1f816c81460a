//! Why bytes spell no value.

ghost use Rattle.std.specs.Prelude.{◌≡◌};

use crate::NoMemory;

/// Why bytes spell no value. They are tried in this order; places are from 0.
#[derive(Clone, Copy, Debug, PartialEq, Eq)]
pub enum ValueFault {
    /// The first place where the bytes stop being the beginning of a spelling of any length. A text of a set that doesn't rise
    /// counts at its opening `"`, and bytes that end too soon count at their length.
    BadSpelling(usize),
    /// A text of more than 64 bytes, with the place of the first one's opening `"`.
    TooLong(usize),
    /// A set of more than 64 texts, so many.
    TooMany(usize),
    /// An integer outside -10^15 to 10^15.
    OutOfRange,
    NoMemory(NoMemory),
}

impl From<NoMemory> for ValueFault {
    ghost use Rattle.ucon_base.specs.declared.value_fault.ValueFault.TheVariants as faults;

    ghost from_gives = { λ e f. f ≡ faults.NoMemory e };

    fn from(e: NoMemory) -> ValueFault {
        ValueFault::NoMemory(e)
    }
}
