//! Why an engine doesn't take up a state.

ghost use Rattle.std.specs.Prelude.{◌≡◌};
ghost use Rattle.ucon_engine.specs.declared.restore_fault.RestoreFault.TheVariants as faults;

use ucon_base::{Name, NoMemory};

/// Why an engine doesn't take up a state.
#[derive(Clone, Copy, Debug, PartialEq, Eq)]
pub enum RestoreFault {
    /// The least accessing session that fails, and its label.
    Unsettled(u32, Name),
    NoMemory(NoMemory),
}

impl From<NoMemory> for RestoreFault {
    ghost from_gives = { λ e fault. fault ≡ faults.NoMemory e };

    fn from(e: NoMemory) -> RestoreFault {
        RestoreFault::NoMemory(e)
    }
}
