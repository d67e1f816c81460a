//! Why a reply was not published.

ghost use Rattle.std.specs.Prelude.{◌≡◌};
ghost use Rattle.ucon_board.specs.declared.mark_fault.MarkFault.TheVariants as faults;

use ucon_base::NoMemory;

/// Why a reply was not published, and never will be.
#[derive(Clone, Copy)]
pub enum MarkFault {
    NoMemory(NoMemory),
    /// An earlier step found no memory, so the board stays at its place.
    Still,
}

impl From<NoMemory> for MarkFault {
    ghost from_gives = { λ e fault. fault ≡ faults.NoMemory e };

    fn from(e: NoMemory) -> MarkFault {
        MarkFault::NoMemory(e)
    }
}
