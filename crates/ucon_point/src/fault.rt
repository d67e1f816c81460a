//! Why bytes are no checkpoint.

ghost use Rattle.std.specs.Prelude.{◌≡◌};

use ucon_base::NoMemory;

/// Why bytes are no text of a checkpoint.
#[derive(Clone, Copy, Debug)]
pub enum PointFault {
    /// The place, from 0, of the first line such that no such text begins with the bytes up to its end; or the length of the bytes, if they end
    /// too soon.
    BadPlace(usize),
    NoMemory(NoMemory),
}

impl From<NoMemory> for PointFault {
    ghost use Rattle.ucon_point.specs.declared.fault.PointFault.TheVariants as faults;

    ghost from_gives = { λ e f. f ≡ faults.NoMemory e };

    fn from(e: NoMemory) -> PointFault {
        PointFault::NoMemory(e)
    }
}
