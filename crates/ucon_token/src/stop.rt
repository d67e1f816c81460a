//! Why reading stopped.

ghost use Rattle.std.specs.Prelude.{◌≡◌};
ghost use Rattle.ucon_base.specs.Memory.{out_of_memory};
ghost use Rattle.ucon_token.specs.declared.stop.Stop.TheVariants.{Memory};

use std::alloc::{AllocError, AllocFailed};
use ucon_base::NoMemory;

/// Why the grammar can't go on at a token: another one must stand there, an item is above its count, or a nesting is above its depth.
#[derive(Clone, Copy)]
pub enum Cause {
    Unexpected,
    TooMany,
    TooDeep,
}

/// Why reading ends early: there is no memory, or the text has a fault at the present token.
#[derive(Clone, Copy)]
pub enum Stop {
    Memory(NoMemory),
    At(Cause),
}

impl From<AllocError> for Stop {
    ghost from_gives = { λ _ stop. stop ≡ Memory out_of_memory };

    fn from(e: AllocError) -> Stop {
        Stop::Memory(NoMemory::from(e))
    }
}

impl<T: Drop> From<AllocFailed<T>> for Stop {
    ghost from_gives = { λ _ stop. stop ≡ Memory out_of_memory };

    fn from(e: AllocFailed<T>) -> Stop {
        Stop::Memory(NoMemory::from(e))
    }
}

impl From<NoMemory> for Stop {
    ghost from_gives = { λ e stop. stop ≡ Memory e };

    fn from(e: NoMemory) -> Stop {
        Stop::Memory(e)
    }
}

impl<T: Drop> From<(T, NoMemory)> for Stop {
    ghost from_gives = { λ e stop. stop ≡ Memory e.1 };

    fn from(e: (T, NoMemory)) -> Stop {
        Stop::Memory(e.1)
    }
}
