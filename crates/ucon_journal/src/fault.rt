//! Why a call of a journal failed.

ghost use Rattle.ucon_journal.specs.declared.fault.OpenFault.TheVariants as open_faults;
ghost use Rattle.ucon_journal.specs.declared.fault.TakeFault.TheVariants as take_faults;
ghost use Rattle.std.specs.Prelude.{◌≡◌};
ghost use Rattle.ucon_base.specs.Memory.{out_of_memory};

use std::alloc::AllocError;
use ucon_base::NoMemory;
use ucon_disk::Failed;

/// The disk failed.
#[derive(Clone, Copy, Debug)]
pub struct DiskFault;

impl From<Failed> for DiskFault {
    fn from(_e: Failed) -> DiskFault {
        DiskFault
    }
}

/// Why a journal could not be opened. Opening takes no memory.
#[derive(Clone, Copy, Debug)]
pub enum OpenFault {
    NotJournal,
    DiskFault,
}

impl From<Failed> for OpenFault {
    ghost from_gives = { λ _ e. e ≡ open_faults.DiskFault };

    fn from(_e: Failed) -> OpenFault {
        OpenFault::DiskFault
    }
}

/// Why the next record could not be taken.
#[derive(Clone, Copy, Debug)]
pub enum TakeFault {
    /// A whole record is too long. It has the place of its gate.
    TooLong(u64),
    DiskFault,
    NoMemory(NoMemory),
}

impl From<Failed> for TakeFault {
    ghost from_gives = { λ _ e. e ≡ take_faults.DiskFault };

    fn from(_e: Failed) -> TakeFault {
        TakeFault::DiskFault
    }
}

impl From<AllocError> for TakeFault {
    ghost from_gives = { λ _ e. e ≡ take_faults.NoMemory out_of_memory };

    fn from(e: AllocError) -> TakeFault {
        TakeFault::NoMemory(NoMemory::from(e))
    }
}
