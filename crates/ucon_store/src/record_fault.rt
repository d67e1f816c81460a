//! Why a record was not taken.

ghost use Rattle.std.specs.Prelude.{◌≡◌};
ghost use Rattle.ucon_store.specs.RecordFaults.{of_take};

use ucon_base::NoMemory;
use ucon_journal::TakeFault;

/// Why a record was not taken.
#[derive(Clone, Copy)]
pub enum RecordFault {
    /// It is too long, or gone since it was passed: its number, from 0, and the place of its gate, in bytes.
    Damaged { number: u64, place: u64 },
    DiskFault,
    NoMemory(NoMemory),
}

/// Why the record of this number could not be taken: it is too long, or the journal failed.
pub fn at_record(number: u64, fault: TakeFault) -> RecordFault
    ensures { result ≡ of_take number fault }
{
    match fault {
        TakeFault::TooLong(place) => RecordFault::Damaged { number, place },
        TakeFault::DiskFault => RecordFault::DiskFault,
        TakeFault::NoMemory(e) => RecordFault::NoMemory(e),
    }
}
