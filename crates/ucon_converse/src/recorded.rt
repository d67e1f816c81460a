//! The policy that a journal has.

ghost use Rattle.std.specs.Prelude.{◌≡◌, ◌<◌, IfErr, IfOk, IfSome, length};
ghost use Rattle.ucon_disk.specs.Disk.{SameImages};
ghost use Rattle.ucon_disk.specs.Run.{LeavesOnly};
ghost use Rattle.ucon_converse.specs.Ended.{IsOfRecord, IsOnlyRead, LeavesSame};
ghost use Rattle.ucon_converse.specs.Holding.{HasFirst};
ghost use Rattle.ucon_journal.specs.Found.{counted, payloads_from};
ghost use Rattle.ucon_journal.specs.Journal.{IsReading, disk_of, gate_of};

use std::alloc::Global;
use ucon_disk::Disk;
use ucon_journal::{FIRST_GATE, Journal, OpenFault, TakeFault};
use ucon_outcome::Outcome;

/// The most bytes of a file that an opening makes into a new journal.
const MOST_FRESH: u64 = 9;

/// The text of the policy that the journal on a disk began with, its record 0, and the disk. A file that has none yet is no such journal, and isn't
/// made into one: nothing is written.
pub(crate) fn recorded_policy<D: Disk>(
    alloc: Global,
    mut disk: D,
) -> Result<(Vec<u8>, D), (D, Outcome)>
    ensures first { IfOk result (λ r. IfSome (D.seen disk).contents (HasFirst r.0.items)) }
    ensures only_read { IfOk result (λ r. IsOnlyRead (D.seen disk) (D.seen r.1)) }
    ensures reason { IfErr result (λ e. IsOfRecord e.1 (D.seen disk).contents (D.seen disk).faults (D.seen e.0).faults) }
    ensures left { IfErr result (λ e. LeavesSame (D.seen disk) (D.seen e.0)) }
{
    match disk.len() {
        Ok(len) if len <= MOST_FRESH => Err((disk, Outcome::NotJournal)),
        Ok(_) => first_record(alloc, disk),
        Err(_) => Err((disk, Outcome::DiskFault)),
    }
}

/// The same of a file that has more bytes than a journal without a record.
fn first_record<D: Disk>(alloc: Global, disk: D) -> Result<(Vec<u8>, D), (D, Outcome)>
    requires { IfSome (D.seen disk).contents (λ file. 9 < length file) }
    ensures first { IfOk result (λ r. IfSome (D.seen disk).contents (HasFirst r.0.items)) }
    ensures only_read { IfOk result (λ r. IsOnlyRead (D.seen disk) (D.seen r.1)) }
    ensures reason { IfErr result (λ e. IsOfRecord e.1 (D.seen disk).contents (D.seen disk).faults (D.seen e.0).faults) }
    ensures left { IfErr result (λ e. LeavesSame (D.seen disk) (D.seen e.0)) }
{
    let mut journal = match Journal::open(alloc, disk) {
        Ok(journal) => journal,
        Err((disk, OpenFault::NotJournal)) => return Err((disk, Outcome::NotJournal)),
        Err((disk, OpenFault::DiskFault)) => return Err((disk, Outcome::DiskFault)),
    };
    let text = first_payload(alloc, &mut journal);
    let disk = journal.close();
    match text {
        Ok(text) => Ok((text, disk)),
        Err(outcome) => Err((disk, outcome)),
    }
}

/// The payload of the record that comes next, record 0.
fn first_payload<D: Disk>(alloc: Global, journal: &mut Journal<D>) -> Result<Vec<u8>, Outcome>
    requires reading { IsReading D.seen journal.old }
    requires gate { gate_of journal.old ≡ 8 }
    requires all { IfSome (D.seen (disk_of journal.old)).contents (λ file. payloads_from file 8 ≡ counted file) }
    ensures first { IfOk result (λ text. IfSome (D.seen (disk_of journal.old)).contents (HasFirst text.items)) }
    ensures reason { IfErr result (λ o. IsOfRecord o (D.seen (disk_of journal.old)).contents (D.seen (disk_of journal.old)).faults
        (D.seen (disk_of journal.new)).faults) }
    ensures contents { (D.seen (disk_of journal.new)).contents ≡ (D.seen (disk_of journal.old)).contents }
    ensures run { LeavesOnly (D.seen (disk_of journal.old)) (D.seen (disk_of journal.new)) (D.seen (disk_of journal.old)).images }
    ensures unfailed { IfOk result (λ _. (D.seen (disk_of journal.new)).faults ≡ (D.seen (disk_of journal.old)).faults) }
{
    match journal.next() {
        Ok(true) => match journal.payload().to_vec(alloc) {
            Ok(text) => Ok(text),
            Err(refused) => Err(Outcome::NoMemory(refused.into())),
        },
        Ok(false) => Err(Outcome::NotJournal),
        Err(TakeFault::TooLong(_)) => Err(Outcome::Damaged {
            number: 0,
            place: FIRST_GATE,
        }),
        Err(TakeFault::DiskFault) => Err(Outcome::DiskFault),
        Err(TakeFault::NoMemory(refused)) => Err(Outcome::NoMemory(refused)),
    }
}
