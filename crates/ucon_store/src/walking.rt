//! How opening finds the last checkpoint: a walk over the records that count, of which none is interpreted.

ghost use Rattle.std.specs.Prelude.{◌≡◌, ◌≤◌, ◌<◌, ◌^◌, true, false, Ok, None, IfSome, IfOk, IfErr, OnOk};
ghost use Rattle.ucon_disk.specs.Disk.{SameImages};
ghost use Rattle.ucon_disk.specs.Run.{LeavesOnly};
ghost use Rattle.ucon_journal.specs.Found.{counted, payloads_from};
ghost use Rattle.ucon_journal.specs.Journal.{disk_of, gate_of, version_of, IsReading};
ghost use Rattle.ucon_store.specs.PointRecords.{has_points, points_of};
ghost use Rattle.ucon_store.specs.Walking.{HasLong, IsPlacedBelow, IsWalked, IsWalking, finds};

use crate::point_records::{has_points, is_point};
use crate::record_fault::{RecordFault, at_record};
use ucon_disk::Disk;
use ucon_journal::Journal;

/// A record that begins as a checkpoint, if there may be any.
#[derive(Clone, Copy)]
pub struct LastPoint {
    /// Its number, from 0.
    pub number: u64,
    /// The place of its gate.
    pub place: u64,
    /// How many records behind record 0 and before it are no checkpoints.
    pub entries: u64,
}

/// The last checkpoint in the journal, of which no record was taken yet. None if there is none. Each record is read, and none may be too long.
pub fn last_point<D: Disk>(journal: &mut Journal<D>) -> Result<Option<LastPoint>, RecordFault>
    requires reading { IsReading D.seen journal.old }
    requires all { IfSome (D.seen (disk_of journal.old)).contents (λ file. payloads_from file 8 ≡ counted file) }
    requires first { gate_of journal.old ≡ 8 }
    ensures walked { IfOk result (λ last. IfSome (D.seen (disk_of journal.old)).contents (λ file. IsWalked (has_points file) (counted file) last)) }
    ensures below { IfOk result (λ last. IfSome last (IsPlacedBelow (2 ^ 63))) }
    ensures long { IfErr result (λ fault. HasLong fault (D.seen (disk_of journal.old)).contents 0 8
        (D.seen (disk_of journal.old)).faults (D.seen (disk_of journal.new)).faults) }
    ensures reading { IsReading D.seen journal.new }
    ensures version { version_of journal.new ≡ version_of journal.old }
    ensures contents { (D.seen (disk_of journal.new)).contents ≡ (D.seen (disk_of journal.old)).contents }
    ensures images { SameImages (D.seen (disk_of journal.old)).images (D.seen (disk_of journal.new)).images }
    ensures run { LeavesOnly (D.seen (disk_of journal.old)) (D.seen (disk_of journal.new)) (D.seen (disk_of journal.old)).images }
    ensures unfailed { OnOk result ((D.seen (disk_of journal.new)).faults ≡ (D.seen (disk_of journal.old)).faults) }
{
    match journal.next() {
        Err(fault) => Err(at_record(0, fault)),
        Ok(false) => Ok(None),
        Ok(true) => {
            let mut walk = Walk::new();
            walk.pass_all(journal)?;
            Ok(walk.last)
        }
    }
}

/// Where a walk stands: how many records it has passed, how many of them behind record 0 are no checkpoints, and the last that is one.
#[derive(Drop)]
struct Walk {
    number: u64,
    entries: u64,
    last: Option<LastPoint>,
}

impl Walk {
    /// Behind record 0.
    fn new() -> Walk
        ensures number { result.number ≡ 1 }
        ensures entries { result.entries ≡ 0 }
        ensures last { result.last ≡ None }
    {
        Walk {
            number: 1,
            entries: 0,
            last: None,
        }
    }

    /// Passes the next record. False if there is none.
    fn pass_next<D: Disk>(&mut self, journal: &mut Journal<D>) -> Result<bool, RecordFault>
        requires reading { IsReading D.seen journal.old }
        requires walking { IsWalking self.old (gate_of journal.old) }
        ensures passed { result ≡ Ok true → IfSome (D.seen (disk_of journal.old)).contents (λ file.
            finds (points_of (version_of journal.old)) self.new (gate_of journal.new) file
            ≡ finds (points_of (version_of journal.old)) self.old (gate_of journal.old) file) }
        ensures ended { result ≡ Ok false → IfSome (D.seen (disk_of journal.old)).contents (λ file.
            finds (points_of (version_of journal.old)) self.old (gate_of journal.old) file ≡ (self.new.last, None)) }
        ensures stays { result ≡ Ok false → self.new ≡ self.old }
        ensures long { IfErr result (λ fault. HasLong fault (D.seen (disk_of journal.old)).contents self.old.number (gate_of journal.old)
            (D.seen (disk_of journal.old)).faults (D.seen (disk_of journal.new)).faults) }
        ensures advance { result ≡ Ok true → gate_of journal.old < gate_of journal.new }
        ensures walking { result ≡ Ok true → IsWalking self.new (gate_of journal.new) }
        ensures below { gate_of journal.new < 2 ^ 63 }
        ensures reading { IsReading D.seen journal.new }
        ensures version { version_of journal.new ≡ version_of journal.old }
        ensures contents { (D.seen (disk_of journal.new)).contents ≡ (D.seen (disk_of journal.old)).contents }
        ensures images { SameImages (D.seen (disk_of journal.old)).images (D.seen (disk_of journal.new)).images }
        ensures run { LeavesOnly (D.seen (disk_of journal.old)) (D.seen (disk_of journal.new)) (D.seen (disk_of journal.old)).images }
        ensures unfailed { OnOk result ((D.seen (disk_of journal.new)).faults ≡ (D.seen (disk_of journal.old)).faults) }
    {
        let place = journal.gate();
        let points = has_points(journal);
        match journal.next() {
            Err(fault) => Err(at_record(self.number, fault)),
            Ok(false) => Ok(false),
            Ok(true) => {
                if is_point(points, journal.payload()) {
                    self.last = Some(LastPoint {
                        number: self.number,
                        place,
                        entries: self.entries,
                    });
                } else {
                    self.entries += 1;
                }
                self.number += 1;
                Ok(true)
            }
        }
    }

    /// Passes all records that are left.
    fn pass_all<D: Disk>(&mut self, journal: &mut Journal<D>) -> Result<(), RecordFault>
        requires reading { IsReading D.seen journal.old }
        requires walking { IsWalking self.old (gate_of journal.old) }
        ensures found { OnOk result (IfSome (D.seen (disk_of journal.old)).contents (λ file.
            finds (points_of (version_of journal.old)) self.old (gate_of journal.old) file ≡ (self.new.last, None))) }
        ensures below { OnOk result (IfSome self.new.last (IsPlacedBelow (2 ^ 63))) }
        ensures long { IfErr result (λ fault. HasLong fault (D.seen (disk_of journal.old)).contents self.old.number (gate_of journal.old)
            (D.seen (disk_of journal.old)).faults (D.seen (disk_of journal.new)).faults) }
        ensures reading { IsReading D.seen journal.new }
        ensures version { version_of journal.new ≡ version_of journal.old }
        ensures contents { (D.seen (disk_of journal.new)).contents ≡ (D.seen (disk_of journal.old)).contents }
        ensures images { SameImages (D.seen (disk_of journal.old)).images (D.seen (disk_of journal.new)).images }
        ensures run { LeavesOnly (D.seen (disk_of journal.old)) (D.seen (disk_of journal.new)) (D.seen (disk_of journal.old)).images }
        ensures unfailed { OnOk result ((D.seen (disk_of journal.new)).faults ≡ (D.seen (disk_of journal.old)).faults) }
    {
        'records: while self.pass_next(journal)? {}
        Ok(())
    }
}
