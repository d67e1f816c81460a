//! The full check of a journal: each record is read once and run, from record 0 on, and none is kept.

ghost use Rattle.std.specs.Prelude.{◌≡◌, ◌≢◌, ◌+◌, ◌*◌, ◌≤◌, ◌<◌, ◌^◌, ◌∷◌, [], true, false, length, take, Ok, Some, None, IsSome, IfSome, IfOk, IfErr, OnOk, MatchOption, List, ℕ, Option};
ghost use Rattle.ucon_audit.specs.Checking.{IsChecking, IsSomeCheck, IsWhole};
ghost use Rattle.ucon_audit.specs.Head.{IsChain};
ghost use Rattle.ucon_audit.specs.Keeping.{Keeps};
ghost use Rattle.ucon_audit.specs.Refusing.{IsRefused};
ghost use Rattle.ucon_audit.specs.declared.head.Kept.{Kept};
ghost use Rattle.ucon_disk.specs.Disk.{SameImages};
ghost use Rattle.ucon_disk.specs.Run.{LeavesOnly};
ghost use Rattle.ucon_engine.specs.Engine.{IsIdle};
ghost use Rattle.ucon_journal.specs.Found.{counted, payloads_from};
ghost use Rattle.ucon_journal.specs.Found as journalled;
ghost use Rattle.ucon_journal.specs.Journal.{disk_of, gate_of, payload_of, version_of, IsReading};
ghost use Rattle.ucon_journal.specs.JournalBytes.{magic};
ghost use Rattle.ucon_model.specs.Plain.{Bytes, PlainPolicy};
ghost use Rattle.ucon_syntax.specs.Policies.{accepted};

use crate::chain::Chain;
use crate::difference::first_difference;
use crate::head::Kept;
use crate::keeping::Keeping;
use std::alloc::Global;
use ucon_base::NoMemory;
use ucon_disk::Disk;
use ucon_engine::Engine;
use ucon_journal::{FIRST_GATE, Journal, MAX_PAYLOAD};
use ucon_model::payloads_are_found_one_by_one;
use ucon_store::{StoreFault, at_record, has_points};

/// What was taken in of a journal: the history of its records, and their head.
#[derive(Drop)]
pub(crate) struct Check<E: Engine> {
    pub keeping: Keeping<E>,
    pub chain: Chain,
}

impl<E: Engine> Check<E> {
    /// No entry yet, under the policy of this text, behind these records. None where the text is none of a policy.
    fn begin(alloc: Global, text: &[u8], chain: Chain) -> Result<Option<Check<E>>, NoMemory>
        ensures { IfOk result (λ o. MatchOption o (accepted text.now ≡ None)
            (λ c. (c.chain ≡ chain) × (P : PlainPolicy) × (accepted text.now ≡ Some P) × Keeps E.follows c.keeping text.now P [])) }
    {
        match Keeping::begin(alloc, text)? {
            Some(keeping) => Ok(Some(Check { keeping, chain })),
            None => Ok(None),
        }
    }

    /// Takes the journal's next record in. False where there is none.
    fn take_next<D: Disk>(
        &mut self,
        alloc: Global,
        journal: &mut Journal<D>,
    ) -> Result<bool, StoreFault>
        requires reading { IsReading D.seen journal.old }
        requires checking { IsSomeCheck E.follows self.old (gate_of journal.old) (D.seen (disk_of journal.old)).contents }
        ensures taken { result ≡ Ok true → (kept : Option Kept) (text : Bytes) (P : PlainPolicy)
            → IsChecking E.follows kept text P self.old (gate_of journal.old) (D.seen (disk_of journal.old)).contents
            → IsChecking E.follows kept text P self.new (gate_of journal.new) (D.seen (disk_of journal.old)).contents }
        ensures ended { result ≡ Ok false → IfSome (D.seen (disk_of journal.old)).contents (λ file. payloads_from file (gate_of journal.old) ≡ []) }
        ensures stays { result ≡ Ok false → (self.new ≡ self.old) × (gate_of journal.new ≡ gate_of journal.old) }
        ensures refused { IfErr result (λ fault. (text : Bytes) → IsRefused fault text (D.seen (disk_of journal.old)).contents
            (D.seen (disk_of journal.old)).faults (D.seen (disk_of journal.new)).faults) }
        ensures advance { result ≡ Ok true → gate_of journal.old < gate_of journal.new }
        ensures below { gate_of journal.new < 2 ^ 63 }
        ensures reading { IsReading D.seen journal.new }
        ensures contents { (D.seen (disk_of journal.new)).contents ≡ (D.seen (disk_of journal.old)).contents }
        ensures images { SameImages (D.seen (disk_of journal.old)).images (D.seen (disk_of journal.new)).images }
        ensures run { LeavesOnly (D.seen (disk_of journal.old)) (D.seen (disk_of journal.new)) (D.seen (disk_of journal.old)).images }
        ensures unfailed { OnOk result ((D.seen (disk_of journal.new)).faults ≡ (D.seen (disk_of journal.old)).faults) }
    {
        payloads_are_found_one_by_one();
        let place = journal.gate();
        let number = self.chain.records;
        let points = has_points(journal);
        match journal.next() {
            Err(fault) => Err(at_record(number, fault).into()),
            Ok(false) => Ok(false),
            Ok(true) => {
                let payload = journal.payload();
                let right = match self.keeping.take(alloc, points, payload) {
                    Ok(right) => right,
                    Err(refused) => return Err(StoreFault::NoMemory(refused)),
                };
                if !right {
                    return Err(StoreFault::Damaged { number, place });
                }
                self.chain.add(payload);
                Ok(true)
            }
        }
    }

    /// Takes all records in that are left.
    fn take_all<D: Disk>(
        &mut self,
        alloc: Global,
        journal: &mut Journal<D>,
    ) -> Result<(), StoreFault>
        requires reading { IsReading D.seen journal.old }
        requires checking { IsSomeCheck E.follows self.old (gate_of journal.old) (D.seen (disk_of journal.old)).contents }
        ensures taken { OnOk result ((kept : Option Kept) (text : Bytes) (P : PlainPolicy)
            → IsChecking E.follows kept text P self.old (gate_of journal.old) (D.seen (disk_of journal.old)).contents
            → IsChecking E.follows kept text P self.new (gate_of journal.new) (D.seen (disk_of journal.old)).contents) }
        ensures all { OnOk result (IfSome (D.seen (disk_of journal.old)).contents (λ file. payloads_from file (gate_of journal.new) ≡ [])) }
        ensures refused { IfErr result (λ fault. (text : Bytes) → IsRefused fault text (D.seen (disk_of journal.old)).contents
            (D.seen (disk_of journal.old)).faults (D.seen (disk_of journal.new)).faults) }
        ensures contents { (D.seen (disk_of journal.new)).contents ≡ (D.seen (disk_of journal.old)).contents }
        ensures images { SameImages (D.seen (disk_of journal.old)).images (D.seen (disk_of journal.new)).images }
        ensures run { LeavesOnly (D.seen (disk_of journal.old)) (D.seen (disk_of journal.new)) (D.seen (disk_of journal.old)).images }
        ensures unfailed { OnOk result ((D.seen (disk_of journal.new)).faults ≡ (D.seen (disk_of journal.old)).faults) }
    {
        'records: loop {
            match self.take_next(alloc, journal) {
                Ok(true) => {}
                Ok(false) => return Ok(()),
                Err(fault) => return Err(fault),
            }
        }
    }
}

/// Checks all records of a journal of which none was taken yet, and then whether its policy is the one of this text. Where there is no record, what
/// is kept is the empty history under that policy.
pub(crate) fn check_records<E: Engine, D: Disk>(
    alloc: Global,
    policy: &[u8],
    kept: Option<Kept>,
    journal: &mut Journal<D>,
) -> Result<Check<E>, StoreFault>
    requires accepted { IsSome (accepted policy.now) }
    requires reading { IsReading D.seen journal.old }
    requires journal { IfSome (D.seen (disk_of journal.old)).contents (λ file.
        (payloads_from file 8 ≡ counted file) × (journalled.found file ≢ journalled.NotJournal)) }
    requires first { gate_of journal.old ≡ 8 }
    ensures whole { IfOk result (λ c. IfSome (D.seen (disk_of journal.old)).contents (IsWhole E.follows kept policy.now c)) }
    ensures idle { IfOk result (λ c. IsIdle E.follows c.keeping.engine) }
    ensures refused { IfErr result (λ fault. IsRefused fault policy.now (D.seen (disk_of journal.old)).contents
        (D.seen (disk_of journal.old)).faults (D.seen (disk_of journal.new)).faults) }
    ensures contents { (D.seen (disk_of journal.new)).contents ≡ (D.seen (disk_of journal.old)).contents }
    ensures images { SameImages (D.seen (disk_of journal.old)).images (D.seen (disk_of journal.new)).images }
    ensures run { LeavesOnly (D.seen (disk_of journal.old)) (D.seen (disk_of journal.new)) (D.seen (disk_of journal.old)).images }
    ensures unfailed { OnOk result ((D.seen (disk_of journal.new)).faults ≡ (D.seen (disk_of journal.old)).faults) }
{
    let chain = Chain::new(&magic_of(journal), kept);
    match journal.next() {
        Err(fault) => Err(at_record(0, fault).into()),
        Ok(false) => match Check::begin(alloc, policy, chain) {
            Ok(Some(check)) => Ok(check),
            Ok(None) => unreachable!(),
            Err(refused) => Err(StoreFault::NoMemory(refused)),
        },
        Ok(true) => check_behind(alloc, policy, chain, journal),
    }
}

/// Goes on with the journal whose record 0 was just taken, with the head before it.
fn check_behind<E: Engine, D: Disk>(
    alloc: Global,
    policy: &[u8],
    chain: Chain,
    journal: &mut Journal<D>,
) -> Result<Check<E>, StoreFault>
    requires reading { IsReading D.seen journal.old }
    requires counted { IfSome (D.seen (disk_of journal.old)).contents (λ file.
        counted file ≡ payload_of journal.old ∷ payloads_from file (gate_of journal.old)) }
    requires gate { gate_of journal.old ≡ 13 + length (payload_of journal.old) }
    requires short { length (payload_of journal.old) ≤ MAX_PAYLOAD }
    requires none { chain.records ≡ 0 }
    requires chained { IfSome (D.seen (disk_of journal.old)).contents (λ file. IsChain chain.kept (take 8 file) [] chain) }
    ensures whole { IfOk result (λ c. IfSome (D.seen (disk_of journal.old)).contents (IsWhole E.follows chain.kept policy.now c)) }
    ensures idle { IfOk result (λ c. IsIdle E.follows c.keeping.engine) }
    ensures refused { IfErr result (λ fault. IsRefused fault policy.now (D.seen (disk_of journal.old)).contents
        (D.seen (disk_of journal.old)).faults (D.seen (disk_of journal.new)).faults) }
    ensures contents { (D.seen (disk_of journal.new)).contents ≡ (D.seen (disk_of journal.old)).contents }
    ensures images { SameImages (D.seen (disk_of journal.old)).images (D.seen (disk_of journal.new)).images }
    ensures run { LeavesOnly (D.seen (disk_of journal.old)) (D.seen (disk_of journal.new)) (D.seen (disk_of journal.old)).images }
    ensures unfailed { OnOk result ((D.seen (disk_of journal.new)).faults ≡ (D.seen (disk_of journal.old)).faults) }
{
    let other = first_difference(journal.payload(), policy);
    let mut check = match take_first(alloc, chain, journal) {
        Ok(Some(check)) => check,
        Ok(None) => {
            return Err(StoreFault::Damaged {
                number: 0,
                place: FIRST_GATE,
            });
        }
        Err(refused) => return Err(StoreFault::NoMemory(refused)),
    };
    match check.take_all(alloc, journal) {
        Ok(()) => {}
        Err(fault) => return Err(fault),
    }
    match other {
        Some(place) => Err(StoreFault::OtherPolicy(place)),
        None => Ok(check),
    }
}

/// Takes record 0 in, which was just taken, with the head before it. None where it is no policy's text.
fn take_first<E: Engine, D: Disk>(
    alloc: Global,
    chain: Chain,
    journal: &Journal<D>,
) -> Result<Option<Check<E>>, NoMemory>
    requires counted { IfSome (D.seen (disk_of journal.now)).contents (λ file.
        counted file ≡ payload_of journal.now ∷ payloads_from file (gate_of journal.now)) }
    requires gate { gate_of journal.now ≡ 13 + length (payload_of journal.now) }
    requires short { length (payload_of journal.now) ≤ MAX_PAYLOAD }
    requires none { chain.records ≡ 0 }
    requires chained { IfSome (D.seen (disk_of journal.now)).contents (λ file. IsChain chain.kept (take 8 file) [] chain) }
    ensures { IfOk result (λ o. MatchOption o (accepted (payload_of journal.now) ≡ None) (λ c. (P : PlainPolicy)
        × IsChecking E.follows chain.kept (payload_of journal.now) P c (gate_of journal.now) (D.seen (disk_of journal.now)).contents)) }
{
    let text = journal.payload();
    let mut chain = chain;
    chain.add(text);
    Check::begin(alloc, text, chain)
}

/// The first 8 bytes of a journal's file.
fn magic_of<D: Disk>(journal: &Journal<D>) -> [u8; 8]
    ensures { result ≡ magic (version_of journal.now) }
{
    if journal.version() == 1 {
        *b"UCONJR01"
    } else {
        *b"UCONJR02"
    }
}
