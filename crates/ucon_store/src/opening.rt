//! How a store is opened.

ghost use Rattle.std.specs.Prelude.{◌≡◌, ◌≢◌, ◌+◌, ◌*◌, ◌≤◌, ◌<◌, ◌^◌, ◌∷◌, [], ℕ, List, length, Some, IsSome, IfSome, IfOk, IfErr, OnOk, is_some};
ghost use Rattle.ucon_disk.specs.Disk.{Only};
ghost use Rattle.ucon_disk.specs.Run.{LeavesAfter};
ghost use Rattle.ucon_journal.specs.Found.{counted, payloads_from};
ghost use Rattle.ucon_journal.specs.Found as journalled;
ghost use Rattle.ucon_journal.specs.Journal.{disk_of, gate_of, payload_of, HasEnded, IsReading, IsClosed};
ghost use Rattle.ucon_model.specs.Plain.{PlainPolicy};
ghost use Rattle.ucon_syntax.specs.Policies.{accepted};
ghost use Rattle.ucon_store.specs.Keeping.{SameRecords};
ghost use Rattle.ucon_store.specs.Kept.{payload_in};
ghost use Rattle.ucon_store.specs.Loading.{IsRead, IsStanding};
ghost use Rattle.ucon_store.specs.Opening.{HasReason, KeepsFound, Opens};
ghost use Rattle.ucon_store.specs.Points.{SameKind, SamePlaces, has_points};
ghost use Rattle.ucon_store.specs.Walking.{IsPlacedBelow, IsWalked};

use crate::accepting::first_difference;
use crate::fault::{StoreFault, at_record};
use crate::laws::opening_sees_one_thing;
use crate::loading::Loaded;
use crate::starting::{start, start_first};
use crate::walking::{LastPoint, last_point};
use std::alloc::Global;
use ucon_disk::Disk;
use ucon_engine::Engine;
use ucon_journal::{Journal, MAX_PAYLOAD};

/// Reads the journal to its end, and mends it. A journal without a record gets this policy as record 0. Nothing is written before all that is
/// there was read and found right.
pub(crate) fn load<E: Engine, D: Disk>(
    alloc: Global,
    policy: &[u8],
    journal: &mut Journal<D>,
) -> Result<Loaded<E>, StoreFault>
    requires accepted { IsSome (accepted policy.now) }
    requires reading { IsReading D.seen journal.old }
    requires journal { IfSome (D.seen (disk_of journal.old)).contents (λ file.
        (payloads_from file 8 ≡ counted file) × (journalled.found file ≢ journalled.NotJournal)) }
    requires first { gate_of journal.old ≡ 8 }
    ensures policy { IfOk result (λ l. l.policy.items ≡ policy.now) }
    ensures standing { IfOk result (λ l. IsStanding E.follows l) }
    ensures read { IfOk result (λ l. (P : PlainPolicy) → accepted policy.now ≡ Some P → IfSome (D.seen (disk_of journal.old)).contents
        (IsRead policy.now P (payload_in l.point) l.before l.entries)) }
    ensures kept { OnOk result (KeepsFound policy.now (D.seen (disk_of journal.old)).contents (D.seen (disk_of journal.new)).contents) }
    ensures few { IfOk result (λ l. 5 * (l.before + length l.entries) ≤ gate_of journal.new) }
    ensures payloads { OnOk result (IfSome (D.seen (disk_of journal.old)).contents (λ file. length (counted file) < 2 ^ 63)) }
    ensures closed { OnOk result (IsClosed D.seen journal.new) }
    ensures places { OnOk result (SamePlaces (D.seen (disk_of journal.old)).contents (D.seen (disk_of journal.new)).contents) }
    ensures kind { OnOk result (SameKind (D.seen (disk_of journal.old)).contents (D.seen (disk_of journal.new)).contents) }
    ensures records { OnOk result (SameRecords policy.now (D.seen (disk_of journal.old)).contents (D.seen (disk_of journal.new)).contents) }
    ensures only { OnOk result (Only (D.seen (disk_of journal.new)).contents (D.seen (disk_of journal.new)).images) }
    ensures reason { IfErr result (λ fault. HasReason fault policy.now (D.seen (disk_of journal.old)).contents
        (D.seen (disk_of journal.old)).faults (D.seen (disk_of journal.new)).faults) }
    ensures bytes_err { IfErr result (λ fault. fault ≢ StoreFault.DiskFault
        → (D.seen (disk_of journal.new)).contents ≡ (D.seen (disk_of journal.old)).contents) }
    ensures images { LeavesAfter (D.seen (disk_of journal.old)) (D.seen (disk_of journal.new)) (Opens policy.now) }
    ensures tells { OnOk result (is_some (D.seen (disk_of journal.new)).contents ≡ is_some (D.seen (disk_of journal.old)).contents) }
    ensures unfailed { OnOk result ((D.seen (disk_of journal.new)).faults ≡ (D.seen (disk_of journal.old)).faults) }
{
    let last = last_point(journal)?;
    journal.rewind();
    match journal.next() {
        Err(fault) => Err(at_record(0, fault)),
        Ok(false) => make(alloc, policy, journal),
        Ok(true) => go_on(alloc, policy, last, journal),
    }
}

/// Goes on with the journal whose record 0 was just taken, from the last checkpoint on, as a walk has found it.
fn go_on<E: Engine, D: Disk>(
    alloc: Global,
    policy: &[u8],
    last: Option<LastPoint>,
    journal: &mut Journal<D>,
) -> Result<Loaded<E>, StoreFault>
    requires reading { IsReading D.seen journal.old }
    requires walked { IfSome (D.seen (disk_of journal.old)).contents (λ file.
        (counted file ≡ payload_of journal.old ∷ payloads_from file (gate_of journal.old)) × IsWalked (has_points file) (counted file) last) }
    requires below { IfSome last (IsPlacedBelow (2 ^ 63)) }
    requires gate { gate_of journal.old ≡ 13 + length (payload_of journal.old) }
    requires short { length (payload_of journal.old) ≤ MAX_PAYLOAD }
    ensures policy { IfOk result (λ l. l.policy.items ≡ policy.now) }
    ensures standing { IfOk result (λ l. IsStanding E.follows l) }
    ensures read { IfOk result (λ l. (P : PlainPolicy) → accepted policy.now ≡ Some P → IfSome (D.seen (disk_of journal.old)).contents
        (IsRead policy.now P (payload_in l.point) l.before l.entries)) }
    ensures kept { OnOk result (KeepsFound policy.now (D.seen (disk_of journal.old)).contents (D.seen (disk_of journal.new)).contents) }
    ensures few { IfOk result (λ l. 5 * (l.before + length l.entries) ≤ gate_of journal.new) }
    ensures payloads { OnOk result (IfSome (D.seen (disk_of journal.old)).contents (λ file. length (counted file) < 2 ^ 63)) }
    ensures closed { OnOk result (IsClosed D.seen journal.new) }
    ensures places { OnOk result (SamePlaces (D.seen (disk_of journal.old)).contents (D.seen (disk_of journal.new)).contents) }
    ensures kind { OnOk result (SameKind (D.seen (disk_of journal.old)).contents (D.seen (disk_of journal.new)).contents) }
    ensures records { OnOk result (SameRecords policy.now (D.seen (disk_of journal.old)).contents (D.seen (disk_of journal.new)).contents) }
    ensures only { OnOk result (Only (D.seen (disk_of journal.new)).contents (D.seen (disk_of journal.new)).images) }
    ensures reason { IfErr result (λ fault. HasReason fault policy.now (D.seen (disk_of journal.old)).contents
        (D.seen (disk_of journal.old)).faults (D.seen (disk_of journal.new)).faults) }
    ensures bytes_err { IfErr result (λ fault. fault ≢ StoreFault.DiskFault
        → (D.seen (disk_of journal.new)).contents ≡ (D.seen (disk_of journal.old)).contents) }
    ensures images { LeavesAfter (D.seen (disk_of journal.old)) (D.seen (disk_of journal.new)) (Opens policy.now) }
    ensures tells { OnOk result (is_some (D.seen (disk_of journal.new)).contents ≡ is_some (D.seen (disk_of journal.old)).contents) }
    ensures unfailed { OnOk result ((D.seen (disk_of journal.new)).faults ≡ (D.seen (disk_of journal.old)).faults) }
{
    opening_sees_one_thing();
    let mut loaded = start(alloc, last, journal)?;
    loaded.take_all(alloc, journal)?;
    if let Some(place) = first_difference(&loaded.policy, policy) {
        return Err(StoreFault::OtherPolicy(place));
    }
    journal.mend()?;
    Ok(loaded)
}

/// Makes the journal of this policy in a file without a record.
fn make<E: Engine, D: Disk>(
    alloc: Global,
    policy: &[u8],
    journal: &mut Journal<D>,
) -> Result<Loaded<E>, StoreFault>
    requires accepted { IsSome (accepted policy.now) }
    requires ended { HasEnded D.seen journal.old }
    requires fresh { IfSome (D.seen (disk_of journal.old)).contents (λ file. (counted file ≡ []) × (journalled.found file ≢ journalled.NotJournal)) }
    ensures policy { IfOk result (λ l. l.policy.items ≡ policy.now) }
    ensures standing { IfOk result (λ l. IsStanding E.follows l) }
    ensures read { IfOk result (λ l. (P : PlainPolicy) → accepted policy.now ≡ Some P → IfSome (D.seen (disk_of journal.old)).contents
        (IsRead policy.now P (payload_in l.point) l.before l.entries)) }
    ensures kept { OnOk result (KeepsFound policy.now (D.seen (disk_of journal.old)).contents (D.seen (disk_of journal.new)).contents) }
    ensures few { IfOk result (λ l. 5 * (l.before + length l.entries) ≤ gate_of journal.new) }
    ensures payloads { OnOk result (IfSome (D.seen (disk_of journal.old)).contents (λ file. length (counted file) < 2 ^ 63)) }
    ensures closed { OnOk result (IsClosed D.seen journal.new) }
    ensures places { OnOk result (SamePlaces (D.seen (disk_of journal.old)).contents (D.seen (disk_of journal.new)).contents) }
    ensures kind { OnOk result (SameKind (D.seen (disk_of journal.old)).contents (D.seen (disk_of journal.new)).contents) }
    ensures records { OnOk result (SameRecords policy.now (D.seen (disk_of journal.old)).contents (D.seen (disk_of journal.new)).contents) }
    ensures only { OnOk result (Only (D.seen (disk_of journal.new)).contents (D.seen (disk_of journal.new)).images) }
    ensures reason { IfErr result (λ fault. HasReason fault policy.now (D.seen (disk_of journal.old)).contents
        (D.seen (disk_of journal.old)).faults (D.seen (disk_of journal.new)).faults) }
    ensures bytes_err { IfErr result (λ fault. fault ≢ StoreFault.DiskFault
        → (D.seen (disk_of journal.new)).contents ≡ (D.seen (disk_of journal.old)).contents) }
    ensures images { LeavesAfter (D.seen (disk_of journal.old)) (D.seen (disk_of journal.new)) (Opens policy.now) }
    ensures tells { OnOk result (is_some (D.seen (disk_of journal.new)).contents ≡ is_some (D.seen (disk_of journal.old)).contents) }
    ensures unfailed { OnOk result ((D.seen (disk_of journal.new)).faults ≡ (D.seen (disk_of journal.old)).faults) }
{
    let loaded = start_first(alloc, policy)?;
    journal.reserve(policy.len())?;
    journal.mend()?;
    journal.append(policy)?;
    Ok(loaded)
}
