//! What is loaded from a journal's records, one after the other.

ghost use Rattle.std.specs.Prelude.{◌≡◌, ◌+◌, ◌<◌, ◌≤◌, ◌^◌, ℕ, ◌∷◌, [], ◌++◌, length, false, true, Ok, Err, Some, None, if◌then◌else◌, IfSome, MatchOption, IfOk, IfErr, OnOk, List};
ghost use Rattle.ucon_base.specs.Memory.{out_of_memory};
ghost use Rattle.ucon_disk.specs.Disk.{SameImages};
ghost use Rattle.ucon_disk.specs.Run.{LeavesOnly};
ghost use Rattle.ucon_journal.specs.Journal.{disk_of, gate_of, version_of, HasEnded, IsReading};
ghost use Rattle.ucon_model.specs.Action.{Trace};
ghost use Rattle.ucon_model.specs.Payload.{Told, entry_told, payload_read};
ghost use Rattle.ucon_model.specs.Plain.{PlainPolicy};
ghost use Rattle.ucon_syntax.specs.Policies.{accepted};
ghost use Rattle.ucon_command.specs.Payloads.{entry_read};
ghost use Rattle.ucon_store.specs.Loading.{HasLoaded, IsLoading, IsStanding, TakingGives};
ghost use Rattle.ucon_store.specs.Opening.{HasReason};
ghost use Rattle.ucon_store.specs.Points.{HoldsAmendment};

use crate::beginning::Beginning;
use crate::entries::Entries;
use crate::fault::{StoreFault, at_record};
use crate::in_force::InForce;
use std::alloc::Global;
use ucon_base::{NoMemory, Steps};
use ucon_command::{PayloadFault, payloads_are_read_back, read_entry, tells_reply};
use ucon_disk::Disk;
use ucon_engine::Engine;
use ucon_journal::{Journal, MAX_PAYLOAD};
use ucon_model::{Caller, Command, Entry, texts_tell_changes};

/// The text of a journal's policy, an engine under it, and the entries so far, for which the engine stands, from the last checkpoint on.
#[derive(Drop)]
pub(crate) struct Loaded<E> {
    pub policy: Vec<u8>,
    /// The checkpoint that the entries begin behind. None where they begin before all.
    pub point: Option<Beginning>,
    /// How many entries stand before it.
    pub before: u64,
    pub engine: E,
    pub entries: Entries,
    pub in_force: InForce,
    /// How many records were taken in, those before the checkpoint among them.
    pub records: u64,
    /// Where replies are spelled. Its memory is kept for the payloads of the steps that come.
    pub payload: Vec<u8>,
}

impl<E: Engine> Loaded<E> {
    /// Takes the step of a payload in, if it is the next one: the engine's reply changes something, and the step with it is spelled as the
    /// payload. The payload's own reply isn't read. False if it isn't the next one; the engine is then of no more use. The payload's entry is written
    /// over another one, whose memory is kept for the next.
    fn take_step(
        &mut self,
        alloc: Global,
        payload: &[u8],
        entry: &mut Entry,
    ) -> Result<bool, StoreFault>
        requires standing { IsStanding E.follows self.old }
        requires short { length payload.now ≤ MAX_PAYLOAD }
        requires few { length self.old.entries + 1 < 2 ^ 64 }
        ensures standing { IfOk result (λ more. more ≡ true → IsStanding E.follows self.new) }
        ensures taken { IfOk result (λ more. more ≡ true → TakingGives self.old payload.now (Some self.new.entries)) }
        ensures one { IfOk result (λ more. more ≡ true → length self.new.entries ≡ length self.old.entries + 1) }
        ensures wrong { IfOk result (λ more. more ≡ false → TakingGives self.old payload.now None) }
        ensures err { IfErr result (λ fault. fault ≡ StoreFault.NoMemory out_of_memory) }
        ensures policy { self.new.policy.items ≡ self.old.policy.items }
        ensures point { self.new.point ≡ self.old.point }
        ensures before { self.new.before ≡ self.old.before }
        ensures records { self.new.records ≡ self.old.records }
    {
        let rest = match read_entry(alloc, payload, entry) {
            Ok(rest) => rest,
            Err(PayloadFault::BadPlace(_)) => return Ok(false),
            Err(PayloadFault::NoMemory(refused)) => return Err(StoreFault::NoMemory(refused)),
        };
        if !self.drafts(alloc, entry, payload, rest)? {
            return Ok(false);
        }
        self.engine.keep();
        self.entries.push(entry.caller, &entry.command);
        self.in_force.go_on(&entry.command);
        Ok(true)
    }

    /// Takes the memory that a payload's entry needs, and drafts it. True if the engine's reply changes something, and its text stands behind the
    /// entry: then the step is pending.
    fn drafts(
        &mut self,
        alloc: Global,
        entry: &Entry,
        payload: &[u8],
        rest: &[u8],
    ) -> Result<bool, NoMemory>
        requires standing { IsStanding E.follows self.old }
        requires short { length payload.now ≤ MAX_PAYLOAD }
        requires read { entry_read accepted payload.now ≡ Ok (entry.now, rest.now) }
        requires told { (t : Told) → payload_read accepted payload.now ≡ Ok t → entry.now ≡ entry_told t }
        ensures pending { IfOk result (λ same. same ≡ true → (P : PlainPolicy) (T : Trace) → E.follows self.old.engine P T
            → E.has_pending self.new.engine P T entry.now) }
        ensures taken { IfOk result (λ same. same ≡ true → TakingGives self.old payload.now (Some (self.old.entries ++ entry.now ∷ []))) }
        ensures wrong { IfOk result (λ same. same ≡ false → TakingGives self.old payload.now None) }
        ensures ready { OnOk result (HoldsAmendment self.new.in_force.next.items entry.now.command) }
        ensures in_force { self.new.in_force.text.items ≡ self.old.in_force.text.items }
        ensures rest { self.new ≡ record self.old { engine = self.new.engine; in_force = self.new.in_force; payload = self.new.payload } }
    {
        payloads_are_read_back();
        texts_tell_changes();
        self.in_force.prepare(&entry.command)?;
        let mut steps = Steps::new();
        let drafted = self.engine.draft(entry.caller, &entry.command, &mut steps)?;
        if !drafted.changes() {
            return Ok(false);
        }
        tells_reply(alloc, &mut self.payload, rest, &drafted)
    }

    /// Takes the journal's next record in. False where there is none. Its entry is written over another one.
    fn take_next<D: Disk>(
        &mut self,
        alloc: Global,
        journal: &mut Journal<D>,
        entry: &mut Entry,
    ) -> Result<bool, StoreFault>
        requires loading { IsLoading E.follows D.seen self.old journal.old }
        requires reading { IsReading D.seen journal.old }
        ensures loading { result ≡ Ok true → IsLoading E.follows D.seen self.new journal.new }
        ensures loaded { result ≡ Ok false → HasLoaded E.follows D.seen self.new journal.new }
        ensures advance { result ≡ Ok true → gate_of journal.old < gate_of journal.new }
        ensures small { gate_of journal.new < 2 ^ 63 }
        ensures reading { IsReading D.seen journal.new }
        ensures ended { result ≡ Ok false → HasEnded D.seen journal.new }
        ensures reason { IfErr result (λ fault. (text : List ℕ)
            → HasReason fault text (D.seen (disk_of journal.old)).contents (D.seen (disk_of journal.old)).faults (D.seen (disk_of journal.new)).faults) }
        ensures contents { (D.seen (disk_of journal.new)).contents ≡ (D.seen (disk_of journal.old)).contents }
        ensures images { SameImages (D.seen (disk_of journal.old)).images (D.seen (disk_of journal.new)).images }
        ensures run { LeavesOnly (D.seen (disk_of journal.old)) (D.seen (disk_of journal.new)) (D.seen (disk_of journal.old)).images }
        ensures unfailed { OnOk result ((D.seen (disk_of journal.new)).faults ≡ (D.seen (disk_of journal.old)).faults) }
    {
        let place = journal.gate();
        let number = self.records;
        match journal.next() {
            Err(fault) => Err(at_record(number, fault)),
            Ok(false) => Ok(false),
            Ok(true) => {
                let taken = self.take_step(alloc, journal.payload(), entry)?;
                if !taken {
                    return Err(StoreFault::Damaged { number, place });
                }
                self.records = number + 1;
                Ok(true)
            }
        }
    }

    /// Takes all records of the journal in.
    pub(crate) fn take_all<D: Disk>(
        &mut self,
        alloc: Global,
        journal: &mut Journal<D>,
    ) -> Result<(), StoreFault>
        requires loading { IsLoading E.follows D.seen self.old journal.old }
        requires reading { IsReading D.seen journal.old }
        ensures loaded { OnOk result (HasLoaded E.follows D.seen self.new journal.new) }
        ensures ended { OnOk result (HasEnded D.seen journal.new) }
        ensures reason { IfErr result (λ fault. (text : List ℕ)
            → HasReason fault text (D.seen (disk_of journal.old)).contents (D.seen (disk_of journal.old)).faults (D.seen (disk_of journal.new)).faults) }
        ensures contents { (D.seen (disk_of journal.new)).contents ≡ (D.seen (disk_of journal.old)).contents }
        ensures images { SameImages (D.seen (disk_of journal.old)).images (D.seen (disk_of journal.new)).images }
        ensures run { LeavesOnly (D.seen (disk_of journal.old)) (D.seen (disk_of journal.new)) (D.seen (disk_of journal.old)).images }
        ensures unfailed { OnOk result ((D.seen (disk_of journal.new)).faults ≡ (D.seen (disk_of journal.old)).faults) }
    {
        let mut entry = Entry {
            caller: Caller(0),
            command: Command::Look(0),
        };
        'records: while self.take_next(alloc, journal, &mut entry)? {}
        Ok(())
    }
}
