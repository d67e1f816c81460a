//! A journal: payloads of bytes in records, each on the disk before it is acknowledged.

ghost use Rattle.std.specs.Prelude.{◌≡◌, ◌≢◌, ◌+◌, ◌-◌, ◌<◌, ◌≤◌, ◌^◌, false, List, ℕ, Some, [], ◌∷◌, ◌++◌, length, take, Ok, vec_len, IsSome};
ghost use Rattle.std.specs.Prelude.{IfSome, IfOk, IfErr, OnOk, OnErr, IsErrOf, MatchBool, MatchOption, true, vec_capacity, is_some};
ghost use Rattle.std.specs.Int.{w32, to_be_bytes};
ghost use Rattle.std.specs.List.{sum_by};
ghost use Rattle.std.specs.Option.{option_map};
ghost use Rattle.ucon_disk.specs.Causes.{HasCause, raised};
ghost use Rattle.ucon_disk.specs.Disk.{Only, SameImages};
ghost use Rattle.ucon_disk.specs.Run.{LeavesOnly, LeavesAfter, LeavesFrom};
ghost use Rattle.ucon_journal.specs.JournalBytes.{IsVersion, AreShort, batch_bytes, records, journal_bytes};
ghost use Rattle.ucon_journal.specs.Found.{found, version_told, counted, payloads_from, counts, length_told, LeadTo, NextIsLonger};
ghost use Rattle.ucon_journal.specs.Found as finding;
ghost use Rattle.ucon_journal.specs.Opened.{opened, shut_at, with_payload, with_payloads, Untouched, SamePayloads, PerhapsAdded, PerhapsAllAdded};

use crate::ahead::Ahead;
use crate::fault::{DiskFault, OpenFault, TakeFault};
use crate::opening::begin;
use crate::phase::Phase;
use crate::synced::{cut_synced, write_gate, write_synced};
use std::alloc::Global;
use ucon_base::NoMemory;
use ucon_disk::Disk;

/// The place of the first gate, record 0's, in bytes.
pub const FIRST_GATE: u64 = 8;

/// A gate and four bytes of length.
const HEADER: u64 = 5;

/// The longest payload, in bytes.
pub const MAX_PAYLOAD: u64 = 16_777_215;

/// A journal in a file of a disk: records of a gate, a length and a payload behind the magic of its version. A record counts once its gate is
/// open.
#[derive(Drop)]
pub struct Journal<D> {
    disk: D,
    version: u8,
    gate: u64,
    len: u64,
    ahead: Ahead,
    payload_place: u64,
    payload_len: usize,
    buffer: Vec<u8>,
    phase: Phase,
    ghost version_known: { IsVersion version },
    ghost gate_small: { gate < 2 ^ 63 },
    ghost len_small: { len < 2 ^ 63 },
}

impl<D: Disk> Journal<D> {
    ghost use Rattle.ucon_journal.specs.Journal.{disk_of, version_of, gate_of, payload_of, batch_of, told_payloads, HasRoomFor, IsBatch, IsReading};
    ghost use Rattle.ucon_journal.specs.Journal.{HasEnded, IsClosed, IsBroken};

    /// Opens the journal in a file, and makes a new one, of version 2, in a file of at most 9 bytes. A longer file isn't
    /// written. A refusal hands the disk back.
    pub fn open(alloc: Global, mut disk: D) -> Result<Journal<D>, (D, OpenFault)>
        ensures reading { IfOk result (λ j. IsReading D.seen j × (gate_of j ≡ 8)) }
        ensures version { IfOk result (λ j. IfSome (D.seen (disk_of j)).contents (λ file. version_told file ≡ Some (version_of j))) }
        ensures bytes { IfOk result (λ j. (D.seen (disk_of j)).contents ≡ option_map opened (D.seen disk).contents) }
        ensures same { IfOk result (λ j. told_payloads (D.seen (disk_of j)).contents ≡ told_payloads (D.seen disk).contents) }
        ensures all { IfOk result (λ j. IfSome (D.seen (disk_of j)).contents (λ file. payloads_from file 8 ≡ counted file)) }
        ensures only { IfOk result (λ j. Only (D.seen (disk_of j)).contents (D.seen (disk_of j)).images) }
        ensures images { IfOk result (λ j. LeavesAfter (D.seen disk) (D.seen (disk_of j)) Untouched) }
        ensures since { IfOk result (λ j. LeavesFrom (D.seen disk) (D.seen (disk_of j)) Untouched) }
        ensures unfailed { IfOk result (λ j. (D.seen (disk_of j)).faults ≡ (D.seen disk).faults) }

        ensures is_journal { IfOk result (λ _. IfSome (D.seen disk).contents (λ file. found file ≢ finding.NotJournal)) }
        ensures not_journal { IfErr result (λ e. e.1 ≡ OpenFault.NotJournal
            → IfSome (D.seen disk).contents (λ file. (found file ≡ finding.NotJournal) × ((D.seen e.0).contents ≡ Some file))) }
        ensures images_err { IfErr result (λ e. LeavesAfter (D.seen disk) (D.seen e.0) Untouched) }
        ensures since_err { IfErr result (λ e. LeavesFrom (D.seen disk) (D.seen e.0) Untouched) }
        ensures failed { IfErr result (λ e. e.1 ≡ OpenFault.DiskFault → (D.seen e.0).faults ≡ raised (D.seen disk).faults) }
        ensures unfailed_err { IfErr result (λ e. e.1 ≢ OpenFault.DiskFault → (D.seen e.0).faults ≡ (D.seen disk).faults) }
    {
        match begin(&mut disk) {
            Ok(opened) => Ok(Journal {
                disk,
                version: opened.version,
                gate: FIRST_GATE,
                len: opened.len,
                ahead: Ahead::new(alloc),
                payload_place: 0,
                payload_len: 0,
                buffer: Vec::new(alloc),
                phase: Phase::Reading,
            }),
            Err(fault) => Err((disk, fault)),
        }
    }

    /// The version of the file's format, 1 or 2.
    pub fn version(&self) -> u8
        ensures value { result ≡ version_of self.now }
        ensures known { IsVersion result }
    {
        self.version
    }

    /// Takes the next record, whose payload `payload` gives then, and tells whether there was one.
    #[inline(always)]
    pub fn next(&mut self) -> Result<bool, TakeFault>
        requires { IsReading D.seen self.old }
        ensures reading { IsReading D.seen self.new }
        ensures taken { IfOk result (λ more. IfSome (D.seen (disk_of self.old)).contents (λ file. MatchBool more
            (payloads_from file (gate_of self.old) ≡ payload_of self.new ∷ payloads_from file (gate_of self.new))
            (payloads_from file (gate_of self.old) ≡ []))) }
        ensures short { result ≡ Ok true → length (payload_of self.new) ≤ MAX_PAYLOAD }
        ensures advance { result ≡ Ok true → gate_of self.new ≡ gate_of self.old + 5 + length (payload_of self.new) }
        ensures ended { IfOk result (λ more. more ≡ false → HasEnded D.seen self.new) }
        ensures too_long { IfErr result (λ e. (place : ℕ) → e ≡ TakeFault.TooLong place → (place ≡ gate_of self.old)
            × IfSome (D.seen (disk_of self.old)).contents (λ file. NextIsLonger MAX_PAYLOAD file place)) }
        ensures stays { result ≢ Ok true → gate_of self.new ≡ gate_of self.old }
        ensures version { version_of self.new ≡ version_of self.old }

        ensures contents { (D.seen (disk_of self.new)).contents ≡ (D.seen (disk_of self.old)).contents }
        ensures images { SameImages (D.seen (disk_of self.old)).images (D.seen (disk_of self.new)).images }
        ensures run { LeavesOnly (D.seen (disk_of self.old)) (D.seen (disk_of self.new)) (D.seen (disk_of self.old)).images }
        ensures failed { IsErrOf result TakeFault.DiskFault → (D.seen (disk_of self.new)).faults ≡ raised (D.seen (disk_of self.old)).faults }
        ensures unfailed { result ≢ Err TakeFault.DiskFault → (D.seen (disk_of self.new)).faults ≡ (D.seen (disk_of self.old)).faults }
    {
        self.ahead
            .bring(&mut self.disk, self.gate, HEADER as usize)?;
        let left = self.len.saturating_sub(self.gate);
        let header = self.ahead.bytes_at(self.gate, HEADER as usize);
        let Some(len) = whole_len(header, left) else {
            self.phase = Phase::Ended;
            return Ok(false);
        };
        if len > MAX_PAYLOAD {
            return Err(TakeFault::TooLong(self.gate));
        }
        let place = self.gate + HEADER;
        let size = len as usize;
        self.ahead.bring(&mut self.disk, place, size)?;
        // A disk that tells its content reads whole here. A real file may have got shorter since its length was taken: then
        // the record doesn't lie within it, and doesn't count. No clause can say so, since no clause speaks of a real file.
        if self.ahead.bytes_at(place, size).len() < size {
            self.phase = Phase::Ended;
            return Ok(false);
        }
        self.payload_place = place;
        self.payload_len = size;
        self.gate += HEADER + len;
        self.phase = Phase::Reading;
        Ok(true)
    }

    /// The place of the gate that comes next.
    pub fn gate(&self) -> u64
        ensures value { result ≡ gate_of self.now }
        ensures small { result < 2 ^ 63 }
    {
        self.gate
    }

    /// The payload that `next` has taken.
    pub fn payload(&self) -> &[u8]
        ensures { result.now ≡ payload_of self.now }
    {
        self.ahead.bytes_at(self.payload_place, self.payload_len)
    }

    /// Goes back before the first record, which `next` takes then.
    pub fn rewind(&mut self)
        requires { IsReading D.seen self.old }
        ensures reading { IsReading D.seen self.new }
        ensures gate { gate_of self.new ≡ 8 }
        ensures all { IfSome (D.seen (disk_of self.new)).contents (λ file. payloads_from file 8 ≡ counted file) }
        ensures version { version_of self.new ≡ version_of self.old }
        ensures disk { disk_of self.new ≡ disk_of self.old }
    {
        self.gate = FIRST_GATE;
        self.phase = Phase::Reading;
    }

    /// Goes on to a gate that a walk has passed, whose record `next` takes then. None of the records before it is read.
    pub fn go_to(&mut self, gate: u64)
        requires reading { IsReading D.seen self.old }
        requires leads { IfSome (D.seen (disk_of self.old)).contents (λ file. (ps : List (List ℕ)) × (qs : List (List ℕ))
            × LeadTo file (gate_of self.old) ps gate qs) }
        requires small { gate < 2 ^ 63 }
        ensures reading { IsReading D.seen self.new }
        ensures gate { gate_of self.new ≡ gate }
        ensures left { IfSome (D.seen (disk_of self.old)).contents (λ file. (ps qs : List (List ℕ)) → LeadTo file (gate_of self.old) ps gate qs
            → payloads_from file gate ≡ qs) }
        ensures version { version_of self.new ≡ version_of self.old }
        ensures disk { disk_of self.new ≡ disk_of self.old }
    {
        self.gate = gate;
        self.phase = Phase::Reading;
    }

    /// Takes away what stands behind the last whole record, and closes the gate there. After a fault, open the file again.
    pub fn mend(&mut self) -> Result<(), DiskFault>
        requires { HasEnded D.seen self.old }
        ensures closed { OnOk result (IsClosed D.seen self.new) }
        ensures broken { OnErr result (IsBroken self.new) }
        ensures same { OnOk result (told_payloads (D.seen (disk_of self.new)).contents ≡ told_payloads (D.seen (disk_of self.old)).contents) }
        ensures bytes { OnOk result ((D.seen (disk_of self.new)).contents
            ≡ option_map (shut_at (gate_of self.old)) (D.seen (disk_of self.old)).contents) }
        ensures gate { gate_of self.new ≡ gate_of self.old }
        ensures version { version_of self.new ≡ version_of self.old }
        ensures only { OnOk result (Only (D.seen (disk_of self.new)).contents (D.seen (disk_of self.new)).images) }
        ensures images { LeavesAfter (D.seen (disk_of self.old)) (D.seen (disk_of self.new)) SamePayloads }
        ensures room { (n : ℕ) → HasRoomFor self.old n → HasRoomFor self.new n }
        ensures cause { HasCause (D.seen (disk_of self.old)).faults (D.seen (disk_of self.new)).faults result }
    {
        self.phase = Phase::Broken;
        cut_synced(&mut self.disk, self.gate + 1)?;
        write_gate(&mut self.disk, self.gate, 0)?;
        self.phase = Phase::Closed;
        Ok(())
    }

    /// Makes room for a payload of so many bytes. The payload that was taken stays.
    pub fn reserve(&mut self, n: usize) -> Result<(), NoMemory>
        ensures room { OnOk result (HasRoomFor self.new n) }
        ensures disk { disk_of self.new ≡ disk_of self.old }
        ensures gate { gate_of self.new ≡ gate_of self.old }
        ensures version { version_of self.new ≡ version_of self.old }
        ensures payload { payload_of self.new ≡ payload_of self.old }
        ensures reading { IsReading D.seen self.old → IsReading D.seen self.new }
        ensures ended { HasEnded D.seen self.old → HasEnded D.seen self.new }
        ensures closed { IsClosed D.seen self.old → IsClosed D.seen self.new }
    {
        // If the sum passes the last number there is no such room.
        self.buffer.reserve(n.saturating_add(5))?;
        Ok(())
    }

    /// Adds a payload. At `Ok` it is acknowledged: from then on each crash leaves a file that has it.
    /// After a fault, open the file again. Payloads of a batch that wait are let go.
    pub fn append(&mut self, payload: &[u8]) -> Result<(), DiskFault>
        requires closed { IsClosed D.seen self.old }
        requires short { length payload.now ≤ MAX_PAYLOAD }
        requires room { HasRoomFor self.old (length payload.now) }
        ensures closed { OnOk result (IsClosed D.seen self.new) }
        ensures tells { is_some (D.seen (disk_of self.new)).contents ≡ is_some (D.seen (disk_of self.old)).contents }
        ensures broken { OnErr result (IsBroken self.new) }
        ensures room { (n : ℕ) → HasRoomFor self.old n → HasRoomFor self.new n }
        ensures added { OnOk result (IfSome (D.seen (disk_of self.old)).contents (λ file.
            told_payloads (D.seen (disk_of self.new)).contents ≡ told_payloads (D.seen (disk_of self.old)).contents ++ payload.now ∷ [])) }
        ensures bytes { OnOk result ((D.seen (disk_of self.new)).contents
            ≡ option_map (with_payload (gate_of self.old) payload.now) (D.seen (disk_of self.old)).contents) }
        ensures gate { OnOk result (gate_of self.new ≡ gate_of self.old + 5 + length payload.now) }
        ensures version { version_of self.new ≡ version_of self.old }
        ensures only { OnOk result (Only (D.seen (disk_of self.new)).contents (D.seen (disk_of self.new)).images) }

        // A crash at any moment of the call leaves the payloads from before it, with the new one or without.
        ensures images { LeavesAfter (D.seen (disk_of self.old)) (D.seen (disk_of self.new)) (PerhapsAdded payload.now) }
        ensures cause { HasCause (D.seen (disk_of self.old)).faults (D.seen (disk_of self.new)).faults result }
    {
        self.buffer.clear();
        put_record(&mut self.buffer, payload);
        self.append_all()
    }

    /// Lets go of the payloads that the batch has, and begins another, of none. Its memory is kept.
    pub fn begin_batch(&mut self)
        ensures batch { IsBatch self.new }
        ensures none { batch_of self.new ≡ [] }
        ensures room { (n : ℕ) → HasRoomFor self.old n → HasRoomFor self.new n }
        ensures disk { disk_of self.new ≡ disk_of self.old }
        ensures gate { gate_of self.new ≡ gate_of self.old }
        ensures version { version_of self.new ≡ version_of self.old }
        ensures closed { IsClosed D.seen self.old → IsClosed D.seen self.new }
    {
        self.buffer.clear();
    }

    /// Puts a payload behind those of the batch, in memory alone. If there is no memory, the batch stays.
    pub fn put(&mut self, payload: &[u8]) -> Result<(), NoMemory>
        requires batch { IsBatch self.old }
        requires short { length payload.now ≤ MAX_PAYLOAD }
        ensures batch { IsBatch self.new }
        ensures put { OnOk result (batch_of self.new ≡ batch_of self.old ++ payload.now ∷ []) }
        ensures same { OnErr result (batch_of self.new ≡ batch_of self.old) }
        ensures room { (n : ℕ) → HasRoomFor self.old n → HasRoomFor self.new n }
        ensures disk { disk_of self.new ≡ disk_of self.old }
        ensures gate { gate_of self.new ≡ gate_of self.old }
        ensures version { version_of self.new ≡ version_of self.old }
        ensures closed { IsClosed D.seen self.old → IsClosed D.seen self.new }
    {
        self.buffer.reserve(payload.len().saturating_add(5))?;
        put_record(&mut self.buffer, payload);
        Ok(())
    }

    /// Adds the payloads of the batch together, by the calls of the disk that add one. At `Ok` all are acknowledged: from then on each crash
    /// leaves a file that has them. After a fault, open the file again.
    pub fn append_all(&mut self) -> Result<(), DiskFault>
        requires closed { IsClosed D.seen self.old }
        requires batch { IsBatch self.old }
        requires some { batch_of self.old ≢ [] }
        ensures closed { OnOk result (IsClosed D.seen self.new) }
        ensures tells { is_some (D.seen (disk_of self.new)).contents ≡ is_some (D.seen (disk_of self.old)).contents }
        ensures broken { OnErr result (IsBroken self.new) }
        ensures room { (n : ℕ) → HasRoomFor self.old n → HasRoomFor self.new n }
        ensures added { OnOk result (IfSome (D.seen (disk_of self.old)).contents (λ file.
            told_payloads (D.seen (disk_of self.new)).contents ≡ told_payloads (D.seen (disk_of self.old)).contents ++ batch_of self.old)) }
        ensures bytes { OnOk result ((D.seen (disk_of self.new)).contents
            ≡ option_map (with_payloads (gate_of self.old) (batch_of self.old)) (D.seen (disk_of self.old)).contents) }
        ensures gate { OnOk result (gate_of self.new ≡ gate_of self.old + length (records (batch_of self.old))) }
        ensures version { version_of self.new ≡ version_of self.old }
        ensures only { OnOk result (Only (D.seen (disk_of self.new)).contents (D.seen (disk_of self.new)).images) }

        // A crash at any moment of the call leaves the payloads from before it, with all of the batch or with none.
        ensures images { LeavesAfter (D.seen (disk_of self.old)) (D.seen (disk_of self.new))
            (PerhapsAllAdded (batch_of self.old)) }
        ensures cause { HasCause (D.seen (disk_of self.old)).faults (D.seen (disk_of self.new)).faults result }
    {
        self.phase = Phase::Broken;
        write_synced(&mut self.disk, self.gate + 1, &self.buffer)?;
        write_gate(&mut self.disk, self.gate, 1)?;
        self.gate += self.buffer.len() as u64;
        self.phase = Phase::Closed;
        Ok(())
    }

    /// Ends the journal, writes nothing, and gives the disk back.
    pub fn close(self) -> D
        ensures { result ≡ disk_of self }
    {
        let Journal {
            disk,
            version: _,
            gate: _,
            len: _,
            ahead: _,
            payload_place: _,
            payload_len: _,
            buffer: _,
            phase: _,
        } = self;
        disk
    }
}

/// The law of reading back: what counts in the bytes of payloads is those payloads, up to the last gate.
pub fn reads_back()
    ensures payloads { (v : ℕ) (ps : List (List ℕ)) → IsVersion v → AreShort ps → counted (journal_bytes v ps) ≡ ps }
    ensures gate { (v : ℕ) (p : List ℕ) (ps : List (List ℕ)) → IsVersion v → AreShort (p ∷ ps)
        → found (journal_bytes v (p ∷ ps)) ≡ finding.Holds (p ∷ ps) (length (journal_bytes v (p ∷ ps)) - 1) }
    ensures fresh { (v : ℕ) → found (journal_bytes v []) ≡ finding.Fresh }
    ensures version { (v : ℕ) (ps : List (List ℕ)) → IsVersion v → version_told (journal_bytes v ps) ≡ Some v }
{}

/// The law of places: records are as long as their payloads and five bytes for each together.
pub fn records_are_a_sum()
    ensures { (ps : List (List ℕ)) → length (records ps) ≡ sum_by (λ p. 5 + length p) ps }
{}

// The length of the payload of the record at the front of so many bytes, of which these are the first five,
// if the record counts.
fn whole_len(header: &[u8], left: u64) -> Option<u64>
    ensures counts { (bytes : List ℕ) → header.now ≡ take 5 bytes → left ≡ length bytes
        → MatchOption result (counts bytes ≡ false) (λ n. (counts bytes ≡ true) × (n ≡ length_told bytes)) }
    ensures short { IfSome result (λ n. n < 2 ^ 32) }
    ensures within { IfSome result (λ n. 5 + n < left) }
{
    if header.len() < 5 || header[0] != 1 {
        return None;
    }
    let len = u64::from(u32::from_be_bytes([header[1], header[2], header[3], header[4]]));
    if HEADER + len < left { Some(len) } else { None }
}

// Puts one more record behind those of a batch: the gate there is opened, and the record's own bytes come behind it. The first record's gate is
// not among the bytes.
fn put_record(buffer: &mut Vec<u8>, payload: &[u8])
    requires short { length payload.now < 2 ^ 32 }
    requires room { vec_len buffer.old + length payload.now + 5 ≤ vec_capacity buffer.old }
    ensures put { (ps : List (List ℕ)) → buffer.old.items ≡ batch_bytes ps → buffer.new.items ≡ batch_bytes (ps ++ payload.now ∷ []) }
    ensures room { vec_capacity buffer.old ≤ vec_capacity buffer.new }
{
    open_last(buffer);
    stage(buffer, payload);
}

// Opens the last gate, if there is one.
fn open_last(buffer: &mut Vec<u8>)
    ensures none { buffer.old.items ≡ [] → buffer.new.items ≡ [] }
    ensures opened { (front : List ℕ) → buffer.old.items ≡ front ++ 0 ∷ [] → buffer.new.items ≡ front ++ 1 ∷ [] }
    ensures len { vec_len buffer.new ≡ vec_len buffer.old }
    ensures room { vec_capacity buffer.old ≤ vec_capacity buffer.new }
{
    if buffer.pop().is_some() {
        buffer.push(1).unwrap();
    }
}

// What stands behind a gate: the length, the payload, and the next gate, closed.
fn stage(buffer: &mut Vec<u8>, payload: &[u8])
    requires short { length payload.now < 2 ^ 32 }
    requires room { vec_len buffer.old + length payload.now + 5 ≤ vec_capacity buffer.old }
    ensures staged { buffer.new.items ≡ buffer.old.items ++ to_be_bytes w32 (length payload.now) ++ payload.now ++ 0 ∷ [] }
    ensures room { vec_capacity buffer.old ≤ vec_capacity buffer.new }
{
    buffer
        .extend_from_slice(&(payload.len() as u32).to_be_bytes())
        .unwrap();
    buffer.extend_from_slice(payload).unwrap();
    buffer.extend_from_slice(&[0]).unwrap();
}
