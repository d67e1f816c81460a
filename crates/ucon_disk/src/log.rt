//! What a disk in memory keeps: its bytes, and a record of all calls.

ghost use Rattle.std.specs.Prelude.{◌≡◌, ◌+◌, ◌≤◌, ◌<◌, ◌^◌, true, [], List, ℕ, length, take, IfOk, OnOk, OnErr};
ghost use Rattle.ucon_disk.specs.Disk.{overwritten};
ghost use Rattle.ucon_disk.specs.Image.{step, wrote, cut_to};
ghost use Rattle.ucon_disk.specs.History.{recorded, state_now};
ghost use Rattle.ucon_disk.specs.Started.{start_of};

use crate::replay::{Replay, overwrite};
use std::alloc::Global;
use std::marker::Model;
use ucon_base::NoMemory;

/// A call, and whether it succeeded.
#[derive(Drop)]
pub(crate) enum Call {
    Look,
    Write(usize, Vec<u8>, bool),
    Cut(usize, bool),
    Sync(bool),
}

#[derive(Drop)]
pub(crate) struct Log {
    alloc: Global,
    bytes: Vec<u8>,
    /// The bytes at first, once a call has changed them.
    first: Option<Vec<u8>>,
    calls: Vec<Call>,
}

impl Model for Log {
    ghost use Rattle.std.specs.Prelude.{◌≡◌};
    ghost use Rattle.ucon_disk.specs.History.{History, state_now};
    ghost use Rattle.ucon_disk.specs.Recorded.{history_recorded};

    ghost Value = { History };

    ghost view = { λ l. history_recorded l.first l.bytes.items l.calls.items };

    ghost invariant = { λ l. (state_now (history_recorded l.first l.bytes.items l.calls.items)).file ≡ l.bytes.items };
}

impl Log {
    ghost use Rattle.ucon_disk.specs.Recorded.{change_of};
    ghost use Rattle.ucon_disk.specs.Replayed.{state_of};

    /// Begins with these bytes at rest, and no calls.
    pub fn new(alloc: Global, bytes: Vec<u8>) -> Log
        ensures { result ≡ record { start = bytes.items; changes = [] } }
    {
        Log {
            alloc,
            bytes,
            first: None,
            calls: Vec::new(alloc),
        }
    }

    /// Gives the bytes of the file after all calls, fewer than 2^63.
    pub fn bytes(&self) -> &[u8]
        ensures file { result.now ≡ (state_now self.now).file }
        ensures small { length result.now < 2 ^ 63 }
    {
        &self.bytes
    }

    /// How many calls are recorded.
    pub fn len(&self) -> u64
        ensures { result ≡ length self.now.changes }
    {
        self.calls.len() as u64
    }

    /// Gives the allocator that the log takes its memory from.
    pub fn allocator(&self) -> Global {
        self.alloc
    }

    /// The model's state now, by all calls from the first on.
    pub fn replayed(&self) -> Result<Replay, NoMemory>
        ensures { IfOk result (λ replay. state_of replay ≡ state_now self.now) }
    {
        let mut replay = match &self.first {
            Some(first) => Replay::start(self.alloc, first)?,
            None => Replay::start(self.alloc, &self.bytes)?,
        };
        for call in &self.calls {
            replay.apply(self.alloc, call)?;
        }
        Ok(replay)
    }

    /// Records a call that leaves the bytes as they are.
    pub fn note(&mut self, call: Call) -> Result<(), NoMemory>
        requires { (step (state_now self.old) (change_of call)).file ≡ (state_now self.old).file }
        ensures ok { OnOk result (self.new ≡ recorded self.old (change_of call)) }
        ensures err { OnErr result (self.new ≡ self.old) }
    {
        self.calls.push(call)?;
        Ok(())
    }

    /// Records a cut, and does it if it is to succeed. What can find no memory comes first.
    pub fn cut(&mut self, len: usize, done: bool) -> Result<(), NoMemory>
        ensures ok { OnOk result (self.new ≡ recorded self.old (cut_to len done)) }
        ensures err { OnErr result (self.new ≡ self.old) }
    {
        if !done {
            return self.note(Call::Cut(len, false));
        }
        keep_first(self.alloc, &mut self.first, &self.bytes)?;
        self.calls.push(Call::Cut(len, true))?;
        self.bytes.truncate(len);
        Ok(())
    }

    /// Records a write, and does it if it is to succeed. What can find no memory comes first.
    pub fn write(&mut self, at: usize, bytes: &[u8], done: bool) -> Result<(), NoMemory>
        requires { at ≤ length (state_now self.old).file }
        ensures ok { OnOk result (self.new ≡ recorded self.old (wrote at bytes.now done)) }
        ensures small { OnOk result (done ≡ true → at + length bytes.now < 2 ^ 63) }
        ensures err { OnErr result (self.new ≡ self.old) }
    {
        let copy = bytes.to_vec(self.alloc)?;
        if !done {
            return self.note(Call::Write(at, copy, false));
        }
        self.calls.reserve(1)?;
        keep_first(self.alloc, &mut self.first, &self.bytes)?;
        overwrite(&mut self.bytes, at, bytes)?;
        self.calls.push(Call::Write(at, copy, true))?;
        Ok(())
    }
}

fn keep_first(alloc: Global, first: &mut Option<Vec<u8>>, bytes: &[u8]) -> Result<(), NoMemory>
    ensures ok { OnOk result ((now : List ℕ) → start_of first.new now ≡ start_of first.old bytes.now) }
    ensures err { OnErr result (start_of first.new bytes.now ≡ start_of first.old bytes.now) }
{
    if first.is_none() {
        *first = Some(bytes.to_vec(alloc)?);
    }
    Ok(())
}
