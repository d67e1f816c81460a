//! A voice in memory, which notes what it held by which moment.

ghost use Rattle.std.specs.Prelude.{◌≡◌, ◌<◌, [], ◌++◌, Some, IfOk, OnOk, OnErr};
ghost use Rattle.ucon_tell.specs.Noted.{HasNoted, IsNoted};

use crate::{Keeper, Voice};
use std::alloc::Global;
use ucon_base::NoMemory;
use ucon_flow::Failed;

/// A keeper that can say at which moment its disk is.
pub trait Clocked: Keeper {
    /// Gives the moment of the keeper's disk.
    fn moment(&self) -> u64
        ensures { result ≡ (Self.seen self.now).moment };
}

/// That a voice held these bytes by this moment of a keeper's disk.
#[derive(Drop)]
pub struct Note {
    pub bytes: Vec<u8>,
    pub moment: u64,
}

/// A voice in memory. It takes at most `piece` bytes a call, and fails if it finds no memory. After each call it notes what it holds, by the
/// moment of the keeper's disk. So what it told is known, and a test can hold it against what a crash leaves.
#[derive(Drop)]
pub struct MemVoice {
    alloc: Global,
    bytes: Vec<u8>,
    notes: Vec<Note>,
    piece: usize,
    faults: u64,
    ghost some: { 0 < piece },
}

impl MemVoice {
    /// Begins with no bytes and no notes. It takes at most `piece` bytes in a call, which is at least 1.
    pub fn new(alloc: Global, piece: usize) -> MemVoice
        requires { 0 < piece }
        ensures bytes { result.bytes.items ≡ [] }
        ensures notes { result.notes.items ≡ [] }
    {
        MemVoice {
            alloc,
            bytes: Vec::new(alloc),
            notes: Vec::new(alloc),
            piece,
            faults: 0,
        }
    }

    /// The bytes that it holds.
    pub fn bytes(&self) -> &[u8]
        ensures { result.now ≡ self.now.bytes.items }
    {
        &self.bytes
    }

    /// What it held by which moment, the earliest first.
    pub fn notes(&self) -> &[Note]
        ensures { result.now ≡ self.now.notes.items }
    {
        &self.notes
    }

    /// Takes the bytes, and notes all that it holds then.
    fn hold(&mut self, bytes: &[u8], moment: u64) -> Result<(), NoMemory>
        ensures bytes { OnOk result (self.new.bytes.items ≡ self.old.bytes.items ++ bytes.now) }
        ensures noted { OnOk result (HasNoted self.old.notes.items self.new.notes.items self.new.bytes.items moment) }
        ensures same { OnErr result ((self.new.bytes.items ≡ self.old.bytes.items) × (self.new.notes.items ≡ self.old.notes.items)) }
        ensures faults { self.new.faults ≡ self.old.faults }
        ensures piece { self.new.piece ≡ self.old.piece }
    {
        let held = together(self.alloc, &self.bytes, bytes)?;
        self.notes.reserve(1)?;
        self.bytes.extend_from_slice(bytes)?;
        self.notes.push(Note {
            bytes: held,
            moment,
        })?;
        Ok(())
    }
}

/// Some bytes and others behind them.
fn together(alloc: Global, first: &[u8], rest: &[u8]) -> Result<Vec<u8>, NoMemory>
    ensures { IfOk result (λ all. all.items ≡ first.now ++ rest.now) }
{
    let mut all = Vec::new(alloc);
    all.extend_from_slice(first)?;
    all.extend_from_slice(rest)?;
    Ok(all)
}

impl<K: Clocked> Voice<K> for MemVoice {
    ghost seen = { λ v. record { contents = Some v.bytes.items; faults = v.faults; told = IsNoted v.notes.items } };

    fn write(&mut self, bytes: &[u8], keeper: &K) -> Result<usize, Failed> {
        let n = self.piece.min(bytes.len());
        match self.hold(&bytes[..n], keeper.moment()) {
            Ok(()) => Ok(n),
            Err(_) => {
                self.faults = self.faults.saturating_add(1);
                Err(Failed)
            }
        }
    }
}
