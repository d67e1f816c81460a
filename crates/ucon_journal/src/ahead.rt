//! Bytes of a file that are read ahead.

ghost use Rattle.std.specs.Prelude.{◌≡◌, ◌≢◌, ◌-◌, ◌≤◌, Err, IsTrue, IsErrOf, ℕ, List, max, min, take, drop, length, IfSome, OnOk, vec_capacity};
ghost use Rattle.ucon_disk.specs.Causes.{HasCause, raised};
ghost use Rattle.ucon_disk.specs.Disk.{Elapses, SameImages};
ghost use Rattle.ucon_journal.specs.Ahead.{IsPartOf, bytes_at};

use crate::fault::TakeFault;
use std::alloc::{AllocError, Global};
use ucon_disk::{Disk, Failed};

/// How many bytes are read at once, if no more are asked for.
const WINDOW: usize = 65_536;

/// Some bytes of a file, from a place on.
#[derive(Drop)]
pub struct Ahead {
    place: u64,
    bytes: Vec<u8>,
}

impl Ahead {
    /// No bytes.
    pub(crate) fn new(alloc: Global) -> Ahead
        ensures { (file : List ℕ) → IsPartOf result file }
    {
        Ahead {
            place: 0,
            bytes: Vec::new(alloc),
        }
    }

    /// Sees to it that so many bytes from a place on are there, as far as the file has them. The disk is called only if not all of them were
    /// read ahead.
    #[inline]
    pub(crate) fn bring<D: Disk>(
        &mut self,
        disk: &mut D,
        at: u64,
        n: usize,
    ) -> Result<(), TakeFault>
        requires { IfSome (D.seen disk.old).contents (IsPartOf self.old) }
        ensures part { IfSome (D.seen disk.new).contents (IsPartOf self.new) }
        ensures there { OnOk result (IfSome (D.seen disk.old).contents (λ file. bytes_at self.new at n ≡ take n (drop at file))) }
        ensures contents { (D.seen disk.new).contents ≡ (D.seen disk.old).contents }
        ensures images { SameImages (D.seen disk.old).images (D.seen disk.new).images }
        ensures time { Elapses (D.seen disk.old).moment (D.seen disk.new).moment
            (D.seen disk.old).images_since (D.seen disk.new).images_since (D.seen disk.new).images }
        ensures failed { IsErrOf result TakeFault.DiskFault → (D.seen disk.new).faults ≡ raised (D.seen disk.old).faults }
        ensures unfailed { result ≢ Err TakeFault.DiskFault → (D.seen disk.new).faults ≡ (D.seen disk.old).faults }
        ensures whole { (place : ℕ) → result ≢ Err (TakeFault.TooLong place) }
    {
        if self.has(at, n) {
            return Ok(());
        }
        let size = n.max(WINDOW);
        self.make_room(size)?;
        self.fill(disk, at, size)?;
        Ok(())
    }

    /// What was read ahead of so many bytes from a place on.
    #[inline]
    pub(crate) fn bytes_at(&self, at: u64, n: usize) -> &[u8]
        ensures { result.now ≡ bytes_at self.now at n }
    {
        let skipped = at.saturating_sub(self.place) as usize;
        let rest = match self.bytes.get(skipped..) {
            Some(rest) => rest,
            None => &[],
        };
        &rest[..n.min(rest.len())]
    }

    /// Whether so many bytes from a place on were read ahead.
    #[inline]
    fn has(&self, at: u64, n: usize) -> bool
        ensures place { IsTrue result → self.now.place ≤ at }
        ensures all { IsTrue result → n ≤ length self.now.bytes.items - (at - self.now.place) }
    {
        match at.checked_sub(self.place) {
            Some(skipped) => {
                let left = (self.bytes.len() as u64).saturating_sub(skipped);
                n as u64 <= left
            }
            None => false,
        }
    }

    /// Makes room for so many bytes.
    fn make_room(&mut self, size: usize) -> Result<(), AllocError>
        ensures room { OnOk result (size ≤ vec_capacity self.new.bytes) }
        ensures place { self.new.place ≡ self.old.place }
        ensures bytes { self.new.bytes.items ≡ self.old.bytes.items }
    {
        let more = size.saturating_sub(self.bytes.len());
        self.bytes.reserve(more)
    }

    /// Reads so many bytes from a place on, in the place of those that were there.
    #[inline(never)]
    fn fill<D: Disk>(&mut self, disk: &mut D, at: u64, size: usize) -> Result<(), Failed>
        requires { size ≤ vec_capacity self.old.bytes }
        ensures part { IfSome (D.seen disk.new).contents (IsPartOf self.new) }
        ensures place { OnOk result (self.new.place ≡ at) }
        ensures filled { OnOk result (IfSome (D.seen disk.old).contents (λ file. min size (length file - at) ≤ length self.new.bytes.items)) }
        ensures contents { (D.seen disk.new).contents ≡ (D.seen disk.old).contents }
        ensures images { SameImages (D.seen disk.old).images (D.seen disk.new).images }
        ensures time { Elapses (D.seen disk.old).moment (D.seen disk.new).moment
            (D.seen disk.old).images_since (D.seen disk.new).images_since (D.seen disk.new).images }
        ensures cause { HasCause (D.seen disk.old).faults (D.seen disk.new).faults result }
    {
        let Ok(()) = self.bytes.resize(size, 0) else {
            unreachable!()
        };
        match disk.read_at(at, &mut self.bytes) {
            Ok(got) => {
                self.bytes.truncate(got);
                self.place = at;
                Ok(())
            }
            Err(failed) => {
                self.bytes.clear();
                Err(failed)
            }
        }
    }
}
