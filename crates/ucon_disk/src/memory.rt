//! A disk in memory that keeps a record of its calls, so that a crash may leave all that the model allows.

ghost use Rattle.std.specs.Prelude.{◌≡◌, ◌≢◌, ℕ, List, [], Some, length, IfOk, IfSome, IfNone};
ghost use Rattle.std.specs.Option.{option_map};
ghost use Rattle.ucon_disk.specs.Disk.{Reads};
ghost use Rattle.ucon_disk.specs.Image.{IsImage, image_of};
ghost use Rattle.ucon_disk.specs.History.{state_now, IsImageSince};
ghost use Rattle.ucon_disk.specs.Moments.{image_since, image_now, image_earlier};

use crate::log::{Call, Log};
use crate::plan::Plan;
use crate::{Disk, Failed};
use std::alloc::Global;
use ucon_base::NoMemory;

/// A disk in memory, with all calls since it was made and the plan by which calls fail.
#[derive(Drop)]
pub struct MemDisk {
    log: Log,
    plan: Plan,
    ghost sound: { IsImage (state_now log) (state_now log).file },
}

impl MemDisk {
    ghost use Rattle.ucon_disk.specs.MemDisk.{history_of, bytes_of, model_of, short_of, IsFresh};

    /// A disk with these bytes, all of them synced. The calls whose numbers, from 0, stand in `faults` fail,
    /// and after `stop_after` calls all do.
    pub fn new(
        alloc: Global,
        contents: Vec<u8>,
        faults: Vec<u64>,
        stop_after: Option<u64>,
    ) -> MemDisk
        ensures history { history_of result ≡ record { start = contents.items; changes = [] } }
        ensures plan { IsFresh result faults.items stop_after }
    {
        MemDisk {
            log: Log::new(alloc, contents),
            plan: Plan {
                failing: faults,
                stop_after,
                number: 0,
                faults: 0,
                short: 0,
            },
        }
    }

    /// The bytes as read.
    pub fn contents(&self) -> &[u8]
        ensures { result.now ≡ bytes_of self.now }
    {
        self.log.bytes()
    }

    /// The moment: how many calls are recorded.
    pub fn moment(&self) -> u64
        ensures { result ≡ length (history_of self.now).changes }
    {
        self.log.len()
    }

    /// How often a call found no memory.
    pub fn short(&self) -> u64
        ensures { result ≡ short_of self.now }
    {
        self.plan.short
    }

    /// An image: these bytes in order in its open places, and 0 past their end. None if no image has
    /// this length. It goes through all calls since the disk was made.
    pub fn image(&self, len: u64, fill: &[u8]) -> Result<Option<Vec<u8>>, NoMemory>
        ensures image { IfOk result (λ image. option_map (λ v. v.items) image ≡ image_of (model_of self.now) len fill.now) }
        ensures is_image { IfOk result (λ image. IfSome image (λ v. IsImage (model_of self.now) v.items × (length v.items ≡ len))) }
        ensures none { IfOk result (λ image. IfNone image ((c : List ℕ) → IsImage (model_of self.now) c → length c ≢ len)) }
        // Each image is one that some bytes give.
        ensures every { (c : List ℕ) → IsImage (model_of self.now) c → (f : List ℕ) × (image_of (model_of self.now) (length c) f ≡ Some c) }
    {
        self.log
            .replayed()?
            .image(self.log.allocator(), len as usize, fill)
    }
}

impl Disk for MemDisk {
    ghost use Rattle.ucon_disk.specs.MemDisk.{Makes};

    ghost seen = { λ d. record {
      contents = Some (state_now d.log).file;
      images = IsImage (state_now d.log);
      moment = length d.log.changes;
      images_since = IsImageSince d.log;
      faults = d.plan.faults;
    } };

    ghost makes = { Makes };

    ghost as_read = { λ d. d.sound };

    ghost counts_now = { λ d t c le image. image_since d.log t c le image };

    ghost only_now = { λ d c since. image_now d.log c since };

    ghost since_earlier = { λ d t u c le within since. image_earlier d.log t u c le since };

    fn len(&mut self) -> Result<u64, Failed> {
        let done = self.plan.begin();
        let kept = self.log.note(Call::Look);
        self.plan.end(done, kept)?;
        Ok(self.log.bytes().len() as u64)
    }

    fn read_at(&mut self, at: u64, buf: &mut [u8]) -> Result<usize, Failed> {
        let done = self.plan.begin();
        let kept = self.log.note(Call::Look);
        self.plan.end(done, kept)?;
        Ok(read(self.log.bytes(), at as usize, buf))
    }

    fn write_at(&mut self, at: u64, bytes: &[u8]) -> Result<(), Failed> {
        let done = self.plan.begin();
        let kept = self.log.write(at as usize, bytes, done);
        self.plan.end(done, kept)
    }

    fn cut(&mut self, len: u64) -> Result<(), Failed> {
        let done = self.plan.begin();
        let kept = self.log.cut(len as usize, done);
        self.plan.end(done, kept)
    }

    fn sync(&mut self) -> Result<(), Failed> {
        let done = self.plan.begin();
        let kept = self.log.note(Call::Sync(done));
        self.plan.end(done, kept)
    }
}

// Puts the bytes from a place on into the front of a buffer.
fn read(file: &[u8], at: usize, buf: &mut [u8]) -> usize
    ensures { Reads file.now at result buf.new }
{
    let rest = match file.get(at..) {
        Some(rest) => rest,
        None => &[],
    };
    let n = rest.len().min(buf.len());
    buf[..n].copy_from_slice(&rest[..n]);
    n
}
