//! The state of the disk model, made from the record of the calls.

ghost use Rattle.std.specs.Prelude.{◌≡◌, ◌+◌, ◌≤◌, ◌<◌, ℕ, suc, true, ◌∷◌, length, OnOk, OnErr, IfOk};
ghost use Rattle.std.specs.Option.{option_map};
ghost use Rattle.ucon_disk.specs.Disk.{overwritten};
ghost use Rattle.ucon_disk.specs.Image.{at_rest, step, wrote, covers, is_touched, is_settled, filled, image_of};
ghost use Rattle.ucon_disk.specs.Recorded.{change_of};

use crate::log::Call;
use std::alloc::Global;
use ucon_base::NoMemory;

#[derive(Drop)]
pub(crate) struct Replay {
    file: Vec<u8>,
    synced: Vec<u8>,
    least: usize,
    /// A write that failed may have ended past what a `usize` counts.
    greatest: u128,
    /// The ranges that writes touched since the last sync that succeeded.
    touched: Vec<(usize, usize)>,
}

impl Replay {
    ghost use Rattle.ucon_disk.specs.Replayed.{state_of};

    /// A disk with these bytes, at rest.
    pub fn start(alloc: Global, bytes: &[u8]) -> Result<Replay, NoMemory>
        ensures { IfOk result (λ replay. state_of replay ≡ at_rest bytes.now) }
    {
        Ok(Replay {
            file: bytes.to_vec(alloc)?,
            synced: bytes.to_vec(alloc)?,
            least: bytes.len(),
            greatest: bytes.len() as u128,
            touched: Vec::new(alloc),
        })
    }

    /// Goes on by one call, as the disk model does. `Err` if there is no memory.
    pub fn apply(&mut self, alloc: Global, call: &Call) -> Result<(), NoMemory>
        ensures { OnOk result (state_of self.new ≡ step (state_of self.old) (change_of call.now)) }
    {
        match call {
            Call::Look => Ok(()),
            Call::Write(at, bytes, done) => self.write(*at, bytes, *done),
            Call::Cut(len, done) => {
                self.least = self.least.min(*len);
                if *done {
                    self.file.truncate(*len);
                }
                Ok(())
            }
            Call::Sync(done) => {
                if *done {
                    *self = Replay::start(alloc, &self.file)?;
                }
                Ok(())
            }
        }
    }

    fn write(&mut self, at: usize, bytes: &[u8], done: bool) -> Result<(), NoMemory>
        ensures { OnOk result (state_of self.new ≡ step (state_of self.old) (wrote at bytes.now done)) }
    {
        let end = at as u128 + bytes.len() as u128;
        self.greatest = self.greatest.max(end);
        self.touched.push((at, bytes.len()))?;
        if done {
            overwrite(&mut self.file, at, bytes)?;
        }
        Ok(())
    }

    /// Whether a crash leaves the place as it was synced.
    fn is_settled(&self, place: usize) -> bool
        ensures settled { result ≡ is_settled (state_of self.now) place }
        ensures within { result ≡ true → place < length (state_of self.now).synced }
    {
        place < self.synced.len() && !is_touched(&self.touched, place)
    }

    /// The image of a length whose open places hold these bytes in order, and 0 past their end.
    pub fn image(&self, alloc: Global, len: usize, fill: &[u8]) -> Result<Option<Vec<u8>>, NoMemory>
        ensures { IfOk result (λ image. option_map (λ v. v.items) image ≡ image_of (state_of self.now) len fill.now) }
    {
        if len < self.least || self.greatest < len as u128 {
            return Ok(None);
        }
        let mut image = Vec::new(alloc);
        let mut rest = fill;
        for place in 0..len {
            let (byte, after) = self.byte(place, rest);
            image.push(byte)?;
            rest = after;
        }
        Ok(Some(image))
    }

    /// The byte of a place, and the filling bytes that are left after it.
    fn byte<'a>(&self, place: usize, rest: &'a [u8]) -> (u8, &'a [u8])
        ensures { (n : ℕ) → filled (state_of self.now) place (suc n) rest.now ≡ result.0 ∷ filled (state_of self.now) (place + 1) n result.1.now }
    {
        if self.is_settled(place) {
            return (self.synced[place], rest);
        }
        match rest {
            [first, after @ ..] => (*first, after),
            [] => (0, rest),
        }
    }
}

fn is_touched(ranges: &[(usize, usize)], place: usize) -> bool
    ensures { result ≡ is_touched ranges.now place }
{
    ranges.iter().any(|range| covers(place, *range))
}

fn covers(place: usize, range: (usize, usize)) -> bool
    ensures { result ≡ covers place range }
{
    range.0 <= place && place - range.0 < range.1
}

/// Writes over what is there, and past the end: all of it or, if there is no memory, nothing.
pub(crate) fn overwrite(file: &mut Vec<u8>, at: usize, bytes: &[u8]) -> Result<(), NoMemory>
    ensures ok { OnOk result (file.new.items ≡ overwritten at bytes.now file.old.items) }
    ensures err { OnErr result (file.new.items ≡ file.old.items) }
{
    let start = at.min(file.len());
    let inside = bytes.len().min(file.len() - start);
    let (over, past) = bytes.split_at(inside);
    file.extend_from_slice(past)?;
    file[start..start + inside].copy_from_slice(over);
    Ok(())
}
