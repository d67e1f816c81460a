//! Files that are read and written a part at a time, and loops that go on until all is done.

ghost use Rattle.std.specs.Prelude.{◌≡◌, ◌+◌, ◌^◌, ◌<◌, ◌≤◌, None, List, ℕ, length, take, Option, IfOk, IfSome, OnOk};
ghost use Rattle.std.specs.Option.{option_map};
ghost use Rattle.ucon_disk.specs.Disk.{overwritten, HasPlace, Reads, ReadsPart};

use std::fs::File;
use std::io;
use std::os::unix::fs::FileExt;

pub(crate) const MAX_END: u64 = (1 << 63) - 1;

/// A file that is read and written at places. A call may do a front part of what it is asked.
pub(crate) trait Parts {
    /// What it holds, if it tells.
    ghost contents: { Self → Option (List ℕ) };

    /// Puts bytes from a place on into the front of the buffer, and tells how many: none at the file's end, or into no room.
    fn read_part(&mut self, at: u64, buf: &mut [u8]) -> io::Result<usize>
        ensures bound { IfOk result (λ n. n ≤ length buf.new) }
        ensures bytes { IfOk result (λ n. IfSome (contents self.old) (λ file. ReadsPart file at n buf.new)) }
        ensures same { contents self.new ≡ contents self.old };

    /// Writes bytes from the front over what is there and past the end, and tells how many.
    fn write_part(&mut self, at: u64, bytes: &[u8]) -> io::Result<usize>
        requires { HasPlace (contents self.old) at (length bytes.now) }
        ensures bound { IfOk result (λ n. n ≤ length bytes.now) }
        ensures written { IfOk result (λ n. contents self.new ≡ option_map (overwritten at (take n bytes.now)) (contents self.old)) };
}

/// A real file tells nothing of what it holds.
impl Parts for File {
    ghost contents = { λ _. None };

    fn read_part(&mut self, at: u64, buf: &mut [u8]) -> io::Result<usize> {
        self.read_at(buf, at)
    }

    fn write_part(&mut self, at: u64, bytes: &[u8]) -> io::Result<usize> {
        self.write_at(bytes, at)
    }
}

/// Reads until the buffer is full or the file ends, so that fewer bytes mean the end.
pub(crate) fn read_whole<F: Parts>(file: &mut F, at: u64, buf: &mut [u8]) -> io::Result<usize>
    ensures bound { IfOk result (λ n. n ≤ length buf.new) }
    ensures reads { IfOk result (λ n. IfSome (F.contents file.old) (λ bytes. Reads bytes at n buf.new)) }
    ensures same { F.contents file.new ≡ F.contents file.old }
{
    let mut done = 0;
    while done < buf.len() {
        let place = at
            .checked_add(done as u64)
            .ok_or(io::ErrorKind::InvalidInput)?;
        let n = file.read_part(place, &mut buf[done..])?;
        if n == 0 {
            return Ok(done);
        }
        done += n;
    }
    Ok(done)
}

/// Writes all the bytes, whose range ends below 2^63. A file that takes none of some bytes has failed.
pub(crate) fn write_whole<F: Parts>(file: &mut F, at: u64, bytes: &[u8]) -> io::Result<()>
    requires { HasPlace (F.contents file.old) at (length bytes.now) }
    ensures small { OnOk result (at + length bytes.now < 2 ^ 63) }
    ensures written { OnOk result (F.contents file.new ≡ option_map (overwritten at bytes.now) (F.contents file.old)) }
{
    if at > MAX_END || bytes.len() as u64 > MAX_END - at {
        return Err(io::ErrorKind::InvalidInput.into());
    }
    let mut done = 0;
    while done < bytes.len() {
        let (_written, rest) = bytes.split_at(done);
        let n = file.write_part(at + done as u64, rest)?;
        if n == 0 {
            return Err(io::ErrorKind::WriteZero.into());
        }
        done += n;
    }
    Ok(())
}
