//! A disk over a real file: the edge of what is proved. No clause says what a real file keeps.

ghost use Rattle.std.specs.Prelude.{◌≡◌, ◌+◌, ◌^◌, ◌<◌, ◌≤◌, ⊤, None, length, MatchResult, IfOk, OnOk, IsErr};
ghost use Rattle.ucon_disk.specs.Causes.{HasCause, raised};

use crate::parts::{MAX_END, read_whole, write_whole};
use crate::{Disk, Failed};
use std::fs::{File, OpenFile, OpenOptions};
use std::io;
use std::path::Path;
use std::rt::Files;

/// A file at a path, which is opened, and made if it isn't there, at the first call.
#[derive(Drop)]
pub struct FileDisk<R> {
    rt: R,
    path: String,
    file: Option<File>,
    calls: u64,
    faults: u64,
}

impl<R: Files<File = File>> FileDisk<R> {
    ghost use Rattle.ucon_disk.specs.FileDisk.{file_faults};

    /// Gives a disk of which no call has failed yet. Its file is that of the path, and is opened at the first call.
    pub fn new(rt: R, path: String) -> FileDisk<R>
        ensures { file_faults result ≡ 0 }
    {
        FileDisk {
            rt,
            path,
            file: None,
            calls: 0,
            faults: 0,
        }
    }

    /// Counts a call, and opens the file if it isn't open.
    fn begin_call(&mut self) -> Result<(), Failed>
        ensures calls { self.new.calls ≡ raised self.old.calls }
        ensures later { self.old.calls ≤ self.new.calls }
        ensures cause { HasCause self.old.faults self.new.faults result }
    {
        self.calls = self.calls.saturating_add(1);
        if self.file.is_some() {
            return Ok(());
        }
        let file = counted(&mut self.faults, opened(&self.rt, self.path.as_str()))?;
        self.file = Some(file);
        Ok(())
    }
}

impl<R: Files<File = File>> Disk for FileDisk<R> {
    // A file tells nothing of its bytes. Its moment is how many calls were made, so if that stays, no call was.
    ghost seen = { λ d. record { contents = None; images = λ _. ⊤; moment = d.calls; images_since = λ _ _. ⊤; faults = d.faults } };

    ghost makes = { λ old new _ _. new.calls ≡ raised old.calls };

    ghost as_read = { λ d. tt };

    ghost counts_now = { λ d t c le image. tt };

    ghost only_now = { λ d c since. tt };

    ghost since_earlier = { λ d t u c le within since. tt };

    fn len(&mut self) -> Result<u64, Failed> {
        self.begin_call()?;
        let answer = match &self.file {
            Some(file) => measure(file),
            None => Err(not_open()),
        };
        counted(&mut self.faults, answer)
    }

    fn read_at(&mut self, at: u64, buf: &mut [u8]) -> Result<usize, Failed> {
        self.begin_call()?;
        let answer = match &mut self.file {
            Some(file) => read_whole(file, at, buf),
            None => Err(not_open()),
        };
        counted(&mut self.faults, answer)
    }

    fn write_at(&mut self, at: u64, bytes: &[u8]) -> Result<(), Failed> {
        self.begin_call()?;
        let answer = match &mut self.file {
            Some(file) => write_whole(file, at, bytes),
            None => Err(not_open()),
        };
        counted(&mut self.faults, answer)
    }

    fn cut(&mut self, len: u64) -> Result<(), Failed> {
        self.begin_call()?;
        let answer = match &self.file {
            Some(file) => file.set_len(len),
            None => Err(not_open()),
        };
        counted(&mut self.faults, answer)
    }

    fn sync(&mut self) -> Result<(), Failed> {
        self.begin_call()?;
        let answer = match &self.file {
            Some(file) => file.sync_data(),
            None => Err(not_open()),
        };
        counted(&mut self.faults, answer)
    }
}

fn counted<T>(faults: &mut u64, answer: io::Result<T>) -> Result<T, Failed>
    ensures value { MatchResult result (λ v. answer ≡ Ok v) (λ _. IsErr answer) }
    ensures cause { HasCause faults.old faults.new result }
{
    match answer {
        Ok(value) => Ok(value),
        Err(_) => {
            *faults = faults.saturating_add(1);
            Err(Failed)
        }
    }
}

fn not_open() -> io::Error {
    io::ErrorKind::NotFound.into()
}

// The folder is synced too, so that a crash doesn't lose the name of a new file.
fn opened<R: Files<File = File>>(rt: &R, path: &str) -> io::Result<File> {
    let mut how = OpenOptions::new();
    how.read(true);
    how.write(true);
    how.create(true);
    let file = how.open(rt, path)?;
    let folder = match Path::new(path).parent() {
        Some(folder) if !folder.as_str().is_empty() => folder,
        _ => Path::new("."),
    };
    File::open(rt, folder)?.sync_all()?;
    Ok(file)
}

fn measure(file: &File) -> io::Result<u64>
    ensures { IfOk result (λ n. n < 2 ^ 63) }
{
    let len = file.metadata()?.len();
    if len > MAX_END {
        return Err(io::ErrorKind::InvalidData.into());
    }
    Ok(len)
}
