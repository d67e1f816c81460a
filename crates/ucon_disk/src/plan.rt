//! Which calls of a disk in memory fail.

ghost use Rattle.std.specs.Prelude.{◌≡◌, not, ◌&&◌, if◌then◌else◌, is_ok};
ghost use Rattle.ucon_disk.specs.Causes.{HasCause, raised};

use crate::Failed;
use ucon_base::NoMemory;

/// The numbers of the calls that fail, from 0, a number of calls from which on all fail, and counts.
#[derive(Drop)]
pub(crate) struct Plan {
    pub failing: Vec<u64>,
    pub stop_after: Option<u64>,
    pub number: u64,
    pub faults: u64,
    pub short: u64,
}

impl Plan {
    ghost use Rattle.ucon_disk.specs.Recorded.{is_failing};

    /// Counts a call that begins, and tells whether it is one that succeeds.
    pub fn begin(&mut self) -> bool
        ensures outcome { result ≡ not (is_failing self.old self.old.number) }
        ensures counted { self.new ≡ record self.old { number = raised self.old.number } }
    {
        let number = self.number;
        self.number = number.saturating_add(1);
        let stopped = match self.stop_after {
            Some(limit) => limit <= number,
            None => false,
        };
        !(stopped || self.failing.contains(&number))
    }

    /// Counts a fault if the call fails: as it was to, or because there is no memory, which is counted apart too.
    pub fn end(&mut self, done: bool, kept: Result<(), NoMemory>) -> Result<(), Failed>
        ensures outcome { is_ok result ≡ (done && is_ok kept) }
        ensures counted { self.new ≡ record self.old {
          faults = if done && is_ok kept then self.old.faults else raised self.old.faults;
          short = if is_ok kept then self.old.short else raised self.old.short;
        } }
        ensures cause { HasCause self.old.faults self.new.faults result }
    {
        match kept {
            Ok(()) if done => return Ok(()),
            Ok(()) => {}
            Err(_) => self.short = self.short.saturating_add(1),
        }
        self.faults = self.faults.saturating_add(1);
        Err(Failed)
    }
}
