//! Sources over std's readers, and sinks over its writers.

ghost use Rattle.std.specs.Prelude.{◌≡◌, ◌≤◌, ◌<◌, length, IfOk};
ghost use Rattle.std.specs.Io.{ReadsAtMost};
ghost use Rattle.std.specs.Io.KnownBytes.{ReadConsumes, WriteAppends};
ghost use Rattle.ucon_flow.specs.Causes.{HasCause, raised};

use crate::{Failed, Sink, Source};
use std::io::{Read, Write};
use std::marker::Model;
use ucon_base::Steps;

/// A source over a reader, whose errors it counts.
#[derive(Drop)]
pub struct ReadSource<R> {
    inner: R,
    calls: Steps,
    faults: Steps,
}

impl<R> Model for ReadSource<R> {
    ghost use Rattle.ucon_flow.specs.Counted.{Counted};

    ghost Value = { Counted R };

    ghost view = { λ s. record { inner = s.inner; calls = s.calls; faults = s.faults } };
}

impl<R: Read> ReadSource<R> {
    /// Reads from this reader. No call was made yet, and none has failed.
    pub fn new(r: R) -> ReadSource<R>
        ensures { result ≡ record { inner = r; calls = 0; faults = 0 } }
    {
        ReadSource {
            inner: r,
            calls: Steps::new(),
            faults: Steps::new(),
        }
    }
}

impl<R: Read> Source for ReadSource<R> {
    ghost seen = { λ s. record { left = R.remaining s.inner; faults = s.faults; reads = s.calls } };

    fn read(&mut self, buf: &mut [u8]) -> Result<usize, Failed>
        ensures bound { ReadsAtMost result buf.new }
        ensures bytes { ReadConsumes (R.remaining self.old.inner) (R.remaining self.new.inner) result buf.new }
        ensures cause { HasCause self.old.faults self.new.faults result }
        ensures counted { self.new.calls ≡ raised self.old.calls }
    {
        self.calls.tick();
        match self.inner.read(buf) {
            Ok(n) => Ok(n),
            Err(_) => {
                self.faults.tick();
                Err(Failed)
            }
        }
    }
}

/// A sink over a writer, whose errors it counts. A writer that takes nothing counts as an error.
#[derive(Drop)]
pub struct WriteSink<W> {
    inner: W,
    calls: Steps,
    faults: Steps,
}

impl<W> Model for WriteSink<W> {
    ghost use Rattle.ucon_flow.specs.Counted.{Counted};

    ghost Value = { Counted W };

    ghost view = { λ s. record { inner = s.inner; calls = s.calls; faults = s.faults } };
}

impl<W: Write> WriteSink<W> {
    /// Writes to this writer. No call was made yet, and none has failed.
    pub fn new(w: W) -> WriteSink<W>
        ensures { result ≡ record { inner = w; calls = 0; faults = 0 } }
    {
        WriteSink {
            inner: w,
            calls: Steps::new(),
            faults: Steps::new(),
        }
    }
}

impl<W: Write> Sink for WriteSink<W> {
    ghost seen = { λ k. record { contents = W.contents k.inner; faults = k.faults; writes = k.calls } };

    fn write(&mut self, bytes: &[u8]) -> Result<usize, Failed>
        ensures bound { IfOk result (λ n. n ≤ length bytes.now) }
        ensures empty { length bytes.now ≡ 0 → result ≡ Ok 0 }
        ensures some { IfOk result (λ n. 0 < length bytes.now → 0 < n) }
        ensures bytes { WriteAppends (W.contents self.old.inner) (W.contents self.new.inner) result bytes.now }
        ensures cause { HasCause self.old.faults self.new.faults result }
        ensures counted { self.new.calls ≡ raised self.old.calls }
    {
        self.calls.tick();
        if bytes.is_empty() {
            return Ok(0);
        }
        match self.inner.write(bytes) {
            Ok(n) if n > 0 => Ok(n),
            _ => {
                self.faults.tick();
                Err(Failed)
            }
        }
    }
}
