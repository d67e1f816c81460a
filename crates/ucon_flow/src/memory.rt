//! A source and a sink in memory, some of whose calls fail.

ghost use Rattle.std.specs.Prelude.{◌≡◌, ◌≤◌, ◌<◌, ◌++◌, [], length, take, drop, min, Some, IfOk, OnErr, IsErr, IsTrue, is_err};
ghost use Rattle.std.specs.Io.{ReadsAtMost};
ghost use Rattle.std.specs.Io.KnownBytes.{ReadConsumes, WriteAppends};
ghost use Rattle.ucon_flow.specs.Calls.{no_calls, fails_next};
ghost use Rattle.ucon_flow.specs.Causes.{HasCause, raised};
ghost use Rattle.ucon_flow.specs.Supply.{next_piece, given, not_given};
ghost use Rattle.ucon_flow.specs.Stock.{taken, not_taken};

use crate::calls::FailingCalls;
use crate::{Failed, Sink, Source};
use std::alloc::Global;
use std::marker::Model;
use ucon_base::Steps;

/// A source that gives its bytes in pieces, and fails at calls of given numbers.
#[derive(Drop)]
pub struct MemSource {
    bytes: Vec<u8>,
    at: usize,
    piece: usize,
    calls: FailingCalls,
}

impl Model for MemSource {
    ghost use Rattle.std.specs.Prelude.{◌≤◌, ◌<◌, length, drop};
    ghost use Rattle.ucon_flow.specs.Supply.{Supply};

    ghost Value = { Supply };

    ghost view = { λ s. record { left = drop s.at s.bytes.items; piece = s.piece; calls = s.calls } };

    ghost invariant = { λ s. (s.at ≤ length s.bytes.items) × (0 < s.piece) };
}

impl MemSource {
    /// Gives at most `piece` bytes a call. The calls whose numbers, from 0, stand in `faults` fail.
    pub fn new(bytes: Vec<u8>, piece: usize, faults: Vec<u64>) -> MemSource
        requires { 1 ≤ piece }
        ensures { result ≡ record { left = bytes.items; piece = piece; calls = no_calls faults.items } }
    {
        MemSource {
            bytes,
            at: 0,
            piece,
            calls: FailingCalls::new(faults),
        }
    }
}

impl Source for MemSource {
    ghost seen = { λ s. record { left = Some s.left; faults = s.calls.faults; reads = s.calls.made } };

    fn read(&mut self, buf: &mut [u8]) -> Result<usize, Failed>
        ensures bound { ReadsAtMost result buf.new }
        ensures bytes { ReadConsumes (Some self.old.left) (Some self.new.left) result buf.new }
        ensures cause { HasCause self.old.calls.faults self.new.calls.faults result }
        ensures counted { self.new.calls.made ≡ raised self.old.calls.made }

        // The calls whose numbers were given fail, and no others.
        ensures fails { is_err result ≡ fails_next self.old.calls }
        ensures err { OnErr result (self.new ≡ not_given self.old) }

        // All others give a piece.
        ensures count { IfOk result (λ n. n ≡ length (next_piece self.old (length buf.old))) }
        ensures piece { IfOk result (λ n. buf.new ≡ next_piece self.old (length buf.old) ++ drop n buf.old) }
        ensures ok { IfOk result (λ n. self.new ≡ given self.old n) }
    {
        if self.calls.next_fails() {
            return Err(Failed);
        }
        let n = self.piece.min(buf.len()).min(self.bytes.len() - self.at);
        buf[..n].copy_from_slice(&self.bytes[self.at..self.at + n]);
        self.at += n;
        Ok(n)
    }
}

/// A sink that takes pieces of bytes, and fails at calls of given numbers and if it finds no memory.
#[derive(Drop)]
pub struct MemSink {
    bytes: Vec<u8>,
    piece: usize,
    calls: FailingCalls,
    short: Steps,
}

impl Model for MemSink {
    ghost use Rattle.std.specs.Prelude.{◌<◌};
    ghost use Rattle.ucon_flow.specs.Stock.{Stock};

    ghost Value = { Stock };

    ghost view = { λ s. record { bytes = s.bytes.items; piece = s.piece; calls = s.calls; short = s.short } };

    ghost invariant = { λ s. 0 < s.piece };
}

impl MemSink {
    /// Takes at most `piece` bytes a call. The calls whose numbers, from 0, stand in `faults` fail, if they have some bytes.
    pub fn new(alloc: Global, piece: usize, faults: Vec<u64>) -> MemSink
        requires { 1 ≤ piece }
        ensures { result ≡ record { bytes = []; piece = piece; calls = no_calls faults.items; short = 0 } }
    {
        MemSink {
            bytes: Vec::new(alloc),
            piece,
            calls: FailingCalls::new(faults),
            short: Steps::new(),
        }
    }

    /// The bytes that it holds.
    pub fn bytes(&self) -> &[u8]
        ensures { result.now ≡ self.now.bytes }
    {
        &self.bytes
    }

    /// How many calls found no memory.
    pub fn short(&self) -> u64
        ensures { result ≡ self.now.short }
    {
        self.short.count()
    }
}

impl Sink for MemSink {
    ghost seen = { λ s. record { contents = Some s.bytes; faults = s.calls.faults; writes = s.calls.made } };

    fn write(&mut self, bytes: &[u8]) -> Result<usize, Failed>
        ensures bound { IfOk result (λ n. n ≤ length bytes.now) }
        ensures empty { length bytes.now ≡ 0 → result ≡ Ok 0 }
        ensures some { IfOk result (λ n. 0 < length bytes.now → 0 < n) }
        ensures bytes { WriteAppends (Some self.old.bytes) (Some self.new.bytes) result bytes.now }
        ensures cause { HasCause self.old.calls.faults self.new.calls.faults result }
        ensures counted { self.new.calls.made ≡ raised self.old.calls.made }

        // The calls with some bytes whose numbers were given fail, and others only if there is no memory, which `short` counts.
        ensures fails { 0 < length bytes.now → IsTrue (fails_next self.old.calls) → IsErr result }
        ensures err { OnErr result (self.new ≡ not_taken self.old) }

        // All others take a piece.
        ensures count { IfOk result (λ n. n ≡ min self.old.piece (length bytes.now)) }
        ensures ok { IfOk result (λ n. self.new ≡ taken self.old (take n bytes.now)) }
    {
        if bytes.is_empty() {
            self.calls.count_call();
            return Ok(0);
        }
        if self.calls.next_fails() {
            return Err(Failed);
        }
        let n = self.piece.min(bytes.len());
        if self.bytes.extend_from_slice(&bytes[..n]).is_err() {
            self.calls.count_fault();
            self.short.tick();
            return Err(Failed);
        }
        Ok(n)
    }
}
