//! Sinks of bytes.

ghost use Rattle.std.specs.Prelude.{◌≡◌, ◌+◌, ◌≤◌, ◌<◌, List, ℕ, length, Option, IfOk, OnOk, OnErr};
ghost use Rattle.std.specs.Io.KnownBytes.{WriteAppends, Appends};
ghost use Rattle.ucon_flow.specs.Causes.{HasCause, raised};
ghost use Rattle.ucon_flow.specs.Seen.{SinkSeen};
ghost use Rattle.ucon_flow.specs.Writing.{AppendsPrefix};

use crate::Failed;
use thiserror::Error;

/// Takes bytes piece by piece, as a file or a standard output does.
pub trait Sink {
    /// What can be said of the sink at this moment.
    ghost seen: { Self → SinkSeen };

    /// Takes bytes from the front of a piece, and tells how many, at least one of a piece that isn't empty. If it fails
    /// it has taken none. An empty piece is taken by every sink.
    fn write(&mut self, bytes: &[u8]) -> Result<usize, Failed>
        ensures bound { IfOk result (λ n. n ≤ length bytes.now) }
        ensures empty { length bytes.now ≡ 0 → result ≡ Ok 0 }
        ensures some { IfOk result (λ n. 0 < length bytes.now → 0 < n) }
        ensures bytes { WriteAppends (seen self.old).contents (seen self.new).contents result bytes.now }
        ensures cause { HasCause (seen self.old).faults (seen self.new).faults result }
        ensures counted { (seen self.new).writes ≡ raised (seen self.old).writes };
}

/// The sink failed.
#[derive(Clone, Copy, Debug, Error)]
#[error("the sink failed")]
pub struct SinkFault;

/// Writes all the bytes, or a front part of them if the sink fails.
pub fn write_all<K: Sink>(sink: &mut K, bytes: &[u8]) -> Result<(), SinkFault>
    ensures ok { OnOk result (Appends (K.seen sink.old).contents (K.seen sink.new).contents bytes.now) }
    ensures err { OnErr result (AppendsPrefix (K.seen sink.old).contents (K.seen sink.new).contents bytes.now) }
    ensures cause { HasCause (K.seen sink.old).faults (K.seen sink.new).faults result }

    // At most one write for each byte.
    ensures writes { (K.seen sink.new).writes ≤ (K.seen sink.old).writes + length bytes.now }
{
    let mut at = 0;
    while at < bytes.len() {
        let (_sent, rest) = bytes.split_at(at);
        match sink.write(rest) {
            Ok(n) => at += n,
            Err(Failed) => return Err(SinkFault),
        }
    }
    Ok(())
}
