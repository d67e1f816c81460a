//! A sink that is written to beside a keeper.

ghost use Rattle.std.specs.Prelude.{◌≤◌, ◌<◌, length, IfOk, IfSome};
ghost use Rattle.std.specs.Io.KnownBytes.{WriteAppends};
ghost use Rattle.ucon_flow.specs.Causes.{HasCause};
ghost use Rattle.ucon_tell.specs.Seen.{VoiceSeen};
ghost use Rattle.ucon_tell.specs.Told.{Notes};

use crate::Keeper;
use ucon_flow::Failed;

/// A sink whose reader stands outside, beside a keeper's disk. Each write is made at a moment of that disk, and the keeper is shown for that. So
/// the sink's bytes and the disk's images have one clock. A clause can say what a crash may leave once somebody was told something.
pub trait Voice<K: Keeper> {
    /// What it holds, how often it has failed, and what it told by which moment of the disk.
    ghost seen: { Self → VoiceSeen };

    /// Takes bytes from the front of a piece, as `Sink::write` does, and hands them on before it returns: nothing is kept back for a later
    /// call. A voice over a real sink doesn't look at the keeper.
    fn write(&mut self, bytes: &[u8], keeper: &K) -> Result<usize, Failed>
        ensures bound { IfOk result (λ n. n ≤ length bytes.now) }
        ensures some { IfOk result (λ n. 0 < length bytes.now → 0 < n) }
        ensures bytes { WriteAppends (seen self.old).contents (seen self.new).contents result bytes.now }
        ensures cause { HasCause (seen self.old).faults (seen self.new).faults result }
        // What it holds once it has taken them, if it tells, is told by the moment of the keeper's disk; nothing else is told.
        ensures noted { IfOk result (λ _. IfSome (seen self.new).contents (λ all. (seen self.new).told all (K.seen keeper.now).moment)) }
        ensures notes { Notes (seen self.old) (seen self.new) (K.seen keeper.now).moment };
}
