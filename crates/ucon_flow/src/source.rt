//! Sources of bytes.

ghost use Rattle.std.specs.Prelude.{◌≡◌, ◌≢◌, ◌+◌, ◌≤◌, List, ℕ, length, Option, IfOk, OnOk, OnErr, IsErrOf};
ghost use Rattle.std.specs.Io.{ReadsAtMost};
ghost use Rattle.std.specs.Io.KnownBytes.{ReadConsumes};
ghost use Rattle.ucon_base.specs.Memory.{out_of_memory};
ghost use Rattle.ucon_flow.specs.Causes.{HasCause, raised};
ghost use Rattle.ucon_flow.specs.Seen.{SourceSeen};
ghost use Rattle.ucon_flow.specs.Reading.{ReadsWhole, ReadsFront, HasMoreThan, HasAtMost};
ghost use Rattle.ucon_flow.specs.declared.source.ReadFault.TheVariants as faults_of_reading;

use std::alloc::{AllocError, Global};
use thiserror::Error;
use ucon_base::NoMemory;

/// A call failed, and its object has counted it.
#[derive(Clone, Copy)]
pub struct Failed;

/// Gives bytes piece by piece, as a file or a standard input does.
pub trait Source {
    /// What can be said of the source at this moment.
    ghost seen: { Self → SourceSeen };

    /// Puts bytes into the front of the buffer, and tells how many. None into a buffer that isn't empty is the end.
    fn read(&mut self, buf: &mut [u8]) -> Result<usize, Failed>
        ensures bound { ReadsAtMost result buf.new }
        ensures bytes { ReadConsumes (seen self.old).left (seen self.new).left result buf.new }
        ensures cause { HasCause (seen self.old).faults (seen self.new).faults result }
        ensures counted { (seen self.new).reads ≡ raised (seen self.old).reads };
}

/// Why a source could not be read whole.
#[derive(Clone, Copy, Debug, PartialEq, Eq, Error)]
pub enum ReadFault {
    #[error("the source failed")]
    SourceFault,
    #[error("the source has too many bytes")]
    TooLong,
    #[error("no memory")]
    NoMemory(NoMemory),
}

impl From<Failed> for ReadFault {
    ghost from_gives = { λ _ e. e ≡ faults_of_reading.SourceFault };

    fn from(_e: Failed) -> ReadFault {
        ReadFault::SourceFault
    }
}

impl From<AllocError> for ReadFault {
    ghost from_gives = { λ _ e. e ≡ faults_of_reading.NoMemory out_of_memory };

    fn from(e: AllocError) -> ReadFault {
        ReadFault::NoMemory(NoMemory::from(e))
    }
}

/// All the bytes of a source, of which there are at most `limit`. After a refusal the bytes that were read are lost.
pub fn read_all<S: Source>(
    alloc: Global,
    source: &mut S,
    limit: usize,
) -> Result<Vec<u8>, ReadFault>
    ensures ok { IfOk result (λ bytes. ReadsWhole (S.seen source.old).left (S.seen source.new).left bytes.items) }
    ensures within { IfOk result (λ bytes. length bytes.items ≤ limit) }
    ensures fits { OnOk result (HasAtMost (S.seen source.old).left limit) }
    ensures err { OnErr result (ReadsFront (S.seen source.old).left (S.seen source.new).left) }

    // The cause of each fault.
    ensures too_long { IsErrOf result ReadFault.TooLong → HasMoreThan (S.seen source.old).left limit }
    ensures failed { IsErrOf result ReadFault.SourceFault → (S.seen source.new).faults ≡ raised (S.seen source.old).faults }
    ensures unfailed { result ≢ Err ReadFault.SourceFault → (S.seen source.new).faults ≡ (S.seen source.old).faults }

    // At most one read for each byte within the limit, and one more.
    ensures reads { (S.seen source.new).reads ≤ (S.seen source.old).reads + limit + 1 }
{
    let mut bytes = Vec::new(alloc);
    let mut buf = [0u8; 65536];
    while bytes.len() <= limit {
        let n = source.read(&mut buf)?;
        if n == 0 {
            return Ok(bytes);
        }
        bytes.extend_from_slice(&buf[..n])?;
    }
    Err(ReadFault::TooLong)
}
