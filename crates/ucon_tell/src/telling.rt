//! Tells whole texts.

ghost use Rattle.std.specs.Prelude.{OnOk, OnErr};
ghost use Rattle.std.specs.Io.KnownBytes.{Appends};
ghost use Rattle.ucon_flow.specs.Causes.{HasCause};
ghost use Rattle.ucon_flow.specs.Writing.{AppendsPrefix};
ghost use Rattle.ucon_tell.specs.Told.{TellsFronts};

use crate::keeper::Keeper;
use crate::voice::Voice;
use ucon_flow::{Failed, SinkFault};

/// Tells all the bytes, or a front part of them if the voice fails, at this moment of the keeper's disk.
pub fn tell_all<K: Keeper, V: Voice<K>>(
    out: &mut V,
    bytes: &[u8],
    keeper: &K,
) -> Result<(), SinkFault>
    ensures ok { OnOk result (Appends (V.seen out.old).contents (V.seen out.new).contents bytes.now) }
    ensures err { OnErr result (AppendsPrefix (V.seen out.old).contents (V.seen out.new).contents bytes.now) }
    ensures cause { HasCause (V.seen out.old).faults (V.seen out.new).faults result }
    ensures told { TellsFronts (V.seen out.old) (V.seen out.new) bytes.now (K.seen keeper.now).moment }
{
    let mut at = 0;
    while at < bytes.len() {
        let (_sent, rest) = bytes.split_at(at);
        match out.write(rest, keeper) {
            Ok(n) => at += n,
            Err(Failed) => return Err(SinkFault),
        }
    }
    Ok(())
}
