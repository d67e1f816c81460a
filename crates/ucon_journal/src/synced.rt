//! Changes of a file that are on the disk when they return.

ghost use Rattle.std.specs.Prelude.{◌≡◌, ◌+◌, ◌<◌, ◌≤◌, ◌^◌, [], ◌∷◌, length, take, is_some, IfSome, OnOk};
ghost use Rattle.std.specs.Option.{option_map};
ghost use Rattle.ucon_disk.specs.Causes.{HasCause};
ghost use Rattle.ucon_disk.specs.Disk.{overwritten, HasPlace, Torn, Shortened, Only};
ghost use Rattle.ucon_disk.specs.Run.{LeavesAfter};

use ucon_disk::{Disk, Failed};

pub(crate) fn write_synced<D: Disk>(disk: &mut D, at: u64, bytes: &[u8]) -> Result<(), Failed>
    requires { HasPlace (D.seen disk.old).contents at (length bytes.now) }
    ensures small { OnOk result (at + length bytes.now < 2 ^ 63) }
    ensures tells { is_some (D.seen disk.new).contents ≡ is_some (D.seen disk.old).contents }
    ensures written { OnOk result ((D.seen disk.new).contents ≡ option_map (overwritten at bytes.now) (D.seen disk.old).contents) }
    ensures only { OnOk result (Only (D.seen disk.new).contents (D.seen disk.new).images) }
    ensures images { LeavesAfter (D.seen disk.old) (D.seen disk.new) (Torn at (length bytes.now)) }
    ensures cause { HasCause (D.seen disk.old).faults (D.seen disk.new).faults result }
{
    disk.write_at(at, bytes)?;
    disk.sync()?;
    Ok(())
}

/// Writes a gate. What stands behind it has to be on the disk before, since a gate that is torn may be open.
pub(crate) fn write_gate<D: Disk>(disk: &mut D, gate: u64, byte: u8) -> Result<(), Failed>
    requires place { HasPlace (D.seen disk.old).contents gate 1 }
    requires on_disk { Only (D.seen disk.old).contents (D.seen disk.old).images }
    ensures tells { is_some (D.seen disk.new).contents ≡ is_some (D.seen disk.old).contents }
    ensures written { OnOk result ((D.seen disk.new).contents ≡ option_map (overwritten gate (byte ∷ [])) (D.seen disk.old).contents) }
    ensures only { OnOk result (Only (D.seen disk.new).contents (D.seen disk.new).images) }
    ensures images { LeavesAfter (D.seen disk.old) (D.seen disk.new) (Torn gate 1) }
    ensures cause { HasCause (D.seen disk.old).faults (D.seen disk.new).faults result }
{
    write_synced(disk, gate, &[byte])
}

pub(crate) fn cut_synced<D: Disk>(disk: &mut D, len: u64) -> Result<(), Failed>
    requires { IfSome (D.seen disk.old).contents (λ file. len ≤ length file) }
    ensures cut { OnOk result ((D.seen disk.new).contents ≡ option_map (take len) (D.seen disk.old).contents) }
    ensures only { OnOk result (Only (D.seen disk.new).contents (D.seen disk.new).images) }
    ensures images { LeavesAfter (D.seen disk.old) (D.seen disk.new) (Shortened len) }
    ensures cause { HasCause (D.seen disk.old).faults (D.seen disk.new).faults result }
{
    disk.cut(len)?;
    disk.sync()?;
    Ok(())
}
