//! How the file of a journal is found or made.

ghost use Rattle.std.specs.Prelude.{◌≡◌, ◌≢◌, ◌<◌, ◌≤◌, ◌^◌, length, take, Some, IfSome, IfOk, IfErr, OnOk, IsErrOf};
ghost use Rattle.std.specs.Option.{option_map};
ghost use Rattle.ucon_disk.specs.Causes.{raised};
ghost use Rattle.ucon_disk.specs.Disk.{Only};
ghost use Rattle.ucon_disk.specs.Run.{LeavesFrom};
ghost use Rattle.ucon_journal.specs.JournalBytes.{IsVersion, newest};
ghost use Rattle.ucon_journal.specs.Found.{found, version_told};
ghost use Rattle.ucon_journal.specs.Found as finding;
ghost use Rattle.ucon_journal.specs.Opened.{opened, Untouched};

use crate::fault::OpenFault;
use crate::synced::write_synced;
use ucon_disk::Disk;

/// A journal of version 2 with no record: its magic, and a closed gate.
const EMPTY: [u8; 9] = *b"UCONJR02\0";

const FIRST_MAGIC: [u8; 8] = *b"UCONJR01";

const SECOND_MAGIC: [u8; 8] = *b"UCONJR02";

/// What was found in a file, or made there: its length in bytes, and its version.
#[derive(Clone, Copy)]
pub(crate) struct Opened {
    pub len: u64,
    pub version: u8,
}

/// Syncs the file, and sees that it is a journal, or makes it one.
pub(crate) fn begin<D: Disk>(disk: &mut D) -> Result<Opened, OpenFault>
    ensures small { IfOk result (λ o. o.len < 2 ^ 63) }
    ensures len { IfOk result (λ o. IfSome (D.seen disk.new).contents (λ file. o.len ≡ length file)) }
    ensures known { IfOk result (λ o. IsVersion o.version) }
    ensures version { IfOk result (λ o. IfSome (D.seen disk.new).contents (λ file. version_told file ≡ Some o.version)) }
    ensures bytes { OnOk result ((D.seen disk.new).contents ≡ option_map opened (D.seen disk.old).contents) }
    ensures only { OnOk result (Only (D.seen disk.new).contents (D.seen disk.new).images) }
    ensures is_journal { OnOk result (IfSome (D.seen disk.old).contents (λ file. found file ≢ finding.NotJournal)) }
    ensures not_journal { IfErr result (λ e. e ≡ OpenFault.NotJournal
        → IfSome (D.seen disk.old).contents (λ file. (found file ≡ finding.NotJournal) × ((D.seen disk.new).contents ≡ Some file))) }
    ensures since { LeavesFrom (D.seen disk.old) (D.seen disk.new) Untouched }
    ensures failed { IsErrOf result OpenFault.DiskFault → (D.seen disk.new).faults ≡ raised (D.seen disk.old).faults }
    ensures unfailed { result ≢ Err OpenFault.DiskFault → (D.seen disk.new).faults ≡ (D.seen disk.old).faults }
{
    disk.sync()?;
    let len = disk.len()?;
    if len <= EMPTY.len() as u64 {
        write_synced(disk, 0, &EMPTY)?;
        return Ok(Opened {
            len: EMPTY.len() as u64,
            version: 2,
        });
    }
    let mut magic = [0; 8];
    let got = disk.read_at(0, &mut magic)?;
    match version(&magic[..got]) {
        Some(version) => Ok(Opened { len, version }),
        None => Err(OpenFault::NotJournal),
    }
}

// The version that the first 8 bytes of a file tell, or those of a shorter one.
fn version(front: &[u8]) -> Option<u8>
    requires { length front.now ≤ 8 }
    ensures told { result ≡ version_told front.now }
    ensures known { IfSome result IsVersion }
{
    if front == SECOND_MAGIC.as_slice() {
        return Some(2);
    }
    if front == FIRST_MAGIC.as_slice() {
        return Some(1);
    }
    None
}
