//! Which records may be checkpoints, and which have to be.

ghost use Rattle.std.specs.Prelude.{◌≡◌, ◌&&◌};
ghost use Rattle.ucon_journal.specs.Journal.{version_of};
ghost use Rattle.ucon_store.specs.PointRecords.{is_point, points_of};

use ucon_disk::Disk;
use ucon_journal::Journal;

/// Whether there may be checkpoints in the journal's file.
#[tactic(auto, using(crate::proofs::WalkedVersions::of_version))]
pub fn has_points<D: Disk>(journal: &Journal<D>) -> bool
    ensures { result ≡ points_of (version_of journal.now) }
{
    journal.version() == 2
}

/// Whether a payload has to be a checkpoint: if there may be any, it begins as one does.
pub(crate) fn is_point(points: bool, payload: &[u8]) -> bool
    ensures { result ≡ (points && is_point payload.now) }
{
    points && payload.starts_with(b"point ")
}
