//! Checkpoints of what is there.

ghost use Rattle.std.specs.Prelude.{◌≡◌, ◌≤◌, length, true, IfOk, IfErr, OnOk};
ghost use Rattle.ucon_journal.specs.Journal.{disk_of, gate_of, version_of, HasRoomFor, IsClosed};
ghost use Rattle.ucon_model.specs.Action.{Trace};
ghost use Rattle.ucon_model.specs.Plain.{PlainPolicy};
ghost use Rattle.ucon_store.specs.Pointing.{IsUnprepared};
ghost use Rattle.ucon_point.specs.PointText.{point_text};
ghost use Rattle.ucon_state.specs.Held.{held_after};
ghost use Rattle.ucon_store.specs.Points.{points_of};

use crate::fault::PointFault;
use crate::point_records::has_points;
use std::alloc::Global;
use ucon_disk::Disk;
use ucon_engine::Engine;
use ucon_journal::{Journal, MAX_PAYLOAD};
use ucon_point::point_text;

/// The checkpoint of an engine, which is after so many entries, where this is the text of the policy in force, and room for it in the journal. All
/// memory that writing it needs is taken here.
pub(crate) fn prepare_point<E: Engine, D: Disk>(
    alloc: Global,
    journal: &mut Journal<D>,
    count: u64,
    in_force: &[u8],
    engine: &E,
) -> Result<Vec<u8>, PointFault>
    ensures disk { disk_of journal.new ≡ disk_of journal.old }
    ensures closed { IsClosed D.seen journal.old → IsClosed D.seen journal.new }
    ensures gate { gate_of journal.new ≡ gate_of journal.old }
    ensures version { version_of journal.new ≡ version_of journal.old }
    ensures second { OnOk result (points_of (version_of journal.old) ≡ true) }
    ensures text { IfOk result (λ text. (P : PlainPolicy) (T : Trace) → E.follows engine.now P T
        → text.items ≡ point_text count in_force.now (held_after P T)) }
    ensures short { IfOk result (λ text. length text.items ≤ MAX_PAYLOAD) }
    ensures room { IfOk result (λ text. HasRoomFor journal.new (length text.items)) }
    ensures refused { IfErr result (λ fault. (P : PlainPolicy) (T : Trace) → E.follows engine.now P T
        → IsUnprepared (points_of (version_of journal.old)) (point_text count in_force.now (held_after P T)) fault) }
{
    if !has_points(journal) {
        return Err(PointFault::OldJournal);
    }
    let text = point_text(alloc, count, in_force, engine.state())?;
    let size = text.len() as u64;
    if size > MAX_PAYLOAD {
        return Err(PointFault::TooLarge(size));
    }
    journal.reserve(text.len())?;
    Ok(text)
}
