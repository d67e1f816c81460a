//! How an engine goes on from a checkpoint.

ghost use Rattle.std.specs.Prelude.{◌≡◌, IfOk, MatchOption};
ghost use Rattle.ucon_store.specs.Loading.{IsOfNone, TakesUp};

use crate::beginning::Beginning;
use crate::laws::checkpoints_of_traces_are_read_back;
use std::alloc::Global;
use ucon_base::NoMemory;
use ucon_engine::{Engine, RestoreFault};
use ucon_model::usages_stay_few;
use ucon_point::{PointFault, points_are_read_back, read_point, rows_make_what_they_say};
use ucon_state::{states_follow_what_reads_alike, tables_keep_what_is_followed};

/// An engine at a checkpoint.
#[derive(Drop)]
pub(crate) struct Restored<E> {
    pub engine: E,
    pub point: Beginning,
    /// The text of the policy in force there, as the checkpoint has it.
    pub text: Vec<u8>,
}

/// The engine that goes on from the checkpoint of this payload, before which so many entries stand. None where it is no checkpoint after so many, or
/// an accessing session fails there.
pub(crate) fn take_up<E: Engine>(
    alloc: Global,
    entries: u64,
    payload: &[u8],
) -> Result<Option<Restored<E>>, NoMemory>
    ensures { IfOk result (λ restored. MatchOption restored (IsOfNone entries payload.now)
        (λ r. TakesUp E.follows entries payload.now r.engine r.point r.text.items)) }
{
    checkpoints_of_traces_are_read_back();
    points_are_read_back();
    rows_make_what_they_say();
    states_follow_what_reads_alike();
    tables_keep_what_is_followed();
    usages_stay_few();
    let point = match read_point(alloc, payload) {
        Ok(point) => point,
        Err(PointFault::BadPlace(_)) => return Ok(None),
        Err(PointFault::NoMemory(refused)) => return Err(refused),
    };
    if point.entries != entries {
        return Ok(None);
    }
    let text = point.policy.into_vec();
    let engine = match E::restore(alloc, point.state) {
        Ok(engine) => engine,
        Err(RestoreFault::Unsettled(_, _)) => return Ok(None),
        Err(RestoreFault::NoMemory(refused)) => return Err(refused),
    };
    let mut kept = Vec::new(alloc);
    kept.extend_from_slice(payload)?;
    Ok(Some(Restored {
        engine,
        point: Beginning { payload: kept },
        text,
    }))
}
