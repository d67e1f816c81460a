//! Updates of a session's right.

ghost use Rattle.std.specs.Prelude.{◌≡◌, ◌<◌, length, map, Some, OnOk};
ghost use Rattle.ucon_model.specs.declared.session.SessionRow.{SessionRow};
ghost use Rattle.ucon_model.specs.Action.{extended};
ghost use Rattle.ucon_model.specs.Updates.{same_when, entity_of, updates_of, session_writes};
ghost use Rattle.ucon_model.specs.Views.{policy_of, update_of};
ghost use Rattle.ucon_actions.specs.Leads.{IsFollowing, Leads, KeepsBase};
ghost use Rattle.ucon_state.specs.Shown.{shown};
ghost use Rattle.ucon_state.specs.Tables.{session_in};
ghost use Rattle.ucon_actions.specs.Updating.{one_written_out, updates_in};

use crate::attributes::write_own;
use std::alloc::{AllocError, Global};
use ucon_base::{Name, NoMemory, Side};
use ucon_eval::result;
use ucon_model::{Policy, SessionRow, Update, View, When, updates_fit, writes_leave_sessions};
use ucon_state::{State, tables_keep_what_is_followed};

/// The updates of a session's right in a policy; none if it isn't there.
pub fn updates_of<'a>(policy: &'a Policy, row: &SessionRow) -> &'a [Update]
    ensures { map update_of result.now ≡ updates_of (policy_of policy.now) row.now }
{
    match policy.right(&row.right) {
        Some(right) => right.updates.slice(),
        None => &[],
    }
}

/// Whether an update is of this time.
pub fn is_of(u: &Update, when: When) -> bool
    ensures { result ≡ same_when when (update_of u.now).when }
{
    match (when, u.when) {
        (When::Before, When::Before) => true,
        (When::During, When::During) => true,
        (When::AfterEnd, When::AfterEnd) => true,
        (When::AfterRevoke, When::AfterRevoke) => true,
        _ => false,
    }
}

/// The session's entity of a side.
pub fn entity_of(side: Side, row: &SessionRow) -> Name
    ensures { result ≡ entity_of side row.now }
{
    match side {
        Side::Subject => row.subject,
        Side::Object => row.object,
    }
}

/// The updates of the right of session n; none if one of them isn't there.
fn updates_in(state: &State, n: u32) -> &[Update]
    ensures { map update_of result.now ≡ updates_in (shown state.now) n }
{
    match state.right(n) {
        Some(right) => right.updates.slice(),
        None => &[],
    }
}

/// Runs the update at a position, from 0, of the right of session n, if it is of this time.
fn run_update(alloc: Global, state: &mut State, n: u32, when: When, at: u32) -> Result<(), NoMemory>
    requires following { IsFollowing (shown state.old) }
    requires at { at < length (updates_in (shown state.old) n) }
    ensures leads { (row : SessionRow) → session_in (shown state.old).tables n ≡ Some row
        → OnOk result (Leads (shown state.old) (shown state.new) (λ P T. one_written_out P row when at T)) }
    ensures base { KeepsBase (shown state.old) (shown state.new) }
{
    tables_keep_what_is_followed();
    updates_fit();
    let u = &updates_in(state, n)[at as usize];
    if !is_of(u, when) {
        return Ok(());
    }
    let side = u.side;
    let attr = u.attr;
    let value = result(alloc, state, n, at)?;
    write_own(state, n, side, &attr, value)
}

/// Runs the updates of a time of the right of session n, in written order. A right with more updates than a `u32` counts is answered
/// as out of memory.
#[inline(always)]
pub fn run_updates(alloc: Global, state: &mut State, n: u32, when: When) -> Result<(), NoMemory>
    requires { IsFollowing (shown state.old) }
    ensures leads { OnOk result (Leads (shown state.old) (shown state.new) (λ P T. extended T (session_writes P n when T))) }
    ensures base { KeepsBase (shown state.old) (shown state.new) }
{
    tables_keep_what_is_followed();
    if updates_in(state, n).is_empty() {
        return Ok(());
    }
    run_each_update(alloc, state, n, when)
}

/// The same for a right that has updates.
#[inline(never)]
fn run_each_update(alloc: Global, state: &mut State, n: u32, when: When) -> Result<(), NoMemory>
    requires { IsFollowing (shown state.old) }
    ensures leads { OnOk result (Leads (shown state.old) (shown state.new) (λ P T. extended T (session_writes P n when T))) }
    ensures base { KeepsBase (shown state.old) (shown state.new) }
{
    tables_keep_what_is_followed();
    writes_leave_sessions();
    let Ok(count) = u32::try_from(updates_in(state, n).len()) else {
        return Err(NoMemory::from(AllocError));
    };
    for at in 0..count {
        run_update(alloc, state, n, when, at)?;
    }
    Ok(())
}
