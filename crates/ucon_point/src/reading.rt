//! A checkpoint from its text.

ghost use Rattle.std.specs.Prelude.{◌≡◌, ◌≤◌, ◌≤ℤ◌, pos, ◌&&◌, ◌==◌, is_none, length, IfErr, IfOk, MatchResult, Ok, Some};
ghost use Rattle.ucon_model.specs.Checked.{checked_policy};
ghost use Rattle.ucon_model.specs.Views.{policy_of};
ghost use Rattle.ucon_point.specs.Faults.{IsBadAt, IsNoText, IsRefusedAt, IsTextOfNothing};
ghost use Rattle.ucon_point.specs.Opened.{ArePut, IsPut, IsRead};
ghost use Rattle.ucon_point.specs.Order.{awaited, beginning};
ghost use Rattle.ucon_point.specs.PointRead.{point_behind, point_read, row_at, rows_from};
ghost use Rattle.ucon_point.specs.PointText.{point_text};
ghost use Rattle.ucon_point.specs.Standing.{HasLast, standing, start};
ghost use Rattle.ucon_state.specs.Applied.{opening_tables};
ghost use Rattle.ucon_state.specs.TakingUp.{CanBeTakenUp, HasNothingToUndo};
ghost use Rattle.ucon_state.specs.Held.{held};
ghost use Rattle.ucon_state.specs.Shown.{shown};
ghost use Rattle.ucon_syntax.specs.Policies.{accepted};

use crate::fault::PointFault;
use crate::header::{PolicyText, count_at, policy_at, tick_at};
use crate::laws::{points_are_read_back, rows_make_what_they_say, texts_are_of_rows};
use crate::order::{Reached, after, awaited, beginning};
use crate::point::Point;
use crate::putting::put_row;
use crate::rows::row_in;
use crate::words::cut_at;
use std::alloc::Global;
use ucon_base::Int;
use ucon_model::{Checked, Policy, View};
use ucon_state::State;

/// What the bytes hold as the text of a checkpoint, as a state that an engine can take up: they are the text of what is there in it.
/// If they are refused they are the text of none that such a state holds.
pub fn read_point(alloc: Global, bytes: &[u8]) -> Result<Point, PointFault>
    ensures text { IfOk result (λ p. point_text p.entries p.policy.items (held p.state) ≡ bytes.now) }
    ensures policy { IfOk result (λ p. accepted p.policy.items ≡ Some (held p.state).policy) }
    ensures state { IfOk result (λ p. CanBeTakenUp (shown p.state)) }
    ensures refused { IfErr result (IsNoText bytes.now) }
    ensures held { IfErr result (IsTextOfNothing bytes.now) }
    ensures place { IfErr result (IsRefusedAt bytes.now) }
    ensures read { MatchResult result (IsRead (point_read bytes.now)) (IsBadAt (point_read bytes.now)) }
{
    points_are_read_back();
    texts_are_of_rows();
    rows_make_what_they_say();
    point(alloc, bytes)
}

#[tactic(auto, unfolding(crate::specs::PointRead::point_read))]
fn point(alloc: Global, bytes: &[u8]) -> Result<Point, PointFault>
    ensures { MatchResult result (IsRead (point_read bytes.now)) (IsBadAt (point_read bytes.now)) }
{
    let total = bytes.len();
    let (entries, rest) = count_at(b"point", total, bytes)?;
    match policy_at(alloc, total, rest) {
        Ok((policy, rest)) => point_behind(alloc, total, entries, policy, rest),
        Err(fault) => Err(fault),
    }
}

/// What the bytes behind a policy hold with it, the last of so many.
#[tactic(auto, unfolding(crate::specs::PointRead::point_behind))]
fn point_behind(
    alloc: Global,
    total: usize,
    entries: u64,
    policy: PolicyText,
    bytes: &[u8],
) -> Result<Point, PointFault>
    requires { length bytes.now ≤ total }
    ensures { MatchResult result (IsRead (point_behind total entries policy.text.items (checked_policy policy.policy) bytes.now))
        (IsBadAt (point_behind total entries policy.text.items (checked_policy policy.policy) bytes.now)) }
{
    match tick_at(total, bytes) {
        Ok((tick, rest)) => {
            let mut state = State::new(alloc, policy.policy)?;
            fill(alloc, total, &mut state, tick, rest)?;
            Ok(Point {
                entries,
                policy: policy.text,
                state,
            })
        }
        Err(fault) => Err(fault),
    }
}

/// Fills a new state from this tick on with the rows that the bytes tell, the last of so many.
fn fill(
    alloc: Global,
    total: usize,
    state: &mut State,
    tick: Int,
    bytes: &[u8],
) -> Result<(), PointFault>
    requires tick { pos 0 ≤ℤ tick }
    requires within { length bytes.now ≤ total }
    requires new { (shown state.old).tables ≡ opening_tables (shown state.old).policy }
    ensures policy { IfOk result (λ _. (shown state.new).policy ≡ (shown state.old).policy) }
    ensures settled { IfOk result (λ _. HasNothingToUndo (shown state.new)) }
    ensures rows { MatchResult result
        (λ _. ArePut (shown state.old).policy (start (shown state.old).policy tick)
        (rows_from total (shown state.old).policy (start (shown state.old).policy tick) bytes.now) state.new)
        (IsBadAt (rows_from total (shown state.old).policy (start (shown state.old).policy tick) bytes.now)) }
{
    state.set_tick(tick)?;
    put_rows(alloc, total, state, bytes)?;
    state.keep();
    Ok(())
}

/// Puts the rows that the bytes tell into a state, the last of so many.
fn put_rows(alloc: Global, total: usize, state: &mut State, bytes: &[u8]) -> Result<(), PointFault>
    requires { length bytes.now ≤ total }
    ensures policy { IfOk result (λ _. (shown state.new).policy ≡ (shown state.old).policy) }
    ensures rows { MatchResult result
        (λ _. ArePut (shown state.old).policy (standing beginning state.old)
        (rows_from total (shown state.old).policy (standing beginning state.old) bytes.now) state.new)
        (IsBadAt (rows_from total (shown state.old).policy (standing beginning state.old) bytes.now)) }
{
    let mut reached = beginning();
    let mut rest = bytes;
    while let Some((line, behind)) = cut_at(b'\n', rest) {
        reached = match put_line(alloc, total - rest.len(), state, reached, line) {
            Ok(next) => next,
            Err(fault) => return Err(fault),
        };
        rest = behind;
    }
    if is_end(state.checked().policy(), reached, rest) {
        Ok(())
    } else {
        Err(PointFault::BadPlace(total))
    }
}

/// Puts a line's row into a state, and says how far the rows have come with it; or tells the place of the line.
#[tactic(auto, unfolding(crate::specs::PointRead::row_at))]
fn put_line(
    alloc: Global,
    place: usize,
    state: &mut State,
    reached: Reached,
    line: &[u8],
) -> Result<Reached, PointFault>
    requires { HasLast reached.stage (shown state.old).tables }
    ensures policy { IfOk result (λ _. (shown state.new).policy ≡ (shown state.old).policy) }
    ensures row { MatchResult result
        (λ next. IsPut (row_at place (shown state.old).policy (standing reached state.old) line.now) (standing next state.new))
        (IsBadAt (row_at place (shown state.old).policy (standing reached state.old) line.now)) }
    ensures last { IfOk result (λ next. HasLast next.stage (shown state.new).tables) }
{
    let Some(row) = row_in(alloc, line)? else {
        return Err(PointFault::BadPlace(place));
    };
    let Some(next) = after(state.checked().policy(), reached, &row) else {
        return Err(PointFault::BadPlace(place));
    };
    if put_row(state, reached.stage, row)? {
        Ok(next)
    } else {
        Err(PointFault::BadPlace(place))
    }
}

/// Whether no byte is left, and no value is awaited.
fn is_end(policy: &Policy, reached: Reached, rest: &[u8]) -> bool
    ensures { result ≡ (length rest.now == 0 && is_none (awaited (policy_of policy.now) reached)) }
{
    rest.is_empty() && awaited(policy, reached).is_none()
}
