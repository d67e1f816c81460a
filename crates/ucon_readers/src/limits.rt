//! Up to which tick the timed parts of what a right reads hold for a session.

ghost use Rattle.std.specs.Prelude.{◌≡◌, ◌∷◌, [], None, Some};
ghost use Rattle.ucon_model.specs.declared.session.SessionRow.{SessionRow};
ghost use Rattle.ucon_model.specs.Deadlines.{form_limit, limit_of};
ghost use Rattle.ucon_model.specs.Reach.{Timed, formula_timed, lasting, test_timed, timed_of};
ghost use Rattle.ucon_model.specs.Truth.{Readings};
ghost use Rattle.ucon_model.specs.Views.{formula_of, predicate_of, test_of};
ghost use Rattle.ucon_readers.specs.Limits.{GivesWay, IsFirstLimit, timed_parts};
ghost use Rattle.ucon_state.specs.Shown.{shown};
ghost use Rattle.ucon_state.specs.Tables.{readings_in, session_in};

use ucon_base::Int;
use ucon_model::{Form, Formula, Predicate, Test, View};
use ucon_state::State;

/// Up to which tick an obligation is met that was last met then. None if the tick doesn't decide over it. The sum is not clamped.
fn form_limit(start: Int, form: Form, last: Option<Int>) -> Option<i64>
    ensures { result ≡ form_limit start form last }
{
    match form {
        Form::Done => None,
        Form::Within(n) => Some(last?.get() + n.get()),
        Form::Every(n) => Some(start.get().max(last.unwrap_or(start).get()) + n.get()),
    }
}

/// The earlier of the first limit so far and this one, which counts if the tick isn't above it.
fn earlier(now: Int, first: Option<i64>, limit: i64) -> Option<i64>
    ensures { (R : Readings) (row : SessionRow) (part : Timed) → R.now ≡ now → limit_of R row part ≡ Some limit
        → GivesWay R row (part ∷ []) first result }
{
    if limit < now.get() {
        return first;
    }
    match first {
        Some(so_far) => Some(so_far.min(limit)),
        None => Some(limit),
    }
}

/// The first limit so far and with a formula, of a usage that began at `start`. No recursion is entered for a comparison or a duration, as most are.
#[inline(always)]
fn first_of_formula(now: Int, start: Int, first: Option<i64>, f: &Formula) -> Option<i64>
    ensures { (R : Readings) (row : SessionRow) → R.now ≡ now → row.start ≡ start
        → GivesWay R row (formula_timed (formula_of f.now)) first result }
{
    match f {
        Formula::Compare(..) => first,
        Formula::Lasts(ticks) => earlier(now, first, start.get() + ticks.get()),
        _ => first_of_parts(now, start, first, f),
    }
}

/// The same, by the limits of its parts.
#[inline(never)]
fn first_of_parts(now: Int, start: Int, first: Option<i64>, f: &Formula) -> Option<i64>
    ensures { (R : Readings) (row : SessionRow) → R.now ≡ now → row.start ≡ start
        → GivesWay R row (formula_timed (formula_of f.now)) first result }
{
    match f {
        Formula::And(f, g) => {
            let first = first_of_parts(now, start, first, f);
            first_of_parts(now, start, first, g)
        }
        Formula::Or(f, g) => {
            let first = first_of_parts(now, start, first, f);
            first_of_parts(now, start, first, g)
        }
        Formula::Not(f) => first_of_parts(now, start, first, f),
        Formula::Compare(..) => first,
        Formula::Lasts(ticks) => first_of_duration(now, start, first, *ticks),
    }
}

/// The first limit so far and with a duration of so many ticks.
fn first_of_duration(now: Int, start: Int, first: Option<i64>, ticks: Int) -> Option<i64>
    ensures { (R : Readings) (row : SessionRow) → R.now ≡ now → row.start ≡ start → GivesWay R row (lasting ticks ∷ []) first result }
{
    earlier(now, first, start.get() + ticks.get())
}

/// The first limit so far and with a test of session n, whose usage began at `start`.
fn first_of_test(state: &State, n: u32, start: Int, first: Option<i64>, test: &Test) -> Option<i64>
    ensures { (row : SessionRow) → session_in (shown state.now).tables n ≡ Some row → row.start ≡ start
        → GivesWay (readings_in (shown state.now).policy (shown state.now).tables) row (test_timed (test_of test.now)) first result }
{
    match test {
        Test::Authorisation(f) => first_of_formula(state.tick(), start, first, f),
        Test::Obligation(o) => match form_limit(start, o.form, state.done_at(n, o)) {
            Some(limit) => earlier(state.tick(), first, limit),
            None => first,
        },
        Test::Condition(f) => first_of_formula(state.tick(), start, first, f),
    }
}

/// The first limit so far and with a predicate of session n's right, which counts if it is ongoing.
fn first_of_predicate(
    state: &State,
    n: u32,
    start: Int,
    first: Option<i64>,
    p: &Predicate,
) -> Option<i64>
    ensures { (row : SessionRow) → session_in (shown state.now).tables n ≡ Some row → row.start ≡ start
        → GivesWay (readings_in (shown state.now).policy (shown state.now).tables) row (timed_parts (predicate_of p.now ∷ [])) first result }
{
    if !p.is_ongoing() {
        return first;
    }
    first_of_test(state, n, start, first, &p.test)
}

/// The first of the ticks up to which a timed part of session n's right holds, of those that the tick isn't above. None if there is no
/// such session.
pub fn first_limit(state: &State, n: u32) -> Option<i64>
    ensures first { (row : SessionRow) → session_in (shown state.now).tables n ≡ Some row
        → IsFirstLimit (readings_in (shown state.now).policy (shown state.now).tables) row (timed_of (shown state.now).policy row) result }
    ensures none { session_in (shown state.now).tables n ≡ None → result ≡ None }
{
    let right = state.right(n)?;
    let start = state.start(n)?;
    let mut first = None;
    for p in right.preds.slice() {
        first = first_of_predicate(state, n, start, first, p);
    }
    first
}
