//! Which sessions of a state wouldn't be permitted now, and which of the uses that go on.

ghost use Rattle.std.specs.Prelude.{◌≡◌, All, IfOk, IsSome, length};
ghost use Rattle.ucon_actions.specs.Leads.{AfterEach, IsFollowing};
ghost use Rattle.ucon_audit.specs.Recheck.{changed_after};
ghost use Rattle.ucon_audit.specs.Usages.{usages, usages_to};
ghost use Rattle.ucon_model.specs.Readings.{is_accessing};
ghost use Rattle.ucon_state.specs.Shown.{shown};
ghost use Rattle.ucon_state.specs.Tables.{session_in};

use crate::parallel::{Changed, recheck};
use std::alloc::Global;
use std::thread::Threads;
use ucon_base::{NoMemory, Rows};
use ucon_model::{SessionState, typed_tests_make_no_set, views_that_agree_decide_alike};
use ucon_state::{State, tables_keep_what_is_followed};

/// Of these sessions those whose verdict now isn't to permit, in the slice's order, after each trace that the state follows, under the policy
/// in force there. A session whose right an amendment took away is among them, denied by `no_right`.
pub fn changed_sessions<R: Threads + Sync>(
    rt: &R,
    alloc: Global,
    state: &State,
    sessions: &[u32],
) -> Result<Rows<Changed>, NoMemory>
    requires following { IsFollowing (shown state.now) }
    requires there { All (λ n. IsSome (session_in (shown state.now).tables n)) sessions.now }
    ensures { IfOk result (λ rows. AfterEach (shown state.now) (λ P T. rows.items ≡ changed_after P T sessions.now)) }
{
    tables_keep_what_is_followed();
    typed_tests_make_no_set();
    views_that_agree_decide_alike();
    recheck(rt, alloc, state, sessions)
}

/// The sessions whose use goes on, by rising number.
pub fn usages(alloc: Global, state: &State) -> Result<Rows<u32>, NoMemory>
    ensures tables { IfOk result (λ rows. rows.items
        ≡ usages_to (session_in (shown state.now).tables) (length (shown state.now).tables.sessions)) }
    ensures trace { IfOk result (λ rows. AfterEach (shown state.now) (λ P T. rows.items ≡ usages T)) }
{
    tables_keep_what_is_followed();
    let mut found = Rows::new(alloc);
    for before in 0..state.counts().sessions {
        let n = before + 1;
        if is_usage(state, n) {
            found.push(n)?;
        }
    }
    Ok(found)
}

fn is_usage(state: &State, n: u32) -> bool
    ensures { result ≡ is_accessing (session_in (shown state.now).tables n) }
{
    matches!(state.session_state(n), Some(SessionState::Accessing))
}

/// The sessions whose use goes on and wouldn't be permitted now, by rising number.
pub fn changed_usages<R: Threads + Sync>(
    rt: &R,
    alloc: Global,
    state: &State,
) -> Result<Rows<Changed>, NoMemory>
    requires { IsFollowing (shown state.now) }
    ensures { IfOk result (λ rows. AfterEach (shown state.now) (λ P T. rows.items ≡ changed_after P T (usages T))) }
{
    let sessions = usages(alloc, state)?;
    changed_sessions(rt, alloc, state, sessions.slice())
}
