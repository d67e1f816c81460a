//! The cascade of revocations: after each one all accessing sessions are rechecked.

ghost use Rattle.std.specs.Prelude.{◌≡◌, ◌≤◌, ◌∷◌, [], ◌++◌, Some, IfOk, OnOk};
ghost use Rattle.ucon_model.specs.Action.{extended};
ghost use Rattle.ucon_model.specs.Settle.{fails_at, least_failing, revocation, settle, revoked_in};
ghost use Rattle.ucon_actions.specs.Leads.{AfterEach, IsFollowing, KeepsBase, Leads};
ghost use Rattle.ucon_state.specs.Shown.{shown};

use std::alloc::Global;
use ucon_actions::{is_accessing, revoke};
use ucon_base::{Name, NoMemory, Rows, Steps};
use ucon_engine::{accessing, session_state, sessions};
use ucon_eval::failing;
use ucon_model::{
    Revoked, turns_follow_each_other, typed_tests_make_no_set, views_that_agree_decide_alike,
};
use ucon_state::{State, tables_keep_what_is_followed};

/// The label by which session n fails, if it is accessing.
fn fails_at(state: &State, n: u32, steps: &mut Steps) -> Option<Name>
    requires { IsFollowing (shown state.now) }
    ensures label { AfterEach (shown state.now) (λ P T. fails_at P T n ≡ result) }
    ensures later { steps.old ≤ steps.new }
{
    tables_keep_what_is_followed();
    typed_tests_make_no_set();
    views_that_agree_decide_alike();
    if !is_accessing(session_state(state, n)?) {
        return None;
    }
    failing(state, n, steps)
}

/// The least accessing session that fails, with its label.
pub fn least_failing(state: &State, steps: &mut Steps) -> Option<(u32, Name)>
    requires { IsFollowing (shown state.now) }
    ensures least { AfterEach (shown state.now) (λ P T. least_failing P T ≡ result) }
    ensures later { steps.old ≤ steps.new }
{
    let count = sessions(state);
    for before in 0..count {
        if let Some(label) = fails_at(state, before + 1, steps) {
            return Some((before + 1, label));
        }
    }
    None
}

/// Revokes session n, and notes it.
fn revoke_next(
    alloc: Global,
    state: &mut State,
    revoked: &mut Rows<Revoked>,
    n: u32,
    label: Name,
) -> Result<(), NoMemory>
    requires following { IsFollowing (shown state.old) }
    requires least { AfterEach (shown state.old) (λ P T. least_failing P T ≡ Some (n, label)) }
    ensures leads { OnOk result (Leads (shown state.old) (shown state.new) (λ P T. extended T (revocation P T (n, label)))) }
    ensures revoked { OnOk result (revoked.new.items ≡ revoked.old.items ++ record { session = n; label = label } ∷ []) }
    ensures base { KeepsBase (shown state.old) (shown state.new) }
{
    revoke(alloc, state, n, label)?;
    revoked.push(Revoked { session: n, label })?;
    Ok(())
}

/// Revokes the least accessing session that fails until none does. They come back in order.
pub fn settle(
    alloc: Global,
    state: &mut State,
    steps: &mut Steps,
) -> Result<Rows<Revoked>, NoMemory>
    requires { IsFollowing (shown state.old) }
    ensures leads { OnOk result (Leads (shown state.old) (shown state.new) (λ P T. extended T (settle P T))) }
    ensures revoked { IfOk result (λ revoked. AfterEach (shown state.old) (λ P T. revoked.items ≡ revoked_in (settle P T))) }
    ensures base { KeepsBase (shown state.old) (shown state.new) }
    ensures later { steps.old ≤ steps.new }
{
    turns_follow_each_other();
    let mut revoked = Rows::new(alloc);
    let turns = accessing(state);
    'turns: for _ in 0..turns {
        match least_failing(state, steps) {
            None => return Ok(revoked),
            Some(found) => revoke_next(alloc, state, &mut revoked, found.0, found.1)?,
        }
    }
    Ok(revoked)
}
