//! The policy is replaced: `amend`.

ghost use Rattle.std.specs.Prelude.{◌≡◌, ◌∷◌, is_some, IfErr, IfOk, OnOk};
ghost use Rattle.ucon_model.specs.Action.{amend};
ghost use Rattle.ucon_model.specs.Checked.{checked_policy};
ghost use Rattle.ucon_model.specs.MayFollow.{changed_kind, MayFollow};
ghost use Rattle.ucon_model.specs.OwnActions.{replace_policy};
ghost use Rattle.ucon_model.specs.Readings.{in_force};
ghost use Rattle.ucon_actions.specs.Gives.{Gives, Refuses, Unchanged};
ghost use Rattle.ucon_actions.specs.Leads.{AfterEach, KeepsOpening, Leads};
ghost use Rattle.ucon_state.specs.Shown.{shown};

use crate::entities::is_admin;
use crate::outcome::{ActionFault, Outcome, require};
use std::alloc::Global;
use ucon_base::NoMemory;
use ucon_check::{AmendFault, may_follow};
use ucon_model::{Amend, Caller, Checked, Head, Refusal, View};
use ucon_state::{State, each_action_is_followed};

/// Whether a policy changes a kind of the policy in force.
fn changes_kind(state: &State, new: &Checked) -> bool
    ensures policy { result ≡ is_some (changed_kind (shown state.now).policy (checked_policy new.now)) }
    ensures trace { AfterEach (shown state.now) (λ P T. is_some (changed_kind (in_force P T) (checked_policy new.now)) ≡ result) }
{
    match may_follow(state.checked(), new) {
        Ok(()) => false,
        Err(AmendFault::KindChanged(_)) => true,
    }
}

/// The policy is replaced by one that changes no kind.
fn replace(alloc: Global, state: &mut State, a: &Amend) -> Result<(), NoMemory>
    requires { MayFollow (shown state.old).policy a.now.policy }
    ensures leads { OnOk result (Leads (shown state.old) (shown state.new) (λ P T. amend a.now.text a.now.policy ∷ T)) }
    ensures opening { KeepsOpening (shown state.old) (shown state.new) }
{
    each_action_is_followed();
    let checked = a.checked().copy(alloc)?;
    state.amend(checked)
}

/// Client 0 replaces the policy in force by one that changes no kind.
#[inline(never)]
pub fn replace_policy(
    alloc: Global,
    state: &mut State,
    caller: Caller,
    a: &Amend,
) -> Result<Outcome, ActionFault>
    ensures given { IfOk result (λ o. Gives o (shown state.old) (shown state.new) (λ P T. replace_policy P T caller a.now.text a.now.policy)) }
    ensures refused { IfErr result (λ e. Refuses e (shown state.old) (λ P T. replace_policy P T caller a.now.text a.now.policy)) }
    ensures unchanged { IfErr result (λ e. Unchanged e (shown state.old) (shown state.new)) }
    ensures opening { KeepsOpening (shown state.old) (shown state.new) }
{
    require(is_admin(caller), Refusal::NotAdmin)?;
    require(!changes_kind(state, a.checked()), Refusal::KindChanged)?;
    replace(alloc, state, a)?;
    Ok(Outcome::Made(Head::Ok))
}
