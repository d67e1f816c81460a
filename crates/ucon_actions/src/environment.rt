//! The environment: its variables and the tick, by `env` and `tick`.

ghost use Rattle.std.specs.Prelude.{◌≡◌, ◌∷◌, ◌≤ℤ◌, IfErr, IfOk, OnOk};
ghost use Rattle.ucon_model.specs.Action.{env, tick};
ghost use Rattle.ucon_model.specs.Fitting.{VariableAdmits};
ghost use Rattle.ucon_model.specs.OwnActions.{set_variable, move_tick};
ghost use Rattle.ucon_actions.specs.Gives.{Gives, Refuses, Unchanged};
ghost use Rattle.ucon_actions.specs.Leads.{KeepsBase, Leads};
ghost use Rattle.ucon_state.specs.Shown.{shown};

use crate::entities::is_admin;
use crate::outcome::{ActionFault, Outcome, require};
use std::alloc::Global;
use ucon_base::{Int, Name, NoMemory, Value};
use ucon_engine::{env_admits, tick};
use ucon_model::{Caller, Head, Refusal};
use ucon_state::{State, each_action_is_followed, tables_keep_what_is_followed};

/// A variable gets a value.
fn assign(state: &mut State, name: &Name, value: Value) -> Result<(), NoMemory>
    requires { VariableAdmits (shown state.old).policy name.now value }
    ensures leads { OnOk result (Leads (shown state.old) (shown state.new) (λ P T. env name.now value ∷ T)) }
    ensures base { KeepsBase (shown state.old) (shown state.new) }
{
    each_action_is_followed();
    state.set_env(name, value)
}

/// The tick moves on.
fn advance(state: &mut State, t: Int) -> Result<(), NoMemory>
    requires { (shown state.old).tables.tick ≤ℤ t }
    ensures leads { OnOk result (Leads (shown state.old) (shown state.new) (λ P T. tick t ∷ T)) }
    ensures base { KeepsBase (shown state.old) (shown state.new) }
{
    tables_keep_what_is_followed();
    each_action_is_followed();
    state.set_tick(t)
}

/// Client 0 gives a variable a value.
#[inline(never)]
pub fn set_variable(
    alloc: Global,
    state: &mut State,
    caller: Caller,
    name: &Name,
    value: &Value,
) -> Result<Outcome, ActionFault>
    ensures given { IfOk result (λ o. Gives o (shown state.old) (shown state.new) (λ P T. set_variable P T caller name.now value.now)) }
    ensures refused { IfErr result (λ e. Refuses e (shown state.old) (λ P T. set_variable P T caller name.now value.now)) }
    ensures unchanged { IfErr result (λ e. Unchanged e (shown state.old) (shown state.new)) }
    ensures base { KeepsBase (shown state.old) (shown state.new) }
{
    require(is_admin(caller), Refusal::NotAdmin)?;
    let admitted = env_admits(state, name, value).ok_or(Refusal::NoVariable)?;
    require(admitted, Refusal::BadValue)?;
    assign(state, name, value.copy(alloc)?)?;
    Ok(Outcome::Made(Head::Ok))
}

/// Client 0 moves the tick, never back.
#[inline(never)]
pub fn move_tick(state: &mut State, caller: Caller, t: Int) -> Result<Outcome, ActionFault>
    ensures given { IfOk result (λ o. Gives o (shown state.old) (shown state.new) (λ P T. move_tick T caller t)) }
    ensures refused { IfErr result (λ e. Refuses e (shown state.old) (λ P T. move_tick T caller t)) }
    ensures unchanged { IfErr result (λ e. Unchanged e (shown state.old) (shown state.new)) }
    ensures base { KeepsBase (shown state.old) (shown state.new) }
{
    require(is_admin(caller), Refusal::NotAdmin)?;
    require(!t.is_below(tick(state)), Refusal::TickBack)?;
    advance(state, t)?;
    Ok(Outcome::Made(Head::Ok))
}
