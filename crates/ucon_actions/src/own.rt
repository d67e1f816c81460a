//! A command's own actions, before sessions are rechecked.

ghost use Rattle.std.specs.Prelude.{◌≡◌, false, IfErr, IfOk};
ghost use Rattle.ucon_model.specs.OwnActions.{own};
ghost use Rattle.ucon_actions.specs.Gives.{Gives, Refuses, Unchanged, is_amendment};
ghost use Rattle.ucon_actions.specs.Leads.{IsFollowing, KeepsBase, KeepsOpening};
ghost use Rattle.ucon_state.specs.Shown.{shown};

use crate::acts::do_act;
use crate::amendments::replace_policy;
use crate::attributes::{set_attribute, tell_value};
use crate::entities::add_entity;
use crate::environment::{move_tick, set_variable};
use crate::outcome::{ActionFault, Outcome};
use crate::usage::{beat, end, look, try_again, try_right};
use std::alloc::Global;
use ucon_base::Side;
use ucon_model::{Caller, Command};
use ucon_state::State;

/// Makes a command's own actions. A refused command and one that reads change nothing. If memory runs out, the state may be anywhere within them,
/// and undoing gives what it gave before. All but a try are called from here. What comes of a try is large: called from here, it would have a room
/// of its own in this function, which each command clears.
pub fn own_actions(
    alloc: Global,
    state: &mut State,
    caller: Caller,
    command: &Command,
) -> Result<Outcome, ActionFault>
    requires { IsFollowing (shown state.old) }
    ensures given { IfOk result (λ o. Gives o (shown state.old) (shown state.new) (λ P T. own P T caller command.now)) }
    ensures refused { IfErr result (λ e. Refuses e (shown state.old) (λ P T. own P T caller command.now)) }
    ensures unchanged { IfErr result (λ e. Unchanged e (shown state.old) (shown state.new)) }
    ensures base { is_amendment command.now ≡ false → KeepsBase (shown state.old) (shown state.new) }
    ensures opening { KeepsOpening (shown state.old) (shown state.new) }
{
    match command {
        Command::Subject(name) => add_entity(state, caller, Side::Subject, *name),
        Command::Object(name) => add_entity(state, caller, Side::Object, *name),
        Command::Set {
            side,
            name,
            attr,
            value,
        } => set_attribute(alloc, state, caller, *side, name, attr, value),
        Command::Env { name, value } => set_variable(alloc, state, caller, name, value),
        Command::Tick(t) => move_tick(state, caller, *t),
        Command::Act {
            subject,
            action,
            object,
        } => do_act(state, subject, action, object),
        Command::Try {
            subject,
            right,
            object,
        } => try_right(alloc, state, caller, subject, right, object),
        Command::Again(n) => try_again(alloc, state, caller, *n),
        Command::Beat(n) => beat(alloc, state, caller, *n),
        Command::End(n) => end(alloc, state, caller, *n),
        Command::Look(n) => look(state, *n),
        Command::Value { side, name, attr } => tell_value(alloc, state, *side, name, attr),
        Command::Amend(amend) => replace_policy(alloc, state, caller, amend),
    }
}
