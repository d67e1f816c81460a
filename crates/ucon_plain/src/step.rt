//! One step: a command's own actions, and then the cascade.

ghost use Rattle.std.specs.Prelude.{◌≡◌, ◌≤◌, ℕ, None, IfOk, OnErr, IsTrue, IsFalse};
ghost use Rattle.ucon_model.specs.Block.{after, reply};
ghost use Rattle.ucon_model.specs.History.{changes};
ghost use Rattle.ucon_model.specs.Settle.{fails_at};
ghost use Rattle.ucon_model.specs.Views.{reply_of};
ghost use Rattle.ucon_actions.specs.Leads.{AfterEach, IsFollowing, KeepsOpening, Leads};
ghost use Rattle.ucon_state.specs.Shown.{given_back, shown};

use crate::settle::settle;
use std::alloc::Global;
use ucon_actions::{ActionFault, Outcome, own_actions};
use ucon_base::{NoMemory, Steps};
use ucon_model::{Caller, Command, Reply, actions_are_done_in_order, nobody_fails_after_settling};
use ucon_state::State;

/// Want of memory gives back what undoing gave before the step.
pub fn take_step(
    alloc: Global,
    state: &mut State,
    caller: Caller,
    command: &Command,
    steps: &mut Steps,
) -> Result<Reply, NoMemory>
    requires { IsFollowing (shown state.old) }
    ensures reply { IfOk result (λ r. AfterEach (shown state.old) (λ P T. reply_of r ≡ reply P T caller command.now)) }
    ensures changed { IfOk result (λ r. IsTrue (changes (reply_of r))
        → Leads (shown state.old) (shown state.new) (λ P T. after P T caller command.now)) }
    ensures nobody { IfOk result (λ r. IsTrue (changes (reply_of r))
        → AfterEach (shown state.old) (λ P T. (n : ℕ) → fails_at P (after P T caller command.now) n ≡ None)) }
    ensures unchanged { IfOk result (λ r. IsFalse (changes (reply_of r)) → shown state.new ≡ shown state.old) }
    ensures undone { OnErr result (shown state.new ≡ given_back (shown state.old)) }
    ensures opening { KeepsOpening (shown state.old) (shown state.new) }
    ensures later { steps.old ≤ steps.new }
{
    match make_step(alloc, state, caller, command, steps) {
        Ok(reply) => Ok(reply),
        Err(refused) => {
            state.undo_all();
            Err(refused)
        }
    }
}

/// If memory runs out, the state may be anywhere within the step.
fn make_step(
    alloc: Global,
    state: &mut State,
    caller: Caller,
    command: &Command,
    steps: &mut Steps,
) -> Result<Reply, NoMemory>
    requires { IsFollowing (shown state.old) }
    ensures reply { IfOk result (λ r. AfterEach (shown state.old) (λ P T. reply_of r ≡ reply P T caller command.now)) }
    ensures changed { IfOk result (λ r. IsTrue (changes (reply_of r))
        → Leads (shown state.old) (shown state.new) (λ P T. after P T caller command.now)) }
    ensures nobody { IfOk result (λ r. IsTrue (changes (reply_of r))
        → AfterEach (shown state.old) (λ P T. (n : ℕ) → fails_at P (after P T caller command.now) n ≡ None)) }
    ensures unchanged { IfOk result (λ r. IsFalse (changes (reply_of r)) → shown state.new ≡ shown state.old) }
    ensures opening { KeepsOpening (shown state.old) (shown state.new) }
    ensures later { steps.old ≤ steps.new }
{
    actions_are_done_in_order();
    nobody_fails_after_settling();
    match own_actions(alloc, state, caller, command) {
        Err(ActionFault::NoMemory(refused)) => Err(refused),
        Err(ActionFault::Refused(r)) => Ok(Reply::Refused(r)),
        Ok(Outcome::Value(v)) => Ok(Reply::Value(v)),
        Ok(Outcome::Status(n, state)) => Ok(Reply::Status(n, state)),
        Ok(Outcome::Made(head)) => {
            let revoked = settle(alloc, state, steps)?;
            Ok(Reply::Made { head, revoked })
        }
    }
}
