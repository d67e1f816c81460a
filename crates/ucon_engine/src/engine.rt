//! The trait that every engine meets.

ghost use Rattle.std.specs.Prelude.{◌≡◌, ◌≤◌, [], ℕ, None, IsTrue, IsFalse, IfOk, OnErr};
ghost use Rattle.ucon_model.specs.declared.command.Entry.{Entry};
ghost use Rattle.ucon_model.specs.Action.{Trace};
ghost use Rattle.ucon_model.specs.Block.{after, reply as reply_to};
ghost use Rattle.ucon_model.specs.Checked.{checked_policy};
ghost use Rattle.ucon_model.specs.Plain.{PlainPolicy};
ghost use Rattle.ucon_model.specs.History.{changes};
ghost use Rattle.ucon_model.specs.Settle.{fails_at};
ghost use Rattle.ucon_model.specs.Views.{reply_of};
ghost use Rattle.ucon_engine.specs.Engine.{FollowsLike, IsIdle, IsPending, TakesUp, state_of};
ghost use Rattle.ucon_state.specs.Following.{Follows};
ghost use Rattle.ucon_state.specs.Shown.{shown};
ghost use Rattle.ucon_state.specs.TakingUp.{CanBeTakenUp, HasNothingToUndo};

use crate::restore_fault::RestoreFault;
use std::alloc::Global;
use ucon_base::{NoMemory, Steps};
use ucon_model::{Caller, Checked, Command, Reply, SessionState};
use ucon_state::State;

/// A monitor under a policy. A command is drafted first; a change is then pending, and is kept or undone whole. `keep`, `undo` and
/// `status` take no memory.
pub trait Engine: Drop {
    /// Nothing is pending, and the monitor is as after a trace under a policy. It follows each trace that gives the same to read.
    ghost follows: { Self → PlainPolicy → Trace → Type 0 };

    /// The change of an entry after a trace is pending.
    ghost has_pending: { Self → PlainPolicy → Trace → Entry → Type 0 };

    /// What drafting an entry after a trace may cost: the counts of judgements before and after it.
    ghost costs: { Self → PlainPolicy → Trace → Entry → ℕ → ℕ → Type 0 };

    /// The opening state.
    fn begin(alloc: Global, checked: Checked) -> Result<Self, NoMemory>
        ensures { IfOk result (λ e. follows e (checked_policy checked) []) };

    /// The reply. Where it changes something, that change is now pending. Each recheck of a session counts a step. What that comes to is
    /// bounded on both endings.
    fn draft(
        &mut self,
        caller: Caller,
        command: &Command,
        steps: &mut Steps,
    ) -> Result<Reply, NoMemory>
        requires { IsIdle follows self.old }
        ensures reply { IfOk result (λ r. (P : PlainPolicy) (T : Trace) → follows self.old P T → reply_of r ≡ reply_to P T caller command.now) }
        ensures pending { IfOk result (λ r. IsTrue (changes (reply_of r))
            → (P : PlainPolicy) (T : Trace) → follows self.old P T → has_pending self.new P T (record { caller = caller; command = command.now })) }
        ensures unchanged { IfOk result (λ r. IsFalse (changes (reply_of r)) → FollowsLike follows self.old self.new) }
        ensures err { OnErr result (FollowsLike follows self.old self.new) }
        ensures cost { (P : PlainPolicy) (T : Trace) → follows self.old P T
            → costs self.old P T (record { caller = caller; command = command.now }) steps.old steps.new }
        ensures later { steps.old ≤ steps.new };

    /// Keeps the pending change. The monitor then follows the trace after the entry, and no session fails.
    fn keep(&mut self)
        requires { IsPending has_pending self.old }
        ensures follows { (P : PlainPolicy) (T : Trace) (e : Entry) → has_pending self.old P T e → follows self.new P (after P T e.caller e.command) }
        ensures nobody_fails { (P : PlainPolicy) (T : Trace) (e : Entry) → has_pending self.old P T e
            → (n : ℕ) → fails_at P (after P T e.caller e.command) n ≡ None };

    /// Undoes the pending change. The monitor then follows the trace as it was before the draft.
    fn undo(&mut self)
        requires { IsPending has_pending self.old }
        ensures { (P : PlainPolicy) (T : Trace) (e : Entry) → has_pending self.old P T e → follows self.new P T };

    /// None if there is no such session. A pending change counts.
    fn status(&self, session: u32) -> Option<SessionState>
        ensures idle { (P : PlainPolicy) (T : Trace) → follows self.now P T → result ≡ state_of T session }
        ensures pending { (P : PlainPolicy) (T : Trace) (e : Entry) → has_pending self.now P T e
            → result ≡ state_of (after P T e.caller e.command) session };

    /// What is there now. A pending change counts.
    fn state(&self) -> &State
        ensures idle { (P : PlainPolicy) (T : Trace) → follows self.now P T → Follows (shown result.now) P T }
        ensures pending { (P : PlainPolicy) (T : Trace) (e : Entry) → has_pending self.now P T e
            → Follows (shown result.now) P (after P T e.caller e.command) };

    /// Gives the state out. It takes no memory.
    fn into_state(self) -> State
        requires { IsIdle follows self }
        ensures follows { (P : PlainPolicy) (T : Trace) → follows self P T → Follows (shown result) P T }
        ensures settled { HasNothingToUndo (shown result) };

    /// Goes on from a state, as an engine that is after a trace which gives the same to read.
    fn restore(alloc: Global, state: State) -> Result<Self, RestoreFault>
        requires { CanBeTakenUp (shown state) }
        ensures { TakesUp follows (shown state) result };
}
