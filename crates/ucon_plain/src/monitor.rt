//! The plain monitor.

ghost use Rattle.std.specs.Prelude.{◌≡◌, ◌↔◌, List, IfOk, OnOk, OnErr, ⊤};
ghost use Rattle.ucon_model.specs.Action.{Action, Trace};
ghost use Rattle.ucon_model.specs.Block.{after, block, reply as reply_to};
ghost use Rattle.ucon_model.specs.CommandLine.{IsCommand};
ghost use Rattle.ucon_model.specs.History.{History, AreCommands, trace};
ghost use Rattle.ucon_model.specs.Legal.{AreLegal};
ghost use Rattle.ucon_model.specs.Plain.{PlainPolicy};
ghost use Rattle.ucon_model.specs.Typing.{IsTyped};
ghost use Rattle.ucon_model.specs.Views.{reply_of};
ghost use Rattle.ucon_plain.specs.Cascading.{AreActionsOf};
ghost use Rattle.ucon_engine.specs.Engine.{FollowsLike, IsIdle};

use crate::settle::least_failing;
use crate::step::take_step;
use std::alloc::Global;
use ucon_base::{NoMemory, Steps};
use ucon_engine::{Engine, RestoreFault};
use ucon_model::{
    Caller, Checked, Command, Reply, SessionState, blocks_are_legal, settling_is_the_only_cascade,
    the_least_failing_is_found,
};
use ucon_state::{State, each_action_is_followed};

/// It rechecks every accessing session after each change, as the definitions do.
#[derive(Drop)]
pub struct PlainMonitor {
    alloc: Global,
    state: State,
}

impl Engine for PlainMonitor {
    ghost use Rattle.ucon_plain.specs.Monitor.{IsReady, HasPending};

    ghost follows = { IsReady };

    ghost has_pending = { HasPending };

    // It may judge as often as it likes.
    ghost costs = { λ _ _ _ _ _ _. ⊤ };

    fn begin(alloc: Global, checked: Checked) -> Result<PlainMonitor, NoMemory> {
        each_action_is_followed();
        let state = State::new(alloc, checked)?;
        Ok(PlainMonitor { alloc, state })
    }

    fn draft(
        &mut self,
        caller: Caller,
        command: &Command,
        steps: &mut Steps,
    ) -> Result<Reply, NoMemory> {
        take_step(self.alloc, &mut self.state, caller, command, steps)
    }

    fn keep(&mut self) {
        self.state.keep();
    }

    fn undo(&mut self) {
        self.state.undo_all();
    }

    fn status(&self, session: u32) -> Option<SessionState> {
        self.state.session_state(session)
    }

    fn state(&self) -> &State {
        &self.state
    }

    fn into_state(self) -> State {
        self.state
    }

    fn restore(alloc: Global, state: State) -> Result<PlainMonitor, RestoreFault> {
        the_least_failing_is_found();
        let mut steps = Steps::new();
        match least_failing(&state, &mut steps) {
            Some(found) => Err(RestoreFault::Unsettled(found.0, found.1)),
            None => Ok(PlainMonitor { alloc, state }),
        }
    }
}

impl PlainMonitor {
    ghost use Rattle.ucon_plain.specs.Monitor.{IsReady};

    /// A draft and a keep in one. Want of memory changes nothing.
    pub fn step(&mut self, caller: Caller, command: &Command) -> Result<Reply, NoMemory>
        requires { IsIdle IsReady self.old }
        ensures reply { IfOk result (λ r. (P : PlainPolicy) (T : Trace) → IsReady self.old P T → reply_of r ≡ reply_to P T caller command.now) }
        ensures follows { OnOk result ((P : PlainPolicy) (T : Trace) → IsReady self.old P T → IsReady self.new P (after P T caller command.now)) }
        ensures err { OnErr result (FollowsLike IsReady self.old self.new) }

        // Under a well typed policy, after every history of commands, each action of the block is legal after those before it. The block is the
        // only list that begins with the command's own actions and goes on as a cascade.
        ensures legal { (P : PlainPolicy) (H : History) → IsTyped P → AreCommands H → IsCommand command.now
            → AreLegal P (trace P H) (block P (trace P H) caller command.now) }
        ensures only { (P : PlainPolicy) (H : History) (actions : List Action)
            → AreActionsOf P (trace P H) caller command.now actions ↔ (actions ≡ block P (trace P H) caller command.now) }
    {
        blocks_are_legal();
        settling_is_the_only_cascade();
        let mut steps = Steps::new();
        let drafted = self.draft(caller, command, &mut steps)?;
        if drafted.changes() {
            self.keep();
        }
        Ok(drafted)
    }
}
