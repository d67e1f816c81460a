//! Which deadlines there are after a command's own actions, and whom a tick concerns.

ghost use Rattle.std.specs.Prelude.{◌≡◌, ◌+◌, ◌<◌, ◌≤◌, ℕ, ℤ, List, [], true, false, length, Option, IfOk, OnOk};
ghost use Rattle.std.specs.List.{Contains};
ghost use Rattle.ucon_actions.specs.Gives.{is_amendment};
ghost use Rattle.ucon_actions.specs.Leads.{AfterEach};
ghost use Rattle.ucon_model.specs.declared.command.Caller.{Caller};
ghost use Rattle.ucon_model.specs.declared.command.Command.{Command};
ghost use Rattle.ucon_model.specs.declared.command.Command.TheVariants as commands;
ghost use Rattle.ucon_model.specs.Action.{Action, Trace, extended};
ghost use Rattle.ucon_model.specs.Deadlines.{is_due};
ghost use Rattle.ucon_model.specs.Readings.{is_accessing, session};
ghost use Rattle.ucon_model.specs.Touches.{touches_by};
ghost use Rattle.ucon_model.specs.Plain.{PlainPolicy};
ghost use Rattle.ucon_state.specs.Shown.{shown};
ghost use Rattle.ucon_collections.specs.Deadlines.{count_below};
ghost use Rattle.ucon_cascade.specs.Passing.{AreTimedBefore, MayPass, PassesAll, WereMade, is_tick};
ghost use Rattle.ucon_cascade.specs.Timely.{AreTimedBelow, AreTimely, GivesFirst};
ghost use Rattle.ucon_readers.specs.Timers.{IsKept, UndoGives, deadlines_in};

use crate::follow::going_on;
use std::alloc::Global;
use ucon_base::NoMemory;
use ucon_collections::NumberSet;
use ucon_engine::sessions;
use ucon_model::{
    Command, Head, View, heads_tell_whose_usage_begins_or_ends, readings_that_agree_are_one,
};
use ucon_readers::{Timers, first_limit, undoing_gives_what_is_kept};
use ucon_state::{State, tables_keep_what_is_followed};

/// All deadlines are set anew if the command replaced the policy. A tick passes those below it, and puts their sessions into the work.
/// Else a permitted session gets its deadlines, and an ended one loses them; an act gives none.
pub fn follow_time(
    alloc: Global,
    state: &State,
    timers: &mut Timers,
    command: &Command,
    head: &Head,
    work: &mut NumberSet,
) -> Result<(), NoMemory>
    requires kept { IsKept timers.old }
    requires made { AreTimedBefore (shown state.now) (deadlines_in timers.old) command.now head.now }
    requires no_work { work.old.members ≡ [] }
    requires few { length (shown state.now).tables.sessions < work.old.limit }
    ensures timely { OnOk result ((P : PlainPolicy) (T : Trace) (caller : Caller) (actions : List Action)
        → WereMade (shown state.now) (deadlines_in timers.old) P T caller command.now head.now actions
        → AreTimely (deadlines_in timers.new) P (extended T actions)) }
    ensures due { OnOk result ((P : PlainPolicy) (T : Trace) (caller : Caller) (t : ℤ) (actions : List Action) → command.now ≡ commands.Tick t
        → WereMade (shown state.now) (deadlines_in timers.old) P T caller command.now head.now actions
        → (n : ℕ) → is_accessing (session T n) ≡ true → is_due P T t n ≡ true → Contains work.new.members n) }
    ensures touched { OnOk result ((P : PlainPolicy) (T : Trace) (caller : Caller) (actions : List Action)
        → WereMade (shown state.now) (deadlines_in timers.old) P T caller command.now head.now actions
        → (n : ℕ) → Contains work.new.members n → 1 ≤ touches_by P T actions n) }
    ensures quiet { is_tick command.now ≡ false → work.new.members ≡ [] }
    ensures limit { work.new.limit ≡ work.old.limit }
    ensures undo { UndoGives timers.new (deadlines_in timers.old) }
{
    undoing_gives_what_is_kept();
    match command {
        Command::Amend(_) => time_anew(alloc, state, timers),
        Command::Tick(_) => pass_deadlines(state, timers, work),
        _ => follow_usage(state, timers, head),
    }
}

/// A permitted session gets its deadlines, and an ended one loses them.
fn follow_usage(state: &State, timers: &mut Timers, head: &Head) -> Result<(), NoMemory>
    requires { IsKept timers.old }
    ensures timely { OnOk result ((P : PlainPolicy) (T : Trace) (caller : Caller) (c : Command) (actions : List Action)
        → is_amendment c ≡ false → is_tick c ≡ false → WereMade (shown state.now) (deadlines_in timers.old) P T caller c head.now actions
        → AreTimely (deadlines_in timers.new) P (extended T actions)) }
    ensures undo { (before : List (Option ℤ)) → UndoGives timers.old before → UndoGives timers.new before }
{
    heads_tell_whose_usage_begins_or_ends();
    readings_that_agree_are_one();
    tables_keep_what_is_followed();
    match head {
        Head::Permitted(n) => put_session(state, timers, *n),
        Head::Ended(n) => timers.set(*n, None),
        _ => Ok(()),
    }
}

/// Gives session n the first limit of what holds of its right for its deadline, and takes it away if nothing has a limit.
#[inline(always)]
fn put_session(state: &State, timers: &mut Timers, n: u32) -> Result<(), NoMemory>
    ensures gives { OnOk result (GivesFirst (shown state.now) (deadlines_in timers.old) (deadlines_in timers.new) n) }
    ensures below { OnOk result (count_below (deadlines_in timers.new) (shown state.now).tables.tick
        ≤ count_below (deadlines_in timers.old) (shown state.now).tables.tick) }
    ensures undo { (before : List (Option ℤ)) → UndoGives timers.old before → UndoGives timers.new before }
{
    timers.set(n, first_limit(state, n))
}

/// Takes the deadlines below the tick away, the earliest first. Their sessions are put into the work, and get the next ones of what still
/// holds of their rights.
fn pass_deadlines(state: &State, timers: &mut Timers, work: &mut NumberSet) -> Result<(), NoMemory>
    requires may { MayPass (shown state.now) (deadlines_in timers.old) work.old.members }
    requires few { length (shown state.now).tables.sessions < work.old.limit }
    ensures passed { OnOk result (PassesAll (shown state.now) (deadlines_in timers.old) (deadlines_in timers.new) work.old.members work.new.members) }
    ensures limit { work.new.limit ≡ work.old.limit }
    ensures undo { (before : List (Option ℤ)) → UndoGives timers.old before → UndoGives timers.new before }
{
    readings_that_agree_are_one();
    tables_keep_what_is_followed();
    while let Some(n) = timers.take_due(state.tick())? {
        put_session(state, timers, n)?;
        work.put(n);
    }
    Ok(())
}

/// The deadlines of now take the place of those before.
fn time_anew(alloc: Global, state: &State, timers: &mut Timers) -> Result<(), NoMemory>
    requires { IsKept timers.old }
    ensures timely { OnOk result (AfterEach (shown state.now) (AreTimely (deadlines_in timers.new))) }
    ensures undo { UndoGives timers.new (deadlines_in timers.old) }
{
    undoing_gives_what_is_kept();
    let all = all_timers(alloc, state)?;
    timers.replace(all);
    Ok(())
}

/// All deadlines.
pub fn all_timers(alloc: Global, state: &State) -> Result<Timers, NoMemory>
    ensures { IfOk result (λ t. AfterEach (shown state.now) (AreTimely (deadlines_in t))) }
{
    let mut timers = Timers::new(alloc);
    for before in 0..sessions(state) {
        put_accessing(state, &mut timers, before + 1)?;
    }
    Ok(timers)
}

/// Gives session n its deadlines, if it is accessing.
fn put_accessing(state: &State, timers: &mut Timers, n: u32) -> Result<(), NoMemory>
    requires { AfterEach (shown state.now) (AreTimedBelow n (deadlines_in timers.old)) }
    ensures { OnOk result (AfterEach (shown state.now) (AreTimedBelow (n + 1) (deadlines_in timers.new))) }
{
    readings_that_agree_are_one();
    tables_keep_what_is_followed();
    let Some(_row) = going_on(state, n) else {
        return Ok(());
    };
    put_session(state, timers, n)
}
