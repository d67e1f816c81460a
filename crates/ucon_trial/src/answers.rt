//! Answers lines, one after the other.

ghost use Rattle.std.specs.Prelude.{◌≡◌, ◌+◌, ◌-◌, ◌^◌, ◌<◌, [], length, min, map, IfOk, OnOk, IsFalse, IsTrue, if◌then◌else◌};
ghost use Rattle.ucon_model.specs.declared.command.Entry.{Entry};
ghost use Rattle.ucon_model.specs.History.{History, grown, said, trace};
ghost use Rattle.ucon_model.specs.History as histories;
ghost use Rattle.ucon_model.specs.Plain.{PlainPolicy};
ghost use Rattle.ucon_engine.specs.Engine.{IsIdle, IsPending, StandsFor};
ghost use Rattle.ucon_trial.specs.Hearing.{HasHeard, HearsAnswer};
ghost use Rattle.ucon_trial.specs.OneAnswer.{Answers, entry_of};

use crate::hearer::Hearer;
use std::alloc::Global;
use ucon_base::{NoMemory, Steps};
use ucon_engine::Engine;
use ucon_model::{Command, grown_histories_go_on};
use ucon_script::LineText;

/// A run of the lines from the empty history: each is answered in their order, and its answer is told to the hearer, who has heard
/// nothing before.
pub fn run_lines<E: Engine, R: Hearer>(
    alloc: Global,
    mut engine: E,
    mut hearer: R,
    lines: &[LineText<'_>],
) -> Result<R, NoMemory>
    requires idle { IsIdle E.follows engine }
    requires nothing_heard { R.hears hearer [] }
    ensures heard { IfOk result (λ hearer. (P : PlainPolicy) → StandsFor E.follows engine P []
        → HasHeard P (R.hears hearer) (map entry_of lines.now)) }
    ensures few { length lines.now < 2 ^ 64 }
{
    answer_lines(alloc, &mut engine, &mut hearer, lines)?;
    Ok(hearer)
}

/// Answers each line in their order, and tells its answer to the hearer, who has heard nothing before.
fn answer_lines<E: Engine, R: Hearer>(
    alloc: Global,
    engine: &mut E,
    hearer: &mut R,
    lines: &[LineText<'_>],
) -> Result<(), NoMemory>
    requires idle { IsIdle E.follows engine.old }
    requires nothing_heard { R.hears hearer.old [] }
    ensures heard { OnOk result ((P : PlainPolicy) → StandsFor E.follows engine.old P [] → HasHeard P (R.hears hearer.new) (map entry_of lines.now)) }
    ensures few { length lines.now < 2 ^ 64 }
{
    let mut command = Command::Look(0);
    answer_each(alloc, engine, hearer, &mut command, lines)
}

/// As [`answer_lines`], where each line's command is written over another one.
fn answer_each<E: Engine, R: Hearer>(
    alloc: Global,
    engine: &mut E,
    hearer: &mut R,
    command: &mut Command,
    lines: &[LineText<'_>],
) -> Result<(), NoMemory>
    requires idle { IsIdle E.follows engine.old }
    requires nothing_heard { R.hears hearer.old [] }
    ensures heard { OnOk result ((P : PlainPolicy) → StandsFor E.follows engine.old P [] → HasHeard P (R.hears hearer.new) (map entry_of lines.now)) }
    ensures few { length lines.now < 2 ^ 64 }
{
    let mut steps = Steps::new();
    let mut place = 0u64;
    for line in lines {
        place = answer_one(alloc, engine, hearer, &mut steps, command, place, line)?;
    }
    Ok(())
}

/// Answers one line, and tells the hearer the answer. The line's command is written over another one. The number of records after it
/// comes back.
fn answer_one<E: Engine, R: Hearer>(
    alloc: Global,
    engine: &mut E,
    hearer: &mut R,
    steps: &mut Steps,
    command: &mut Command,
    place: u64,
    line: &LineText<'_>,
) -> Result<u64, NoMemory>
    requires { IsIdle E.follows engine.old }
    ensures idle { IsIdle E.follows engine.new }
    ensures answers { IfOk result (λ next. (P : PlainPolicy) (H : History) → StandsFor E.follows engine.old P H
        → Answers P (StandsFor E.follows engine.new P) (HearsAnswer R.hears hearer.old hearer.new (entry_of line.now))
        H place next (entry_of line.now)) }
{
    match line.command.command_into(alloc, command) {
        Ok(()) => answer(alloc, engine, hearer, steps, place, line, command),
        Err(_) => {
            hearer.no_memory(line)?;
            Ok(place)
        }
    }
}

/// Lets the engine answer a line's command, and keeps the change if it makes one. If there is no memory, nothing changes.
fn answer<E: Engine, R: Hearer>(
    alloc: Global,
    engine: &mut E,
    hearer: &mut R,
    steps: &mut Steps,
    place: u64,
    line: &LineText<'_>,
    command: &Command,
) -> Result<u64, NoMemory>
    requires idle { IsIdle E.follows engine.old }
    requires command { (entry_of line.now).command ≡ command.now }
    ensures idle { IsIdle E.follows engine.new }
    ensures answers { IfOk result (λ next. (P : PlainPolicy) (H : History) → StandsFor E.follows engine.old P H
        → Answers P (StandsFor E.follows engine.new P) (HearsAnswer R.hears hearer.old hearer.new (entry_of line.now))
        H place next (entry_of line.now)) }
{
    match engine.draft(line.caller, command, steps) {
        Err(_) => {
            hearer.no_memory(line)?;
            Ok(place)
        }
        Ok(reply) => {
            let changes = reply.changes();
            keep_change(engine, changes);
            let next = place_after(place, changes);
            hearer.reply(alloc, line, next, &reply)?;
            Ok(next)
        }
    }
}

/// Keeps the change that is pending, if there is one.
#[inline(always)]
fn keep_change<E: Engine>(engine: &mut E, changes: bool)
    requires pending { IsTrue changes → IsPending E.has_pending engine.old }
    requires idle { IsFalse changes → IsIdle E.follows engine.old }
    ensures idle { IsIdle E.follows engine.new }
    ensures stands { (P : PlainPolicy) (H : History) (e : Entry) → changes ≡ histories.changes (said P H e.caller e.command)
        → (IsTrue changes → E.has_pending engine.old P (trace P H) e) → (IsFalse changes → StandsFor E.follows engine.old P H)
        → StandsFor E.follows engine.new P (grown P H e) }
{
    grown_histories_go_on();
    if changes {
        engine.keep();
    }
}

/// The number of records after a reply: one more if it changes something.
fn place_after(place: u64, changes: bool) -> u64
    ensures { result ≡ min (if changes then place + 1 else place) (2 ^ 64 - 1) }
{
    if changes {
        place.saturating_add(1)
    } else {
        place
    }
}
