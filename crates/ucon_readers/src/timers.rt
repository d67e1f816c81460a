//! The deadlines of usages that go on, and what a draft has changed of them.

ghost use Rattle.std.specs.Prelude.{◌≡◌, ◌+◌, ◌≤ℤ◌, ℕ, ℤ, List, Option, IfNone, IfOk, IfSome, None, OnErr, OnOk, Some};
ghost use Rattle.ucon_collections.specs.Deadlines.{AreAlike, Gives, IsPassed, count_below, deadline_of, passed};

use std::alloc::Global;
use std::mem;
use ucon_base::{Int, NoMemory};
use ucon_collections::Deadlines;

/// Forgets the deadlines that was replaced, if one was: most often none was, and to move none costs as much as to move one.
#[inline(always)]
fn forget(replaced: &mut Option<Deadlines>)
    ensures { replaced.new ≡ None }
{
    if replaced.is_some() {
        forget_some(replaced);
    }
}

/// Forgets the deadlines that were replaced. It stands alone, so that who forgets none makes no room for some.
#[inline(never)]
fn forget_some(replaced: &mut Option<Deadlines>)
    ensures { replaced.new ≡ None }
{
    *replaced = None;
}

/// For each accessing session the first tick after which a part of what its right reads may stop to hold, if there is one. What a draft
/// changes can be undone until it is kept.
#[derive(Drop)]
pub struct Timers {
    deadlines: Deadlines,
    /// The deadlines before the draft, if the draft has put another in its place.
    replaced: Option<Deadlines>,
}

impl Timers {
    ghost use Rattle.ucon_readers.specs.Timers.{IsKept, UndoGives, deadlines_in};

    /// No deadlines.
    pub fn new(alloc: Global) -> Timers
        ensures none { (n : ℕ) → deadline_of (deadlines_in result) n ≡ None }
        ensures kept { IsKept result }
    {
        Timers {
            deadlines: Deadlines::new(alloc),
            replaced: None,
        }
    }

    /// Gives a session a deadline in place of its own, or takes that away.
    pub fn set(&mut self, session: u32, deadline: Option<i64>) -> Result<(), NoMemory>
        ensures gives { OnOk result (Gives (deadlines_in self.old) (deadlines_in self.new) session deadline) }
        ensures count { OnOk result ((tick : ℤ) → count_below (deadlines_in self.new) tick + passed tick (deadline_of (deadlines_in self.old) session)
            ≡ count_below (deadlines_in self.old) tick + passed tick deadline) }
        ensures err { OnErr result (AreAlike (deadlines_in self.old) (deadlines_in self.new)) }
        ensures undo { (before : List (Option ℤ)) → UndoGives self.old before → UndoGives self.new before }
    {
        self.deadlines.set(session, deadline)
    }

    /// Takes the earliest deadline from its session, if it is below the tick, and says which session that is.
    pub fn take_due(&mut self, tick: Int) -> Result<Option<u32>, NoMemory>
        ensures due { IfOk result (λ o. IfSome o (λ n. IsPassed tick (deadline_of (deadlines_in self.old) n))) }
        ensures taken { IfOk result (λ o. IfSome o (λ n. Gives (deadlines_in self.old) (deadlines_in self.new) n None)) }
        ensures fewer { IfOk result (λ o. IfSome o (λ n. count_below (deadlines_in self.new) tick + 1
            ≡ count_below (deadlines_in self.old) tick)) }
        ensures rest { IfOk result (λ o. IfNone o ((n : ℕ) (deadline : ℤ)
            → deadline_of (deadlines_in self.old) n ≡ Some deadline → tick ≤ℤ deadline)) }
        ensures none { IfOk result (λ o. IfNone o (AreAlike (deadlines_in self.old) (deadlines_in self.new))) }
        ensures err { OnErr result (AreAlike (deadlines_in self.old) (deadlines_in self.new)) }
        ensures undo { (before : List (Option ℤ)) → UndoGives self.old before → UndoGives self.new before }
    {
        self.deadlines.take_due(tick)
    }

    /// From here on these are the deadlines. Undoing gives back those before.
    pub fn replace(&mut self, others: Timers)
        requires kept { IsKept self.old }
        ensures deadlines { deadlines_in self.new ≡ deadlines_in others }
        ensures undo { UndoGives self.new (deadlines_in self.old) }
    {
        let before = mem::replace(&mut self.deadlines, others.deadlines);
        self.replaced = Some(before);
    }

    /// Gives back the deadlines at the last keep. It takes no memory.
    pub fn undo(&mut self)
        ensures back { (before : List (Option ℤ)) → UndoGives self.old before → AreAlike before (deadlines_in self.new) }
        ensures kept { IsKept self.new }
    {
        if let Some(before) = self.replaced.take() {
            self.deadlines = before;
        }
        self.deadlines.undo();
    }

    /// From here on undoing gives what is there now.
    #[inline(always)]
    pub fn keep(&mut self)
        ensures deadlines { deadlines_in self.new ≡ deadlines_in self.old }
        ensures kept { IsKept self.new }
    {
        self.deadlines.keep();
        forget(&mut self.replaced);
    }
}
