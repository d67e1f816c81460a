//! The deadline of each session.

ghost use Rattle.std.specs.Prelude.{◌≡◌, ◌+◌, ◌<ℤ◌, ◌≤ℤ◌, [], ℕ, ℤ, None, Some, IfNone, IfOk, IfSome, OnErr, OnOk};
ghost use Rattle.ucon_collections.specs.Deadlines.{AreAlike, Gives, IsPassed, count_below, deadline_of, passed};

use crate::owned::Owned;
use crate::queue::Queue;
use std::alloc::Global;
use std::marker::Model;
use ucon_base::{Int, NoMemory};

/// At most one deadline a session. What a draft changes can be undone until it is kept.
#[derive(Drop)]
pub struct Deadlines {
    /// The deadline of each session, and what the draft has changed of them.
    owned: Owned,
    /// Each session's deadline, and such as a session had before it was given another.
    queue: Queue,
}

impl Model for Deadlines {
    ghost use Rattle.ucon_collections.specs.Deadlines.{Deadlines};

    ghost Value = { Deadlines };

    ghost use Rattle.ucon_collections.specs.Sound.{IsSound};

    ghost view = { λ d. d.owned };

    ghost invariant = { λ d. IsSound d.owned d.queue };
}

impl Deadlines {
    /// No deadlines.
    pub fn new(alloc: Global) -> Deadlines
        ensures { result ≡ record { now = []; opening = [] } }
    {
        Deadlines {
            owned: Owned::new(alloc),
            queue: Queue::new(alloc),
        }
    }

    /// The deadline of a session.
    pub fn deadline(&self, session: u32) -> Option<i64>
        ensures { result ≡ deadline_of self.now.now session }
    {
        self.owned.get(session)
    }

    /// Gives a session a deadline in place of its own, or takes that away.
    pub fn set(&mut self, session: u32, deadline: Option<i64>) -> Result<(), NoMemory>
        ensures gives { OnOk result (Gives self.old.now self.new.now session deadline) }
        ensures count { OnOk result ((tick : ℤ) → count_below self.new.now tick + passed tick (deadline_of self.old.now session)
            ≡ count_below self.old.now tick + passed tick deadline) }
        ensures err { OnErr result (AreAlike self.old.now self.new.now) }
        ensures opening { AreAlike self.old.opening self.new.opening }
    {
        if self.owned.get(session) == deadline {
            return Ok(());
        }
        self.queue.enter(session, deadline)?;
        self.owned.set(session, deadline)
    }

    /// Takes the earliest deadline from its session, if it is below the tick, and says which session that is.
    pub fn take_due(&mut self, tick: Int) -> Result<Option<u32>, NoMemory>
        ensures due { IfOk result (λ o. IfSome o (λ n. IsPassed tick (deadline_of self.old.now n))) }
        ensures taken { IfOk result (λ o. IfSome o (λ n. Gives self.old.now self.new.now n None)) }
        ensures fewer { IfOk result (λ o. IfSome o (λ n. count_below self.new.now tick + 1 ≡ count_below self.old.now tick)) }
        ensures rest { IfOk result (λ o. IfNone o ((n : ℕ) (deadline : ℤ) → deadline_of self.old.now n ≡ Some deadline → tick ≤ℤ deadline)) }
        ensures none { IfOk result (λ o. IfNone o (AreAlike self.old.now self.new.now)) }
        ensures err { OnErr result (AreAlike self.old.now self.new.now) }
        ensures opening { AreAlike self.old.opening self.new.opening }
    {
        while let Some((deadline, session)) = self.queue.first_below(tick) {
            self.queue.make_room()?;
            if self.owned.has(session, deadline) {
                self.owned.set(session, None)?;
                self.queue.take_first();
                return Ok(Some(session));
            }
            self.queue.take_first();
        }
        Ok(None)
    }

    /// Gives back the deadlines at the last keep. It takes no memory.
    pub fn undo(&mut self)
        ensures { self.new ≡ record { now = self.old.opening; opening = self.old.opening } }
    {
        self.owned.undo();
        self.queue.undo();
    }

    /// From here on undoing gives what is there now.
    #[inline(always)]
    pub fn keep(&mut self)
        ensures { self.new ≡ record { now = self.old.now; opening = self.old.now } }
    {
        self.owned.keep();
        self.queue.keep();
    }
}
