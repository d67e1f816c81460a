//! The deadline of each session, and what a draft has changed of it.

ghost use Rattle.std.specs.Prelude.{◌≡◌, ◌+◌, ◌<◌, ◌↔◌, [], ℤ, length, IsTrue, OnErr, OnOk};
ghost use Rattle.ucon_collections.specs.Deadlines.{AreAlike, Gives, count_below, deadline_of, passed};

use std::alloc::Global;
use std::marker::Model;
use std::mem;
use ucon_base::NoMemory;

/// A session whose deadline was changed, and the one that it had before.
#[derive(Clone, Copy)]
pub struct DeadlineChange {
    session: u32,
    before: Option<i64>,
}

/// The deadline of each session. What a draft changes can be undone until it is kept.
#[derive(Drop)]
pub struct Owned {
    /// The deadline of each session, at the place that is its number. A session behind the last one has none.
    deadlines: Vec<Option<i64>>,
    /// What the draft has changed, the last change last.
    changes: Vec<DeadlineChange>,
}

impl Model for Owned {
    ghost use Rattle.ucon_collections.specs.Deadlines.{Deadlines};

    ghost Value = { Deadlines };

    ghost use Rattle.ucon_collections.specs.Owned.{AreInPlace, deadlines_in};

    ghost view = { deadlines_in };

    ghost invariant = { AreInPlace };
}

impl Owned {
    /// No deadlines.
    pub fn new(alloc: Global) -> Owned
        ensures { result ≡ record { now = []; opening = [] } }
    {
        Owned {
            deadlines: Vec::new(alloc),
            changes: Vec::new(alloc),
        }
    }

    /// The deadline of a session.
    pub fn get(&self, session: u32) -> Option<i64>
        ensures { result ≡ deadline_of self.now.now session }
    {
        match self.deadlines.get(session as usize) {
            Some(deadline) => *deadline,
            None => None,
        }
    }

    /// Whether the deadline is the session's.
    pub fn has(&self, session: u32, deadline: i64) -> bool
        ensures { IsTrue result ↔ (deadline_of self.now.now session ≡ Some deadline) }
    {
        self.get(session) == Some(deadline)
    }

    /// Gives a session a deadline in place of its own, or takes that away.
    pub fn set(&mut self, session: u32, deadline: Option<i64>) -> Result<(), NoMemory>
        ensures gives { OnOk result (Gives self.old.now self.new.now session deadline) }
        ensures count { OnOk result ((tick : ℤ) → count_below self.new.now tick + passed tick (deadline_of self.old.now session)
            ≡ count_below self.old.now tick + passed tick deadline) }
        ensures err { OnErr result (AreAlike self.old.now self.new.now) }
        ensures opening { AreAlike self.old.opening self.new.opening }
    {
        self.lengthen(session)?;
        self.change(session, deadline)
    }

    /// Gives back the deadlines at the last keep. It takes no memory.
    pub fn undo(&mut self)
        ensures { self.new ≡ record { now = self.old.opening; opening = self.old.opening } }
    {
        while let Some(change) = self.changes.pop() {
            self.deadlines[change.session as usize] = change.before;
        }
    }

    /// From here on undoing gives what is there now.
    #[inline(always)]
    pub fn keep(&mut self)
        ensures { self.new ≡ record { now = self.old.now; opening = self.old.now } }
    {
        self.changes.clear();
    }

    /// Makes a place for the deadline of a session.
    fn lengthen(&mut self, session: u32) -> Result<(), NoMemory>
        ensures place { OnOk result (session < length self.new.now) }
        ensures now { AreAlike self.old.now self.new.now }
        ensures count { (tick : ℤ) → count_below self.new.now tick ≡ count_below self.old.now tick }
        ensures opening { AreAlike self.old.opening self.new.opening }
    {
        while self.place_count() <= session as usize {
            self.add_place()?;
        }
        Ok(())
    }

    /// How many sessions have a place.
    fn place_count(&self) -> usize
        ensures { result ≡ length self.now.now }
    {
        self.deadlines.len()
    }

    /// Makes a place for the deadline of the session behind the last one.
    fn add_place(&mut self) -> Result<(), NoMemory>
        ensures place { OnOk result (length self.new.now ≡ length self.old.now + 1) }
        ensures now { AreAlike self.old.now self.new.now }
        ensures count { (tick : ℤ) → count_below self.new.now tick ≡ count_below self.old.now tick }
        ensures opening { AreAlike self.old.opening self.new.opening }
    {
        self.deadlines.push(None)?;
        Ok(())
    }

    /// Changes the deadline of a session that has a place.
    fn change(&mut self, session: u32, deadline: Option<i64>) -> Result<(), NoMemory>
        requires { session < length self.old.now }
        ensures gives { OnOk result (Gives self.old.now self.new.now session deadline) }
        ensures count { OnOk result ((tick : ℤ) → count_below self.new.now tick + passed tick (deadline_of self.old.now session)
            ≡ count_below self.old.now tick + passed tick deadline) }
        ensures opening { self.new.opening ≡ self.old.opening }
        ensures err { OnErr result (self.new ≡ self.old) }
    {
        self.changes.reserve(1)?;
        let before = mem::replace(&mut self.deadlines[session as usize], deadline);
        self.changes
            .push_reserved(DeadlineChange { session, before });
        Ok(())
    }
}
