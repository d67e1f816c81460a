//! Deadlines with their sessions, the earliest first.

ghost use Rattle.std.specs.Prelude.{◌≡◌, ◌+◌, ◌<◌, ◌<ℤ◌, ◌≤◌, ◌≤ℤ◌, ◌∷◌, ◌++◌, ◌⊎◌, [], ℕ, ℤ, Some, IfNone, IfSome, OnOk, slice_get};
ghost use Rattle.std.specs.BinaryHeap.{IsHeap, heap_capacity, heap_items, heap_len};
ghost use Rattle.std.specs.List.{Contains};
ghost use Rattle.std.specs.List.Sorted.{IsPermutation};
ghost use Rattle.ucon_collections.specs.Entries.{Entry, entry, entry_cmp};

use std::alloc::Global;
use std::cmp::Reverse;
use std::collections::BinaryHeap;
use std::marker::Model;
use ucon_base::{Int, NoMemory};

/// Deadlines with their sessions, the earliest first. What a draft takes off can be given back until it is kept.
#[derive(Drop)]
pub struct Queue {
    /// The earliest deadline is on top.
    entries: BinaryHeap<Reverse<(i64, u32)>>,
    /// What the draft has taken off. `entries` has room for all of it.
    taken: Vec<Reverse<(i64, u32)>>,
}

impl Model for Queue {
    ghost use Rattle.ucon_collections.specs.Entries.{Queued};

    ghost Value = { Queued };

    ghost use Rattle.ucon_collections.specs.Queue.{IsInOrder, queued};

    ghost view = { queued };

    ghost invariant = { IsInOrder };
}

impl Queue {
    /// No deadlines.
    pub fn new(alloc: Global) -> Queue
        ensures waiting { result.waiting ≡ [] }
        ensures taken { result.taken ≡ [] }
    {
        Queue {
            entries: BinaryHeap::new(alloc),
            taken: Vec::new(alloc),
        }
    }

    /// Puts a deadline of a session into the queue, if it has one.
    pub fn enter(&mut self, session: u32, deadline: Option<i64>) -> Result<(), NoMemory>
        ensures entered { OnOk result ((d : ℤ) → deadline ≡ Some d → Contains self.new.waiting (entry d session)) }
        ensures rest { (e : Entry) → Contains self.old.waiting e → Contains self.new.waiting e }
        ensures taken { self.new.taken ≡ self.old.taken }
    {
        let Some(deadline) = deadline else {
            return Ok(());
        };
        self.entries.reserve(self.taken.len() + 1)?;
        self.entries.push(entry_of(session, deadline))?;
        Ok(())
    }

    /// The first of the queue, if its deadline is below the tick.
    pub fn first_below(&self, tick: Int) -> Option<(i64, u32)>
        ensures first { IfSome result (λ p. slice_get self.now.waiting 0 ≡ Some (entry p.0 p.1)) }
        ensures below { IfSome result (λ p. p.0 <ℤ tick) }
        ensures none { IfNone result ((d : ℤ) (n : ℕ) → Contains self.now.waiting (entry d n) → tick ≤ℤ d) }
    {
        match self.entries.peek() {
            Some(Reverse(first)) if first.0 < tick.get() => Some(*first),
            _ => None,
        }
    }

    /// Makes room for one that is taken off.
    pub fn make_room(&mut self) -> Result<(), NoMemory>
        ensures room { OnOk result (0 < self.new.room) }
        ensures waiting { self.new.waiting ≡ self.old.waiting }
        ensures taken { self.new.taken ≡ self.old.taken }
    {
        self.taken.reserve(1)?;
        Ok(())
    }

    /// Takes the first off the queue.
    pub fn take_first(&mut self)
        requires { 0 < self.old.room }
        ensures taken { (e : Entry) → slice_get self.old.waiting 0 ≡ Some e → self.new.taken ≡ self.old.taken ++ e ∷ [] }
        ensures rest { (e : Entry) → slice_get self.old.waiting 0 ≡ Some e → IsPermutation self.old.waiting (e ∷ self.new.waiting) }
    {
        if let Some(first) = self.entries.pop() {
            self.taken.push_reserved(first);
        }
    }

    /// Gives back what was taken off since the last keep. It takes no memory.
    pub fn undo(&mut self)
        ensures back { (e : Entry) → Contains self.old.waiting e ⊎ Contains self.old.taken e → Contains self.new.waiting e }
        ensures taken { self.new.taken ≡ [] }
    {
        while let Some(entry) = self.taken.pop() {
            give_back(&mut self.entries, entry);
        }
    }

    /// From here on nothing counts as taken off.
    #[inline(always)]
    pub fn keep(&mut self)
        ensures waiting { self.new.waiting ≡ self.old.waiting }
        ensures taken { self.new.taken ≡ [] }
    {
        self.taken.clear();
    }
}

/// A deadline of a session, as the queue has it.
fn entry_of(session: u32, deadline: i64) -> Reverse<(i64, u32)>
    ensures { result ≡ entry deadline session }
{
    Reverse((deadline, session))
}

/// Puts back what was taken off, for which there is room.
fn give_back(entries: &mut BinaryHeap<Reverse<(i64, u32)>>, entry: Reverse<(i64, u32)>)
    requires room { heap_len entries.old < heap_capacity entries.old }
    requires order { IsHeap entry_cmp (heap_items entries.old) }
    ensures order { IsHeap entry_cmp (heap_items entries.new) }
    ensures entered { IsPermutation (entry ∷ heap_items entries.old) (heap_items entries.new) }
    ensures len { heap_len entries.new ≡ heap_len entries.old + 1 }
    ensures room { heap_capacity entries.old ≤ heap_capacity entries.new }
{
    match entries.push(entry) {
        Ok(()) => {}
        Err(_) => unreachable!(),
    }
}
