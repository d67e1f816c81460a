//! The set, least first.

ghost use Rattle.std.specs.Prelude.{◌≡◌, ◌↔◌, ◌⊎◌, ℕ, ◌+◌, ◌<◌, ◌≤◌, [], ◌∷◌, length, All, Contains, IfOk, IfSome, IfNone, IsNone};
ghost use Rattle.ucon_collections.specs.NumberSet.{with_member, IsRising};

use crate::levels::Levels;
use std::alloc::Global;
use std::marker::Model;
use ucon_base::NoMemory;

/// A set of numbers below a limit, seen as its limit and the rising list of its members.
///
/// `put` and `pop_least` read and write at most one word in each of four levels. Once the set
/// is made nothing takes memory.
#[derive(Drop)]
pub struct NumberSet {
    limit: u32,
    levels: Levels,
}

impl Model for NumberSet {
    ghost use Rattle.ucon_collections.specs.NumberSet.{NumberSet};

    ghost Value = { NumberSet };

    ghost use Rattle.ucon_collections.specs.Members.{set_of, IsSound};

    ghost view = { λ s. set_of s.levels s.limit };

    ghost invariant = { IsSound };
}

impl NumberSet {
    /// The greatest limit: as many bits as stand under one word at the top of four levels.
    pub const MAX_LIMIT: u32 = 64 * 64 * 64 * 64;

    /// The empty set. It takes a bit for each number below the limit, and about a sixty-fourth
    /// as much for the levels above.
    pub fn new(alloc: Global, limit: u32) -> Result<NumberSet, NoMemory>
        requires { limit ≤ Self.MAX_LIMIT }
        ensures { IfOk result (λ s. s ≡ record { limit = limit; members = [] }) }
    {
        let last = limit.saturating_sub(1) as usize;
        Ok(NumberSet {
            limit,
            levels: Levels::new(alloc, last)?,
        })
    }

    /// What all members are below: the condition of `put`.
    pub fn limit(&self) -> u32
        ensures { result ≡ self.now.limit }
    {
        self.limit
    }

    /// Adds a number, or leaves the set as it is if the number is there.
    pub fn put(&mut self, n: u32)
        requires { n < self.old.limit }
        ensures put { self.new ≡ record self.old { members = with_member self.old.members n } }
        ensures members { (m : ℕ) → Contains self.new.members m
            ↔ ((m ≡ n) ⊎ Contains self.old.members m) }
        ensures there { Contains self.old.members n → self.new ≡ self.old }
        ensures fresh { ¬ Contains self.old.members n → length self.new.members ≡ length self.old.members + 1 }
        ensures most { length self.new.members ≤ length self.old.members + 1 }
        ensures rising { IsRising self.new }
    {
        self.levels.set(n as usize);
    }

    /// Takes out the least member.
    #[inline(always)]
    pub fn pop_least(&mut self) -> Option<u32>
        ensures limit { self.new.limit ≡ self.old.limit }
        ensures least { IfSome result (λ n. self.old.members ≡ n ∷ self.new.members) }
        ensures empty { IsNone result ↔ (self.old.members ≡ []) }
        ensures unchanged { IfNone result (self.new.members ≡ self.old.members) }

        ensures within { IfSome result (λ n. n < self.old.limit) }
        ensures first { IfSome result (λ n. All (λ m. n < m) self.new.members) }
        ensures rising { IsRising self.old }
    {
        let least = self.levels.least()?;
        self.levels.clear(least);
        Some(least as u32)
    }

    /// Takes out all members, at the cost of as many calls of `pop_least`.
    pub fn clear(&mut self)
        ensures { self.new ≡ record self.old { members = [] } }
    {
        while self.pop_least().is_some() {}
    }
}
