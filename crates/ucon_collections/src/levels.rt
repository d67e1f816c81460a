//! Four levels: a row of bits, and above it three rows that say which words of the row below
//! have a bit set.

ghost use Rattle.std.specs.Prelude.{◌≡◌, ℕ, ◌+◌, ◌*◌, ◌/◌, ◌<◌, length, replicate, IfOk, IfSome, IfNone};
ghost use Rattle.ucon_collections.specs.Bits.{bit, SetsBit, IsLeastBit};

use crate::level::{Level, WORD};
use std::alloc::Global;
use std::marker::Model;
use ucon_base::NoMemory;

/// A row of at most 64 * 64 * 64 words, seen as its words. `numbers` is the row, `words` has a
/// bit for each word of `numbers`, `blocks` for each of `words`, and `top`, which is one word,
/// for each of `blocks`.
#[derive(Drop)]
pub(crate) struct Levels {
    numbers: Level,
    words: Level,
    blocks: Level,
    top: Level,
}

impl Model for Levels {
    ghost use Rattle.std.specs.Prelude.{ℕ, List};

    ghost Value = { List ℕ };

    ghost use Rattle.ucon_collections.specs.Levels.{IsSound};

    ghost view = { λ l. l.numbers };

    ghost invariant = { IsSound };
}

impl Levels {
    /// A row with a bit for each number up to `last`, all clear.
    pub(crate) fn new(alloc: Global, last: usize) -> Result<Levels, NoMemory>
        requires { last < 64 * 64 * 64 * 64 }
        ensures { IfOk result (λ l. l ≡ replicate (last / 64 + 1) 0) }
    {
        let word = last / WORD;
        let block = word / WORD;
        Ok(Levels {
            numbers: Level::new(alloc, last)?,
            words: Level::new(alloc, word)?,
            blocks: Level::new(alloc, block)?,
            top: Level::new(alloc, block / WORD)?,
        })
    }

    /// The least number whose bit is set.
    pub(crate) fn least(&self) -> Option<usize>
        ensures least { IfSome result (IsLeastBit self.now) }
        ensures none { IfNone result ((n : ℕ) → bit self.now n ≡ 0) }
    {
        if self.top.is_clear(0) {
            return None;
        }
        let region = self.top.least_in(0);
        let block = self.blocks.least_in(region);
        let word = self.words.least_in(block);
        Some(self.numbers.least_in(word))
    }

    /// Sets a bit, and if its word had none the bits above that tell of it.
    pub(crate) fn set(&mut self, n: usize)
        requires { n / 64 < length self.old }
        ensures { SetsBit self.old self.new n 1 }
    {
        let word = n / WORD;
        let had_none = self.numbers.is_clear(word);
        self.numbers.set(n);
        if had_none {
            let block = word / WORD;
            self.words.set(word);
            self.blocks.set(block);
            self.top.set(block / WORD);
        }
    }

    /// Clears a bit that is set, and goes up as long as a word is left with no bit.
    pub(crate) fn clear(&mut self, n: usize)
        requires { bit self.old n ≡ 1 }
        ensures { SetsBit self.old self.new n 0 }
    {
        let word = n / WORD;
        self.numbers.clear(n);
        if !self.numbers.is_clear(word) {
            return;
        }
        let block = word / WORD;
        self.words.clear(word);
        if !self.words.is_clear(block) {
            return;
        }
        let region = block / WORD;
        self.blocks.clear(block);
        if self.blocks.is_clear(region) {
            self.top.clear(region);
        }
    }
}
