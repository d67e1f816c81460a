//! One level: a row of bits, in words of 64.

ghost use Rattle.std.specs.Prelude.{◌≡◌, ◌↔◌, ℕ, ◌+◌, ◌/◌, ◌^◌, ◌<◌, length, replicate, slice_index, IfOk, IsTrue};
ghost use Rattle.ucon_collections.specs.Bits.{SetsBit, IsLeastIn};

use std::alloc::Global;
use std::marker::Model;
use ucon_base::NoMemory;

/// How many bits a word has.
pub(crate) const WORD: usize = 64;

/// A row of bits, seen as its words.
#[derive(Drop)]
pub(crate) struct Level {
    words: Vec<u64>,
}

impl Model for Level {
    ghost use Rattle.std.specs.Prelude.{ℕ, List};

    ghost Value = { List ℕ };

    ghost view = { λ l. l.words.items };
}

impl Level {
    /// A row with a bit for each number up to `last`, all clear.
    pub(crate) fn new(alloc: Global, last: usize) -> Result<Level, NoMemory>
        ensures { IfOk result (λ l. l ≡ replicate (last / 64 + 1) 0) }
    {
        Ok(Level {
            words: vec![in alloc; 0; last / WORD + 1]?,
        })
    }

    /// Whether this word has no bit set.
    pub(crate) fn is_clear(&self, word: usize) -> bool
        requires { word < length self.now }
        ensures { IsTrue result ↔ (slice_index self.now word ≡ 0) }
    {
        self.words[word] == 0
    }

    /// The least number whose bit stands in this word.
    pub(crate) fn least_in(&self, word: usize) -> usize
        requires set { 0 < slice_index self.now word }
        requires small { word < 2 ^ 32 }
        ensures { IsLeastIn self.now word result }
    {
        word * WORD + self.words[word].trailing_zeros() as usize
    }

    pub(crate) fn set(&mut self, n: usize)
        requires { n / 64 < length self.old }
        ensures { SetsBit self.old self.new n 1 }
    {
        self.words[n / WORD] |= 1 << (n % WORD);
    }

    pub(crate) fn clear(&mut self, n: usize)
        requires { n / 64 < length self.old }
        ensures { SetsBit self.old self.new n 0 }
    {
        self.words[n / WORD] &= !(1 << (n % WORD));
    }
}
