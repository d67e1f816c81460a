//! Who answers lines.

ghost use Rattle.std.specs.Prelude.{◌≡◌, ◌⊎◌, ◌≤◌, ◌<◌, ℕ, List, IfOk, OnErr, OnOk};
ghost use Rattle.ucon_flow.specs.Lines.{HasNewline, newline};
ghost use Rattle.ucon_tell.specs.Seen.{KeeperSeen};
ghost use Rattle.ucon_tell.specs.Told.{AreAnsweredUntold, AreReplied, IsFrontOf, IsReplied, Told};

use std::alloc::Global;
use ucon_base::NoMemory;

/// What answers lines, one by one or several together, and keeps on a disk what it answered.
pub trait Keeper {
    /// The moment of its disk, what a crash may leave, and which images hold what it has answered.
    ghost seen: { Self → KeeperSeen };

    /// What its calls leave true between it and what it becomes.
    ghost stays: { Self → Self → Type 0 };

    /// From one state to the next it gives these replies to these lines, together.
    ghost answers: { Self → Self → List Told → Type 0 };

    /// It gives this reply to a line that is too long.
    ghost refuses: { Self → List ℕ → Type 0 };

    /// Answers lines from the front of the bytes that came, and adds their replies to a text, in order: for each line one line with its newline. The
    /// first line is whole, and has at most `limit` bytes with its newline. It is answered, and with it as many whole lines behind it, none of them
    /// longer, as the keeper answers together. Tells how many bytes these lines have. What the replies tell is kept when this returns. If there is no
    /// memory, lines from the front may have been answered, and no reply is told.
    fn answer(
        &mut self,
        alloc: Global,
        came: &[u8],
        limit: usize,
        text: &mut Vec<u8>,
    ) -> Result<usize, NoMemory>
        requires whole { HasNewline came.now }
        requires fits { newline came.now < limit }
        ensures reply { IfOk result (λ n. AreReplied limit (answers self.old self.new) came.now n text.old.items text.new.items) }
        ensures failed { OnErr result ((self.old ≡ self.new)
            ⊎ AreAnsweredUntold limit answers (λ lines. IsFrontOf lines came.now) self.old self.new) }
        ensures stays { stays self.old self.new };

    /// Adds the reply to a line that is too long, which nobody has read.
    fn too_long(&self, text: &mut Vec<u8>) -> Result<(), NoMemory>
        ensures reply { OnOk result (IsReplied (refuses self.now) text.old.items text.new.items) };

    /// What it had answered at a moment each image holds, then and from then on.
    ghost kept: { (x y : Self) (t : ℕ) (c : List ℕ) → stays x y → (seen x).moment ≤ t → t ≤ (seen y).moment
        → (seen y).images_since t c → (seen x).holds c };

    /// Its disk's moment doesn't fall.
    ghost onward: { (x y : Self) → stays x y → (seen x).moment ≤ (seen y).moment };

    /// A keeper that did nothing stays what it is.
    ghost same: { (x : Self) → stays x x };

    /// What stays through two stretches stays through both.
    ghost again: { (x y z : Self) → stays x y → stays y z → stays x z };
}
