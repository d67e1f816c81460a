//! A law of undoing. A law is a function without parameters that does nothing: its contract is what is proved.

ghost use Rattle.ucon_readers.specs.Readers.{IsKept, UndoGives, first_of, readers_at};
ghost use Rattle.ucon_readers.specs.Timers.{IsKept as AreKept, UndoGives as TimersGive, deadlines_in};
ghost use Rattle.ucon_readers.specs.declared.readers.Readers.{Readers};
ghost use Rattle.ucon_readers.specs.declared.timers.Timers.{Timers};

/// If there is nothing to undo, undoing gives what is there.
pub fn undoing_gives_what_is_kept()
    ensures readers { (r : Readers) → IsKept r → UndoGives r (readers_at r) (first_of r) }
    ensures timers { (t : Timers) → AreKept t → TimersGive t (deadlines_in t) }
{}
