//! Who reads which place, in lists of sessions that are judged alike, and up to when what they read holds. What a draft changes of it can be
//! undone until it is kept.
//!
//! The monitor asks it whom a write concerns, and whose deadline a tick passes. It sees numbers alone. Which list a session may join is a guess,
//! which is then checked.
//!
//! **Always.** Each list that has members was joined, and its leader stands somewhere (`AreLed`). What undoing gives hides nothing (`UndoGives`).
//!
//! **Free.** How lists lie in their tables.
//!
//! **Before a change.** Undoing takes no memory. Under a new policy the readers are made anew beside the old ones and swapped, so undoing that
//! needs no memory either. Begin at `readers.rt`, then `timers.rt`.
#![tactic(auto)]

mod kind;
mod laws;
mod limits;
mod readers;
mod standing;
mod timers;

pub use kind::Kind;
pub use laws::undoing_gives_what_is_kept;
pub use limits::first_limit;
pub use readers::Readers;
// A crate can name `Readers` and `Timers` in a contract only if the types of their fields are exported.
#[doc(hidden)]
pub use standing::Standing;
#[doc(hidden)]
pub use timers::Timers;
