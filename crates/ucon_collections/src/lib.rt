//! Collections of sessions' numbers: deadlines in a heap, a set of numbers below a limit, and lists under leaders.
//!
//! - `Deadlines`: the deadline of each session, at most one, and whose is over. A deadline that moves leaves its old entry in the heap, which is
//!   passed over when it comes to the top.
//! - `NumberSet`: the work of a cascade, least first. A row of bits has three rows above it, each of which tells whether a word below has a bit.
//! - `Lists`: sessions that are judged alike, under the numbers of their leaders, in the order of their own numbers. `ucon_readers` asks for the
//!   least member, and for the next one.
//!
//! **Always.** Each deadline is in the queue. So is each that an undo gives back, unless it was taken off since the last keep
//! (`specs/Sound.antt`). Each row of bits tells of the row below it (`specs/Levels.antt`). What is kept as a member's neighbour is the least member
//! above it, or the greatest below (`IsSound`).
//!
//! **Free.** All below the clauses, which speak of deadlines, of members in rising order, and of members and leaders.
//!
//! **Before a change.** A step that fails because memory ran out is undone, so a `NumberSet` takes no memory after `new`. The earliest deadline
//! first isn't promised, since the monitor judges all that are over; a test shows it. A session joins a list only above its first, since nobody
//! would pay for moving the judgement to a new first. Begin at `deadlines.rt`, `number_set.rt` and `lists.rt`.
#![tactic(auto)]

mod deadlines;
mod level;
mod levels;
mod lists;
mod number_set;
mod owned;
mod queue;
mod table;

pub use deadlines::Deadlines;
pub use lists::Lists;
pub use number_set::NumberSet;
// A crate can name `Deadlines` and `Lists` in a contract only if the types that their values are made of are exported.
#[doc(hidden)]
pub use lists::Change;
#[doc(hidden)]
pub use owned::{DeadlineChange, Owned};
#[doc(hidden)]
pub use queue::Queue;
#[doc(hidden)]
pub use table::{Ends, Gap, Member};
