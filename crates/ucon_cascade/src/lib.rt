//! The indexed monitor. After a command's own actions it rechecks only sessions that read what was changed, or whose time has come. If the policy
//! was replaced, it rechecks all.
//!
//! It is the engine of `run`, and its replies are those of the definitions. Uses that are judged alike at all times share a list: they have one
//! right without timed ongoing parts, and read the same entities. Only the first of a list is ever in the work. If it holds, all hold; if it
//! fails, it leaves, and the next comes in.
//!
//! **Always.** Between commands the state follows a trace, nobody fails, the readers are exact, the deadlines timely, and nothing is left to undo
//! or to do (`IsReady`). Within a step the first of each failing use's list is in the work (`IsWork`). The judgements so far are at most the
//! touches.
//!
//! **Free.** Who else comes into the work.
//!
//! **Before a change.** A use has at most one deadline, the first of its limits. An act moves none: the deadline comes early, and is moved then.
//! After an amendment all readers are made anew. Begin at `settle.rt`, then `passing.rt`.
#![tactic(auto)]

mod follow;
mod indexes;
mod kinds;
mod monitor;
mod own_work;
mod passing;
mod places;
mod restoring;
mod settle;

pub use monitor::Monitor;
