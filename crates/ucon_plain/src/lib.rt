//! The plain monitor: a command's own actions, and then a recheck of every accessing session until none fails.
//!
//! It does what the definitions say, and no more. It meets the same trait as the indexed monitor of `ucon_cascade`, and tests hold the two against
//! each other. `run` doesn't use it.
//!
//! **Always.** Its state follows a trace, and undoing gives what it followed before (`IsReady`).
//!
//! **Free.** How it walks over the sessions.
//!
//! **Before a change.** Keep it plain: it is here to be read. Begin at `settle.rt`.
#![tactic(auto)]

mod laws;
mod monitor;
mod settle;
mod step;

pub use laws::monitors_stand_for_histories;
pub use monitor::PlainMonitor;
