//! The audit of a journal: a full check of its records and their chained head, and a recheck by several threads of the uses that go on. It also
//! writes the state as JSON.
//!
//! The forms `audit` and `report` print what it finds. Every record is read once and run, from record 0 on, and a checkpoint has to be the text of
//! what is there. In a recheck each thread has at least 1,024 sessions.
//!
//! **Always.** A history is kept, and if the disk tells, it is that of the records so far (`IsChecking`).
//!
//! **Free.** How sessions are shared out among the threads.
//!
//! **Before a change.** `recheck` asks what `verdict` asks, of a session in any state. A right that an amendment took away is told as denied by
//! `no_right`. Begin at `check.rt`, then `parallel.rt`.
#![tactic(auto)]

mod accessing;
mod auditing;
mod chain;
mod check;
mod difference;
mod head;
mod keeping;
mod lines;
mod parallel;
mod state_json;

pub use accessing::{changed_sessions, changed_usages, usages};
pub use auditing::{Audited, audit, audit_text, report_text};
pub use head::{Kept, first_head, head_text, is_head_text, next_head};
pub use parallel::{Changed, recheck};
pub use state_json::report;
