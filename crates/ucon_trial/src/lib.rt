//! What forms without a journal print of a document: the answers of a run from the empty history, their summary, and the core models.
//!
//! `trial`, `check` and `gen` print what it gives. It answers lines from the empty history, and tells each answer to a hearer: the output, or the
//! counts.
//!
//! **Always.** After each line the answers so far are a serial run, and the engine stands for the history that they made.
//!
//! **Free.** Who hears the answers.
//!
//! **Before a change.** The line of a reply is written here for forms over a journal and for conversations, too (`transcript.rt`). Begin at
//! `answers.rt`.
#![tactic(auto)]

mod answers;
mod hearer;
mod models;
mod summary;
mod transcript;
mod trial;

pub use models::models_text;
pub use transcript::{put_reply, put_unplaced};
pub use trial::{trial_output, trial_summary};
