//! Policies as plain text.
//!
//! `policy_text` prints a policy, and the text is read back as that policy. `run` doesn't use it. A printed piece carries its written form, and
//! pieces compose as the grammar does.
//!
//! **Always.** Each piece of text is a written form of what it was printed from.
//!
//! **Free.** How pieces are put together. Where brackets stand is defined, in `specs/Printing.antt` of `ucon_model`.
//!
//! **Before a change.** Levels and operands are counted as printed, so the round trip doesn't depend on the text that was read.
#![tactic(auto)]

mod expr;
mod formula;
mod items;
mod laws;
mod policy;
mod words;

pub use laws::printed_policies_are_read_back;
pub use policy::policy_text;
