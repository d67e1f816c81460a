//! Why a try would be decided as it would: the decision with the facts that it stands on, and its text.
//!
//! The form `explain` prints it. It writes down what each predicate reads, and its clause says that this is right in the sense of `ucon_accept`.
//! No try is made, and the state stays as it is.
//!
//! **Free.** How the facts are gathered. Their order is defined.
//!
//! **Before a change.** The text is part of the output (`specs/Text.antt`). Begin at `trying.rt`.
#![tactic(auto)]

mod explainer;
mod facts;
mod laws;
mod places;
mod telling;
mod text;
mod trying;

pub use laws::traces_that_read_alike_are_explained_alike;
pub use telling::try_text;
pub use text::explanation_text;
pub use trying::{ExplainFault, explain};
