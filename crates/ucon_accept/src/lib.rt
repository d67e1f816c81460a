//! What an explanation of a try says, which truth its facts tell, and whether it is right. The checker doesn't trust whoever explained it, and
//! stands on no evaluator.
//!
//! Each fact is compared with the state. Each truth is worked out from the facts alone (`told.rt`, `worth.rt`), by an arithmetic of its own, so that
//! a wrong evaluator can't vouch for itself.
//!
//! **Always.** No line before the one that is looked at is wrong.
//!
//! **Free.** How facts are looked up, and how the lines are walked through. Which fault is first is defined.
//!
//! **Before a change.** It stands on the definitions in `ucon_model` and on no evaluator. Keep it so. The session of the try is laid over the state
//! as a view (`OneMore`), so the state is only borrowed. Begin at `explanation.rt`, then `told.rt` and `accepting.rt`.
#![tactic(auto)]

mod accepting;
mod asks;
mod checker;
mod explanation;
mod laws;
mod one_more;
mod told;
mod trying;
mod worth;

pub use accepting::accept;
pub use asks::{asks_tick, is_same_place, is_timed, name_or};
pub use checker::Wrong;
pub use explanation::{Explanation, Fact, Factor, Why, factor_of};
pub use laws::{lines_lead_to_the_verdict, tries_are_explained_as_shown};
pub use one_more::OneMore;
pub use told::truth_told;
pub use trying::{refusal, tried};
pub use worth::Worth;
