//! Whether predicates hold, who fails, and what updates write, over any view.
//!
//! Both engines decide with it, and each answer is equal to the definition's. A test is evaluated as a `Worth`, a value that is read where it
//! lies, so it takes no memory. `verdict` and `failing` share one walk.
//!
//! **Always.** The view is what it was.
//!
//! **Free.** The walk, and what a `Worth` holds.
//!
//! **Before a change.** A call that judges asks that the session is there, and that its tests make no set. Only updates may take memory. Begin at
//! `decide.rt`.
#![tactic(auto)]

mod arithmetic;
mod at_hand;
mod decide;
mod test;
mod update;
mod worth;

pub use decide::{failing, no_right, truth, verdict};
pub use update::result;
