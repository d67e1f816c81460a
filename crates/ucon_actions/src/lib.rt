//! A command's own actions, before sessions are rechecked: what every engine does alike.
//!
//! Each engine calls `own_actions` first, and then settles. A refusal travels by `?`, so a body reads as the table of refusals does.
//!
//! **Always.** What undoing gives stays as it was. If actions are made, each trace that the state followed leads to one that it follows.
//!
//! **Free.** How a body reads the state. The order of refusals is defined.
//!
//! **Before a change.** A command that is refused changes nothing (`unchanged`). If memory runs out midway, the engine undoes the whole draft.
//! Begin at `own.rt`, then `entities.rt`.
#![tactic(auto)]

mod acts;
mod amendments;
mod attributes;
mod entities;
mod environment;
mod outcome;
mod own;
mod update;
mod usage;

pub use outcome::{ActionFault, Outcome};
pub use own::own_actions;
pub use update::{entity_of, is_of, run_updates, updates_of};
pub use usage::{is_accessing, revoke};
