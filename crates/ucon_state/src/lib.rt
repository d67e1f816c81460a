//! The state that steps read and change, and that gives back what was before.
//!
//! Both engines change it, the store and checkpoints read it, and explanations and audits look at it. Entities and acts stand by name in ordered
//! maps, cells and sessions by number. A session keeps numbers, 24 bytes. A state follows a trace if it gives to read what the trace gives
//! (`Follows`).
//!
//! **Always.** The limits hold, each variable has its place and each entity its cells, at every stage of undoing (`AllSound`). A session's numbers
//! are those of a right and of entities that are there (`HasRights`). If the checks of a right are met, none of its ongoing predicates is false
//! (`ArePlans`).
//!
//! **Free.** The maps behind the tables.
//!
//! **Before a change.** Each change notes what undoes it. Room for the note is made first, so nothing fails once a table has changed. The checks
//! (`planned.rt`) are enough for all ongoing predicates of a right: their yes is an answer, their no isn't. Begin at `state.rt`.
#![tactic(auto)]

mod act;
mod beginnings;
mod change;
mod counts;
mod held;
mod laws;
mod layout;
mod numbers;
mod planned;
mod putting;
mod session;
mod state;
mod tables;
mod view;

pub use counts::Counts;
pub use held::{ActRow, states_hold_what_they_follow};
pub use laws::{
    cells_are_of_one_attribute, changes_add_up, each_action_is_followed, legal_traces_go_on,
    sessions_are_few, states_follow_what_reads_alike, tables_keep_the_trace,
    tables_keep_what_is_followed, traces_of_histories_are_legal, what_is_put_is_followed,
};
pub use numbers::Numbers;
pub use state::{CellId, State};
