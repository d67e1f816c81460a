//! What every engine does, whichever way it finds who is to be revoked, and what it reads off its state.
//!
//! The store and the forms without a journal are proved over any engine, by this trait alone. A call of `draft` answers, and its reply says whether a change pends;
//! `keep` or `undo` follows. To go on from a state, call `restore`.
//!
//! What is read off a state is said twice, of the tables and of each trace that the state follows (`specs/ReadOff.antt`). Own actions and both
//! engines read through it (`reading.rt`), so that their proofs speak of traces and of no table.
//!
//! **Always.** Nothing pends and a trace is followed, or a change after such a trace pends (`IsIdle`, `IsPending`).
//!
//! **Free.** All that an engine keeps.
//!
//! **Before a change.** An engine follows traces, since in the midst of a cascade there is no history. It stands for a history if it follows its
//! trace (`StandsFor`). Begin at `engine.rt`.
#![tactic(auto)]

mod engine;
mod reading;
mod restore_fault;

pub use engine::Engine;
pub use reading::{
    accessing, acts, attr_admits, attribute, entities, env_admits, find_entity, find_right,
    has_entity, moment, names_act, session, session_state, sessions, tick,
};
pub use restore_fault::RestoreFault;
