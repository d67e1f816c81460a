//! A conversation: one line in, its reply out, told once it is kept.
//!
//! A `Keeper` answers lines, and a `Voice` is the sink that hands replies out. A voice is shown the keeper at each write, so the bytes that were
//! told and the keeper's disk have one clock. `ucon_converse` puts a store below it.
//!
//! **Always.** What was told was kept before (`IsToldOnceKept`).
//!
//! **Free.** How many lines are answered before a sync.
//!
//! **Before a change.** Of a keeper's laws `kept` carries the promise: what it had answered at a moment, each image holds from then on. A voice
//! hands its bytes on before it returns; a buffer below it would break the promise, and no clause would show that. Begin at `specs/Talk.antt`,
//! then `talking.rt`.
#![tactic(auto)]

mod dated;
mod keeper;
mod memory;
mod sink_voice;
mod talk_fault;
mod talking;
mod telling;
mod voice;

pub use keeper::Keeper;
pub use memory::{Clocked, MemVoice, Note};
pub use sink_voice::SinkVoice;
pub use talk_fault::TalkFault;
pub use talking::talk;
pub use telling::tell_all;
pub use voice::Voice;
