//! Payloads in a file, of which each crash leaves a whole number, and every acknowledged one.
//!
//! The store's promise about crashes stands on this one. A record counts once its gate is opened and synced, after its payload and the next gate
//! were. `docs/journal-format.md` has the bytes.
//!
//! **Always.** A journal is being read, at its end, closed, or broken, and each call asks for one of these.
//!
//! **Free.** How payloads are read and kept.
//!
//! **Before a change.** The order of the device calls isn't free. A journal is read through a window of 64 KiB, which is no cache: nothing that
//! changes the file allows reading again. What a crash inside an opening leaves is said of bytes, since a foreign file has no payloads either.
//! Begin at `specs/Found.antt`, then `journal.rt`.
#![tactic(auto)]

mod ahead;
mod fault;
mod journal;
mod opening;
mod phase;
mod synced;

pub use fault::{DiskFault, OpenFault, TakeFault};
pub use journal::{FIRST_GATE, Journal, MAX_PAYLOAD, reads_back};
pub use phase::Phase;
