//! What stands in the list of a turn's store.

use std::collections::LinkedList;
use ucon_model::Entry;

/// A step that is in the history, or the one that met a disk fault. No value of it is made.
pub enum Event {
    Done(Entry),
    Failed(Entry),
}

/// What no step changes: the policy's text, the payload of the checkpoint that opening used, and the number of entries before it. It also has the
/// number of entries that were found at the opening. No value of it is made.
pub struct Base {
    pub policy: LinkedList<u8>,
    pub point: Option<LinkedList<u8>>,
    pub before: u64,
    pub opening: u64,
}
