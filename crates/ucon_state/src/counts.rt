//! How much a state holds.

/// How many there are of each sort.
#[derive(Clone, Copy)]
pub struct Counts {
    pub subjects: u32,
    pub objects: u32,
    pub acts: u32,
    pub sessions: u32,
    /// Of the sessions.
    pub accessing: u32,
}
