//! By what lists of sessions that may be judged alike are found.

/// What sessions that share a judgement have in common, by number: their right and, on each side that it reads, their entity.
#[derive(Clone, Copy, PartialEq, Eq, Hash)]
pub struct Kind {
    /// The number of their right.
    pub right: u32,
    /// The number of their subject. None if no attribute of it is read.
    pub subject: Option<u32>,
    /// The number of their object. None if no attribute of it is read.
    pub object: Option<u32>,
}
