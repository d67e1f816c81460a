//! Where a store begins that was opened at a checkpoint.

/// The checkpoint that opening used.
#[derive(Drop)]
pub(crate) struct Beginning {
    pub payload: Vec<u8>,
}
