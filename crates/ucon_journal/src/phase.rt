//! How far a journal has come.

/// Its records are read, then its end is mended, and then payloads are added. After a device call that
/// changes the file has failed, it is broken: it has to be opened again.
#[derive(Clone, Copy)]
pub enum Phase {
    Reading,
    Ended,
    Closed,
    Broken,
}
