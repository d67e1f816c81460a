//! What stands between the lines of clients.

/// It is told of each line, outside the turn: so a test can hold a client up, or look at what others were answered.
pub trait Gate {
    /// Before a client's line, which has this number in the document.
    fn before(&self, client: u8, line: u32);

    /// After it was answered.
    fn after(&self, client: u8, line: u32);
}

/// A gate that holds nobody up.
#[derive(Clone, Copy)]
pub struct OpenGate;

impl Gate for OpenGate {
    fn before(&self, _client: u8, _line: u32) {}

    fn after(&self, _client: u8, _line: u32) {}
}
