//! What a document says.

use ucon_base::Rows;
use ucon_model::{Caller, Command};

/// A command line.
#[derive(Drop)]
pub struct Line {
    /// Its number in the document, whose first line has number 1.
    pub number: u32,
    pub caller: Caller,
    pub command: Command,
}

/// The command lines of a document, in order.
#[derive(Drop)]
pub struct Document {
    pub lines: Rows<Line>,
}
