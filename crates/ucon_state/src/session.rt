//! What is kept of a session.

use ucon_base::Int;
use ucon_model::{Caller, SessionState};

/// A session by the numbers of its right, its subject and its object.
#[derive(Clone, Copy)]
pub struct Session {
    pub caller: Caller,
    pub state: SessionState,
    pub right: u32,
    pub subject: u32,
    pub object: u32,
    /// 0 until it is permitted.
    pub start: Int,
}
