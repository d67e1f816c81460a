//! What a look tells.

use ucon_model::SessionState;

/// The board's place, and the state of the session that was asked for; None where it has no such session.
#[derive(Clone, Copy, PartialEq, Eq)]
pub struct Seen {
    pub place: u64,
    pub state: Option<SessionState>,
}
