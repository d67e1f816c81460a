//! What is read of a session by the numbers that it keeps, and without its names.

ghost use Rattle.std.specs.Prelude.{◌≡◌, option_map};
ghost use Rattle.ucon_state.specs.Numbers.{names_by, names_of};
ghost use Rattle.ucon_state.specs.Shown.{shown};
ghost use Rattle.ucon_state.specs.Tables.{session_in};

use crate::state::State;

/// The numbers of a session's right, its subject and its object.
#[derive(Clone, Copy)]
pub struct Numbers {
    pub right: u32,
    pub subject: u32,
    pub object: u32,
}

impl State {
    /// The numbers of a session's right, its subject and its object. None if there is no such session.
    pub fn numbers(&self, session: u32) -> Option<Numbers>
        ensures { option_map (names_by self.now) result ≡ option_map names_of (session_in (shown self.now).tables session) }
    {
        let session = self.tables.session(session)?;
        Some(Numbers {
            right: session.right,
            subject: session.subject,
            object: session.object,
        })
    }
}
