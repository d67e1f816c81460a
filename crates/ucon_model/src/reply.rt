//! Replies.

ghost use Rattle.std.specs.Prelude.{◌≡◌};

use crate::SessionState;
use ucon_base::{Name, Rows, Value};

/// Why a command is refused. Nothing changed then.
#[derive(Clone, Copy, Debug, PartialEq, Eq)]
pub enum Refusal {
    NotAdmin,
    NoRight,
    NoSubject,
    NoObject,
    NoAttribute,
    NoVariable,
    NoAct,
    NoSession,
    NotYours,
    NotAccessing,
    NotRequesting,
    AlreadyThere,
    BadValue,
    TickBack,
    KindChanged,
    FullSubjects,
    FullObjects,
    FullActs,
    FullSessions,
    FullAccessing,
}

/// What a step did, with the number of its session from 1, and the label by which it is denied or waits.
#[derive(Clone, Copy, PartialEq, Eq)]
pub enum Head {
    Ok,
    Permitted(u32),
    Denied(u32, Name),
    Waiting(u32, Name),
    Ended(u32),
}

/// A usage that a step revoked: the number of its session, and the label of what failed.
#[derive(Clone, Copy, PartialEq, Eq)]
pub struct Revoked {
    pub session: u32,
    pub label: Name,
}

/// What a command is answered: a refusal, what was made and then revoked, a value, or the state of a session.
#[derive(Drop)]
pub enum Reply {
    Refused(Refusal),
    Made { head: Head, revoked: Rows<Revoked> },
    Value(Value),
    Status(u32, SessionState),
}

impl Reply {
    ghost use Rattle.ucon_model.specs.Views.{reply_of};
    ghost use Rattle.ucon_model.specs.History.{changes};

    /// Whether the step that it answers changed something.
    pub fn changes(&self) -> bool
        ensures { result ≡ changes (reply_of self.now) }
    {
        matches!(self, Reply::Made { .. })
    }
}
