//! A state with one session more.

ghost use Rattle.std.specs.Prelude.{◌≡◌, ◌+◌, length};
ghost use Rattle.ucon_state.specs.Applied.{with_new_session};
ghost use Rattle.ucon_state.specs.Shown.{shown};
ghost use Rattle.ucon_state.specs.Tables.{readings_in};

use crate::asks::name_or;
use ucon_base::{Int, Name, Side, Value};
use ucon_model::{Checked, Obligation, Ref, Right, SessionRow, View};
use ucon_state::{State, sessions_are_few};

/// What a state would give to read with this session behind the others.
#[derive(Drop)]
pub struct OneMore<'a> {
    pub state: &'a State,
    pub row: SessionRow,
}

impl<'a> OneMore<'a> {
    /// The number of the session.
    pub fn number(&self) -> u32
        ensures { result ≡ length (shown self.now.state.now).tables.sessions + 1 }
    {
        sessions_are_few();
        self.state.counts().sessions + 1
    }
}

impl<'a> View for OneMore<'a> {
    ghost policy = { λ v. (shown v.state.now).policy };

    ghost readings = { λ v. readings_in (shown v.state.now).policy (with_new_session (shown v.state.now).tables v.row) };

    fn checked(&self) -> &Checked {
        self.state.checked()
    }

    fn session(&self, session: u32) -> Option<SessionRow> {
        if session == self.number() {
            Some(self.row)
        } else {
            self.state.session(session)
        }
    }

    fn right(&self, session: u32) -> Option<&Right> {
        if session == self.number() {
            self.state.checked().policy().right(&self.row.right)
        } else {
            self.state.right(session)
        }
    }

    fn start(&self, session: u32) -> Option<Int> {
        if session == self.number() {
            Some(self.row.start)
        } else {
            self.state.start(session)
        }
    }

    fn value(&self, session: u32, place: &Ref) -> Option<&Value> {
        if session != self.number() {
            return self.state.value(session, place);
        }
        match place {
            Ref::Subject(attr) => self.state.attribute(Side::Subject, &self.row.subject, attr),
            Ref::Object(attr) => self.state.attribute(Side::Object, &self.row.object, attr),
            Ref::Env(name) => self.state.variable(name),
        }
    }

    fn tick(&self) -> Int {
        self.state.tick()
    }

    fn moment(&self, subject: &Name, action: &Name, object: &Name) -> Option<Int> {
        self.state.moment(subject, action, object)
    }

    fn done_at(&self, session: u32, duty: &Obligation) -> Option<Int> {
        if session != self.number() {
            return self.state.done_at(session, duty);
        }
        let subject = name_or(&duty.by_subject, &self.row.subject);
        let object = name_or(&duty.on_object, &self.row.object);
        self.state.moment(subject, &duty.action, object)
    }
}
