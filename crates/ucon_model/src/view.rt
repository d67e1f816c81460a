//! What a decision reads.

ghost use Rattle.std.specs.Prelude.{◌≡◌, option_copied, option_map};
ghost use Rattle.ucon_model.specs.Plain.{PlainPolicy};
ghost use Rattle.ucon_model.specs.Truth.{Readings};
ghost use Rattle.ucon_model.specs.Checked.{checked_policy};
ghost use Rattle.ucon_model.specs.Lookup.{done_read, right_read, start_read, value_read};
ghost use Rattle.ucon_model.specs.Views.{right_of};

use crate::{Checked, Obligation, Ref, Right, SessionRow};
use ucon_base::{Int, Name, Value};

/// A policy with what can be read under it, as by the readings of a trace. No call takes memory.
pub trait View {
    /// The policy that is in force.
    ghost policy: { Self → PlainPolicy };

    /// What can be read: the tick, the sessions, the values of places, the moments of acts.
    ghost readings: { Self → Readings };

    /// Lends the policy that is in force.
    fn checked(&self) -> &Checked
        ensures { checked_policy result.now ≡ policy self.now };

    /// None if there is no such session.
    fn session(&self, session: u32) -> Option<SessionRow>
        ensures { result ≡ (readings self.now).row session };

    /// The right of a session. None if there is no such session, or the policy hasn't its right.
    fn right(&self, session: u32) -> Option<&Right>
        ensures { option_map right_of (option_copied result) ≡ right_read (policy self.now) (readings self.now) session };

    /// The tick at which a session's usage began, 0 until then. None if there is no such session.
    fn start(&self, session: u32) -> Option<Int>
        ensures { result ≡ start_read (readings self.now) session };

    /// The value of a place for a session: of its own subject or object, or of a variable. None if the session or the name
    /// isn't there.
    fn value(&self, session: u32, place: &Ref) -> Option<&Value>
        ensures { option_copied result ≡ value_read (readings self.now) session place.now };

    /// Gives the present tick.
    fn tick(&self) -> Int
        ensures { result ≡ (readings self.now).now };

    /// The tick at which an act was last done. None if it never was.
    fn moment(&self, subject: &Name, action: &Name, object: &Name) -> Option<Int>
        ensures { result ≡ (readings self.now).done_at subject.now action.now object.now };

    /// The tick at which the act was last done that an obligation asks for, by or on the session's own if it names nobody. None if it never was,
    /// or there is no such session.
    fn done_at(&self, session: u32, duty: &Obligation) -> Option<Int>
        ensures { result ≡ done_read (readings self.now) session duty.now };
}
