//! What is there in a state, listed by number. `specs/Held.antt` says what that is, in a state and after a trace.

ghost use Rattle.std.specs.Prelude.{◌≡◌, length, slice_get, option_map, Some, IfSome};
ghost use Rattle.ucon_model.specs.Action.{Trace};
ghost use Rattle.ucon_model.specs.Plain.{PlainPolicy};
ghost use Rattle.ucon_state.specs.Following.{Follows};
ghost use Rattle.ucon_state.specs.Held.{held, held_after, held_in, names_of};
ghost use Rattle.ucon_state.specs.Shown.{Shown};

use crate::state::State;
use ucon_base::{Int, Name, Side};

/// An act, and the tick at which it was last done.
#[derive(Clone, Copy)]
pub struct ActRow {
    pub subject: Name,
    pub action: Name,
    pub object: Name,
    pub moment: Int,
}

impl State {
    /// How many entities of a side there are.
    pub fn entity_count(&self, side: Side) -> u32
        ensures { result ≡ length ((held self.now).names side) }
    {
        let counts = self.counts();
        match side {
            Side::Subject => counts.subjects,
            Side::Object => counts.objects,
        }
    }

    /// How many acts were done.
    pub fn act_count(&self) -> u32
        ensures { result ≡ length (held self.now).acts }
    {
        self.counts().acts
    }

    /// The name of an entity by its number among those of its side, from 0 in the order in which they were made. None if there is
    /// none of this number.
    pub fn entity(&self, side: Side, number: u32) -> Option<Name>
        ensures { result ≡ slice_get ((held self.now).names side) number }
    {
        let (name, _) = self.tables.entities(side).get_index(number as usize)?;
        Some(*name)
    }

    /// An act by its number, from 0 in the order in which they were first done. None if there is none of this number.
    pub fn act(&self, number: u32) -> Option<ActRow>
        ensures names { option_map names_of result ≡ slice_get (held self.now).acts number }
        ensures moment { IfSome result (λ row. (held self.now).moment row.subject row.action row.object ≡ Some row.moment) }
    {
        let (act, moment) = self.tables.acts.get_index(number as usize)?;
        Some(ActRow {
            subject: act.subject,
            action: act.action,
            object: act.object,
            moment: *moment,
        })
    }
}

/// What is there in a state is what is there after each trace that it follows. A law: a function that does nothing.
pub fn states_hold_what_they_follow()
    ensures { (s : Shown) (P : PlainPolicy) (T : Trace) → Follows s P T → held_in s.policy s.tables ≡ held_after P T }
{}
