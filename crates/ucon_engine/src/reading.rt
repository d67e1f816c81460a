//! What is read off a state, as it is read off each trace that the state follows.

ghost use Rattle.std.specs.Prelude.{◌≡◌, ◌<◌, IfSome, is_none, is_some, length, option_copied, option_map};
ghost use Rattle.ucon_base.specs.Admits.{admits};
ghost use Rattle.ucon_model.specs.Decision.{right_named};
ghost use Rattle.ucon_model.specs.OwnActions.{names_act};
ghost use Rattle.ucon_model.specs.Readings.{in_force, has_entity, entities, tick_of, acts, sessions, accessing, session, moment, attribute};
ghost use Rattle.ucon_model.specs.Readings.{declared_attr, declared_env};
ghost use Rattle.ucon_state.specs.Following.{AfterEach};
ghost use Rattle.ucon_state.specs.Tables.{entity_number, entities_of, session_in, moment_in, accessing_among};
ghost use Rattle.ucon_state.specs.Shown.{right_name, right_names, shown};
ghost use Rattle.ucon_state.specs.Stored.{name_at};

use ucon_base::{Int, Name, Side, Value};
use ucon_model::{SessionRow, SessionState, View};
use ucon_state::{State, tables_keep_what_is_followed};

/// Tells whether the side has an entity of this name.
pub fn has_entity(state: &State, side: Side, name: &Name) -> bool
    ensures there { result ≡ is_some (entity_number (shown state.now).tables side name.now) }
    ensures trace { AfterEach (shown state.now) (λ P T. has_entity side name.now T ≡ result) }
{
    tables_keep_what_is_followed();
    state.find(side, name).is_some()
}

/// The number of an entity among those of its side. None if it isn't there.
pub fn find_entity(state: &State, side: Side, name: &Name) -> Option<u32>
    ensures number { result ≡ entity_number (shown state.now).tables side name.now }
    ensures named { IfSome result (λ n. name_at (entities_of side (shown state.now).tables) n ≡ name.now) }
    ensures within { IfSome result (λ n. n < length (entities_of side (shown state.now).tables)) }
    ensures trace { AfterEach (shown state.now) (λ P T. has_entity side name.now T ≡ is_some result) }
{
    tables_keep_what_is_followed();
    state.find(side, name)
}

/// Counts the entities of a side.
pub fn entities(state: &State, side: Side) -> u32
    ensures count { result ≡ length (entities_of side (shown state.now).tables) }
    ensures trace { AfterEach (shown state.now) (λ P T. entities side T ≡ result) }
{
    tables_keep_what_is_followed();
    let counts = state.counts();
    match side {
        Side::Subject => counts.subjects,
        Side::Object => counts.objects,
    }
}

/// The value of an attribute of an entity. None if one of them isn't there.
#[tactic(auto, using(crate::specs::ReadOff::attribute_same))]
pub fn attribute<'a>(state: &'a State, side: Side, name: &Name, attr: &Name) -> Option<&'a Value>
    ensures { AfterEach (shown state.now) (λ P T. attribute P T side name.now attr.now ≡ option_copied result) }
{
    tables_keep_what_is_followed();
    state.attribute(side, name, attr)
}

/// Whether the kind of an attribute admits the value. None if the policy in force has no such attribute.
pub fn attr_admits(state: &State, side: Side, name: &Name, v: &Value) -> Option<bool>
    ensures policy { result ≡ option_map (λ d. admits d.kind v.now) (declared_attr (shown state.now).policy.attrs side name.now) }
    ensures trace { AfterEach (shown state.now) (λ P T.
        option_map (λ d. admits d.kind v.now) (declared_attr (in_force P T).attrs side name.now) ≡ result) }
{
    let policy = state.checked().policy();
    match policy.attr(side, name) {
        Some(d) => Some(d.kind.admits(v)),
        None => None,
    }
}

/// Whether the kind of a variable admits the value. None if the policy in force has no such variable.
pub fn env_admits(state: &State, name: &Name, v: &Value) -> Option<bool>
    ensures policy { result ≡ option_map (λ d. admits d.kind v.now) (declared_env (shown state.now).policy.envs name.now) }
    ensures trace { AfterEach (shown state.now) (λ P T.
        option_map (λ d. admits d.kind v.now) (declared_env (in_force P T).envs name.now) ≡ result) }
{
    let policy = state.checked().policy();
    match policy.env(name) {
        Some(d) => Some(d.kind.admits(v)),
        None => None,
    }
}

/// The number of a right. None if the policy in force hasn't it.
pub fn find_right(state: &State, name: &Name) -> Option<u32>
    ensures named { IfSome result (λ n. right_name state.now n ≡ name.now) }
    ensures within { IfSome result (λ n. n < length (right_names state.now)) }
    ensures policy { is_some result ≡ is_some (right_named (shown state.now).policy.rights name.now) }
    ensures trace { AfterEach (shown state.now) (λ P T. is_none (right_named (in_force P T).rights name.now) ≡ is_none result) }
{
    state.find_right(name)
}

/// Whether an obligation of the policy in force names the action.
pub fn names_act(state: &State, action: &Name) -> bool
    ensures policy { result ≡ names_act (shown state.now).policy.rights action.now }
    ensures trace { AfterEach (shown state.now) (λ P T. names_act (in_force P T).rights action.now ≡ result) }
{
    state.checked().policy().names_act(action)
}

/// Gives the present tick.
pub fn tick(state: &State) -> Int
    ensures tables { result ≡ (shown state.now).tables.tick }
    ensures trace { AfterEach (shown state.now) (λ P T. tick_of T ≡ result) }
{
    tables_keep_what_is_followed();
    state.tick()
}

/// How many distinct acts were done.
pub fn acts(state: &State) -> u32
    ensures tables { result ≡ length (shown state.now).tables.acts }
    ensures trace { AfterEach (shown state.now) (λ P T. acts T ≡ result) }
{
    tables_keep_what_is_followed();
    state.counts().acts
}

/// Counts the sessions that were ever tried.
pub fn sessions(state: &State) -> u32
    ensures tables { result ≡ length (shown state.now).tables.sessions }
    ensures trace { AfterEach (shown state.now) (λ P T. sessions T ≡ result) }
{
    tables_keep_what_is_followed();
    state.counts().sessions
}

/// Counts the sessions that are accessing.
pub fn accessing(state: &State) -> u32
    ensures tables { result ≡ accessing_among (shown state.now).tables.sessions }
    ensures trace { AfterEach (shown state.now) (λ P T. accessing T ≡ result) }
{
    tables_keep_what_is_followed();
    state.counts().accessing
}

/// Gives the row of a session, by its number from 1. None if there is no such session.
pub fn session(state: &State, n: u32) -> Option<SessionRow>
    ensures tables { result ≡ session_in (shown state.now).tables n }
    ensures trace { AfterEach (shown state.now) (λ P T. session T n ≡ result) }
{
    tables_keep_what_is_followed();
    state.session(n)
}

/// The state of a session.
pub fn session_state(state: &State, n: u32) -> Option<SessionState>
    ensures tables { result ≡ option_map (λ row. row.state) (session_in (shown state.now).tables n) }
    ensures trace { AfterEach (shown state.now) (λ P T. option_map (λ row. row.state) (session T n) ≡ result) }
{
    tables_keep_what_is_followed();
    state.session_state(n)
}

/// The tick at which an act was last done. None if it never was.
pub fn moment(state: &State, subject: &Name, action: &Name, object: &Name) -> Option<Int>
    ensures tables { result ≡ moment_in (shown state.now).tables subject.now action.now object.now }
    ensures trace { AfterEach (shown state.now) (λ P T. moment subject.now action.now object.now T ≡ result) }
{
    tables_keep_what_is_followed();
    state.moment(subject, action, object)
}
