//! The state as JSON.

ghost use Rattle.std.specs.Prelude.{◌≡◌, [], ◌∷◌, length, map, option_copied, option_map, Some, IfOk, OnOk};
ghost use Rattle.std.specs.Str.{IsAscii};
ghost use Rattle.serde_json.specs.Data.{array, object, put, string};
ghost use Rattle.serde_json.specs.View.{items_of, members_view, view};
ghost use Rattle.ucon_actions.specs.Leads.{AfterEach};
ghost use Rattle.ucon_audit.specs.Report.{act_tree, acts_tree, entities_tree, entity_tree, env_tree, line_of, session_tree, sessions_tree, tree, tree_of, value_tree, with_attributes, with_member, with_session};
ghost use Rattle.ucon_model.specs.Plain.{PlainPolicy};
ghost use Rattle.ucon_model.specs.History.{History, trace};
ghost use Rattle.ucon_model.specs.Spelling.{state_word};
ghost use Rattle.ucon_state.specs.Following.{Follows};
ghost use Rattle.ucon_state.specs.Held.{Held, held, held_after, names_of};
ghost use Rattle.ucon_state.specs.Shown.{shown};

use serde_json::{Map, Value as Json};
use std::alloc::Global;
use ucon_base::{Name, NoMemory, Side, Text, Value};
use ucon_model::{AttrDecl, SessionRow, SessionState, View};
use ucon_state::{ActRow, State, states_hold_what_they_follow};

/// The state after so many entries as JSON, and a newline. It is that after each trace that the state follows, and so after each history of so
/// many entries that it stands for.
pub fn report(alloc: Global, entries: u64, state: &State) -> Result<Vec<u8>, NoMemory>
    ensures after_trace { IfOk result (λ bytes. AfterEach (shown state.now) (λ P T. bytes.items ≡ line_of (tree_of entries (held_after P T)))) }
    ensures after_history { IfOk result (λ bytes. (P : PlainPolicy) (H : History) → Follows (shown state.now) P (trace P H) → entries ≡ length H
        → bytes.items ≡ line_of (tree P H)) }
{
    states_hold_what_they_follow();
    let bytes = line(alloc, entries, state)?;
    Ok(bytes)
}

fn line(alloc: Global, entries: u64, state: &State) -> Result<Vec<u8>, NoMemory>
    ensures { IfOk result (λ bytes. bytes.items ≡ line_of (tree_of entries (held state.now))) }
{
    let value = state_value(alloc, entries, state)?;
    let mut bytes = value.to_vec(alloc)?;
    bytes.push(b'\n')?;
    Ok(bytes)
}

fn state_value(alloc: Global, entries: u64, state: &State) -> Result<Json, NoMemory>
    ensures { IfOk result (λ v. view v ≡ tree_of entries (held state.now)) }
{
    let mut members = Map::new(alloc);
    let acts = acts_value(alloc, state)?;
    serde_json::put(&mut members, alloc, "acts", acts)?;
    let entries = Json::from(entries);
    serde_json::put(&mut members, alloc, "entries", entries)?;
    let env = env_value(alloc, state)?;
    serde_json::put(&mut members, alloc, "env", env)?;
    let objects = entities_value(alloc, state, Side::Object)?;
    serde_json::put(&mut members, alloc, "objects", objects)?;
    let sessions = sessions_value(alloc, state)?;
    serde_json::put(&mut members, alloc, "sessions", sessions)?;
    let subjects = entities_value(alloc, state, Side::Subject)?;
    serde_json::put(&mut members, alloc, "subjects", subjects)?;
    let tick = Json::from(state.tick().get());
    serde_json::put(&mut members, alloc, "tick", tick)?;
    Ok(Json::Object(members))
}

fn entities_value(alloc: Global, state: &State, side: Side) -> Result<Json, NoMemory>
    ensures { IfOk result (λ v. view v ≡ entities_tree (held state.now) side) }
{
    let mut members = Map::new(alloc);
    for number in 0..state.entity_count(side) {
        let Some(name) = state.entity(side, number) else {
            unreachable!()
        };
        let entity = entity_value(alloc, state, side, &name)?;
        serde_json::put(&mut members, alloc, name_text(&name), entity)?;
    }
    Ok(Json::Object(members))
}

fn entity_value(alloc: Global, state: &State, side: Side, name: &Name) -> Result<Json, NoMemory>
    ensures { IfOk result (λ v. view v ≡ entity_tree (held state.now) side name.now) }
{
    let mut members = Map::new(alloc);
    for decl in state.checked().policy().attrs.slice() {
        put_attribute(alloc, state, side, name, decl, &mut members)?;
    }
    Ok(Json::Object(members))
}

/// Puts what an entity has of a declaration, if it is of its side.
fn put_attribute(
    alloc: Global,
    state: &State,
    side: Side,
    name: &Name,
    decl: &AttrDecl,
    members: &mut Map<String, Json>,
) -> Result<(), NoMemory>
    ensures { OnOk result (members_view members.new.entries
        ≡ with_attributes (held state.now) side name.now (decl.now ∷ []) (members_view members.old.entries)) }
{
    if decl.side != side {
        return Ok(());
    }
    let value = state.attribute(side, name, &decl.name);
    put_value(alloc, &decl.name, value, members)
}

fn env_value(alloc: Global, state: &State) -> Result<Json, NoMemory>
    ensures { IfOk result (λ v. view v ≡ env_tree (held state.now)) }
{
    let mut members = Map::new(alloc);
    for decl in state.checked().policy().envs.slice() {
        let value = state.variable(&decl.name);
        put_value(alloc, &decl.name, value, &mut members)?;
    }
    Ok(Json::Object(members))
}

/// Puts a value at its name, if there is one.
fn put_value(
    alloc: Global,
    name: &Name,
    value: Option<&Value>,
    members: &mut Map<String, Json>,
) -> Result<(), NoMemory>
    ensures { OnOk result (members_view members.new.entries
        ≡ with_member name.now (option_map value_tree (option_copied value.entry)) (members_view members.old.entries)) }
{
    let Some(value) = value else {
        return Ok(());
    };
    let value = value_of(alloc, value)?;
    serde_json::put(members, alloc, name_text(name), value)?;
    Ok(())
}

fn value_of(alloc: Global, value: &Value) -> Result<Json, NoMemory>
    ensures { IfOk result (λ v. view v ≡ value_tree value.now) }
{
    match value {
        Value::Int(n) => Ok(Json::from(n.get())),
        Value::Text(text) => text_value(alloc, text),
        Value::Set(set) => texts_value(alloc, set.slice()),
    }
}

fn texts_value(alloc: Global, texts: &[Text]) -> Result<Json, NoMemory>
    ensures { IfOk result (λ v. view v ≡ array (items_of (map (λ t. string t) texts.now))) }
{
    let mut strings = Vec::new(alloc);
    for text in texts {
        strings.push(text_value(alloc, text)?)?;
    }
    Ok(Json::Array(strings))
}

fn acts_value(alloc: Global, state: &State) -> Result<Json, NoMemory>
    ensures { IfOk result (λ v. view v ≡ acts_tree (held state.now)) }
{
    let mut acts = Vec::new(alloc);
    for number in 0..state.act_count() {
        let Some(act) = state.act(number) else {
            unreachable!()
        };
        acts.push(act_value(alloc, &act)?)?;
    }
    Ok(Json::Array(acts))
}

fn act_value(alloc: Global, act: &ActRow) -> Result<Json, NoMemory>
    ensures { IfOk result (λ v. (h : Held) → h.moment act.now.subject act.now.action act.now.object ≡ Some act.now.moment
        → view v ≡ act_tree h (names_of act.now)) }
{
    let mut members = Map::new(alloc);
    put_act(alloc, act, &mut members)?;
    Ok(Json::Object(members))
}

/// Puts what is told of an act, where nothing was put yet.
fn put_act(alloc: Global, act: &ActRow, members: &mut Map<String, Json>) -> Result<(), NoMemory>
    requires { members.old.entries ≡ [] }
    ensures { OnOk result ((h : Held) → h.moment act.now.subject act.now.action act.now.object ≡ Some act.now.moment
        → object (members_view members.new.entries) ≡ act_tree h (names_of act.now)) }
{
    put_text(alloc, "action", name_text(&act.action), members)?;
    serde_json::put(members, alloc, "at", Json::from(act.moment.get()))?;
    put_text(alloc, "object", name_text(&act.object), members)?;
    put_text(alloc, "subject", name_text(&act.subject), members)?;
    Ok(())
}

fn sessions_value(alloc: Global, state: &State) -> Result<Json, NoMemory>
    ensures { IfOk result (λ v. view v ≡ sessions_tree (held state.now)) }
{
    let mut sessions = Vec::new(alloc);
    for before in 0..state.counts().sessions {
        let n = before + 1;
        push_session(alloc, n, state.session(n), &mut sessions)?;
    }
    Ok(Json::Array(sessions))
}

/// Adds a session, if it is there.
fn push_session(
    alloc: Global,
    n: u32,
    row: Option<SessionRow>,
    sessions: &mut Vec<Json>,
) -> Result<(), NoMemory>
    ensures { OnOk result (map view sessions.new.items ≡ with_session (map view sessions.old.items) n row) }
{
    let Some(row) = row else {
        return Ok(());
    };
    sessions.push(session_value(alloc, n, &row)?)?;
    Ok(())
}

fn session_value(alloc: Global, n: u32, row: &SessionRow) -> Result<Json, NoMemory>
    ensures { IfOk result (λ v. view v ≡ session_tree n row.now) }
{
    let mut members = Map::new(alloc);
    put_session(alloc, n, row, &mut members)?;
    Ok(Json::Object(members))
}

/// Puts what is told of session n, where nothing was put yet.
fn put_session(
    alloc: Global,
    n: u32,
    row: &SessionRow,
    members: &mut Map<String, Json>,
) -> Result<(), NoMemory>
    requires { members.old.entries ≡ [] }
    ensures { OnOk result (object (members_view members.new.entries) ≡ session_tree n row.now) }
{
    serde_json::put(members, alloc, "caller", Json::from(row.caller.0))?;
    serde_json::put(members, alloc, "number", Json::from(n))?;
    put_text(alloc, "object", name_text(&row.object), members)?;
    put_text(alloc, "right", name_text(&row.right), members)?;
    serde_json::put(members, alloc, "start", Json::from(row.start.get()))?;
    put_text(alloc, "state", state_text(row.state), members)?;
    put_text(alloc, "subject", name_text(&row.subject), members)?;
    Ok(())
}

/// Puts a text at a key.
fn put_text(
    alloc: Global,
    key: &str,
    text: &str,
    members: &mut Map<String, Json>,
) -> Result<(), NoMemory>
    ensures { OnOk result (members_view members.new.entries ≡ put key.now (string text.now) (members_view members.old.entries)) }
{
    let text = Json::try_from_str(alloc, text)?;
    serde_json::put(members, alloc, key, text)?;
    Ok(())
}

fn state_text(state: SessionState) -> &'static str
    ensures { result.now ≡ state_word state }
{
    match state {
        SessionState::Requesting => "requesting",
        SessionState::Denied => "denied",
        SessionState::Accessing => "accessing",
        SessionState::Revoked => "revoked",
        SessionState::Ended => "ended",
    }
}

fn text_value(alloc: Global, text: &Text) -> Result<Json, NoMemory>
    ensures { IfOk result (λ v. view v ≡ string text.now) }
{
    let text = ascii_text(text.bytes());
    Ok(Json::try_from_str(alloc, text)?)
}

fn name_text(name: &Name) -> &str
    ensures { result.now ≡ name.now }
{
    ascii_text(name.bytes())
}

fn ascii_text(bytes: &[u8]) -> &str
    requires { IsAscii bytes.now }
    ensures { result.now ≡ bytes.now }
{
    match str::from_utf8(bytes) {
        Ok(text) => text,
        Err(_) => unreachable!(),
    }
}
