//! The checkpoint of a state.

ghost use Rattle.std.specs.Prelude.{◌≡◌, ◌++◌, length, IfOk, OnOk};
ghost use Rattle.std.specs.List.{flat_map};
ghost use Rattle.ucon_model.specs.Action.{Trace};
ghost use Rattle.ucon_model.specs.History.{History, trace};
ghost use Rattle.ucon_model.specs.Plain.{PlainPolicy};
ghost use Rattle.ucon_point.specs.PointText.{act_line, attribute_line, entity_lines, entries_line, point_after, point_text, policy_lines};
ghost use Rattle.ucon_point.specs.PointText.{sessions_to, tick_line, variable_line};
ghost use Rattle.ucon_state.specs.Following.{Follows};
ghost use Rattle.ucon_state.specs.Held.{held, held_after};
ghost use Rattle.ucon_state.specs.Shown.{shown};

use crate::lines::{put_act, put_entity, put_session, put_value};
use std::alloc::Global;
use ucon_base::{Int, Name, NoMemory, Side, put, put_integer, put_number};
use ucon_model::{AttrDecl, View};
use ucon_state::{State, states_hold_what_they_follow};

/// The text of the checkpoint after so many entries, if `policy` is the text of the policy in force. It is that after each trace that the state
/// follows, and so after each history of so many entries that it stands for.
pub fn point_text(
    alloc: Global,
    entries: u64,
    policy: &[u8],
    state: &State,
) -> Result<Vec<u8>, NoMemory>
    ensures state { IfOk result (λ text. text.items ≡ point_text entries policy.now (held state.now)) }
    ensures after_trace { IfOk result (λ text. (P : PlainPolicy) (T : Trace) → Follows (shown state.now) P T
        → text.items ≡ point_text entries policy.now (held_after P T)) }
    ensures after_history { IfOk result (λ text. (P : PlainPolicy) (H : History) → Follows (shown state.now) P (trace P H) → entries ≡ length H
        → text.items ≡ point_after policy.now P H) }
{
    states_hold_what_they_follow();
    let text = written(alloc, entries, policy, state)?;
    Ok(text)
}

fn written(alloc: Global, entries: u64, policy: &[u8], state: &State) -> Result<Vec<u8>, NoMemory>
    ensures { IfOk result (λ text. text.items ≡ point_text entries policy.now (held state.now)) }
{
    let mut text = Vec::new(alloc);
    put_entries(&mut text, entries)?;
    put_policy(&mut text, policy)?;
    put_tick(&mut text, state.tick())?;
    put_variables(alloc, &mut text, state)?;
    put_entities(alloc, &mut text, state, Side::Subject)?;
    put_entities(alloc, &mut text, state, Side::Object)?;
    put_acts(&mut text, state)?;
    put_sessions(&mut text, state)?;
    Ok(text)
}

/// Adds the line of the number of entries.
fn put_entries(out: &mut Vec<u8>, entries: u64) -> Result<(), NoMemory>
    ensures { OnOk result (out.new.items ≡ out.old.items ++ entries_line entries) }
{
    put(out, b"point ")?;
    put_number(out, entries)?;
    put(out, b"\n")
}

/// Adds the lines of a policy's text: how many bytes it has, and these.
fn put_policy(out: &mut Vec<u8>, text: &[u8]) -> Result<(), NoMemory>
    ensures { OnOk result (out.new.items ≡ out.old.items ++ policy_lines text.now) }
{
    put(out, b"policy ")?;
    put_number(out, text.len() as u64)?;
    put(out, b"\n")?;
    put(out, text)?;
    put(out, b"\n")
}

/// Adds the line of the tick.
fn put_tick(out: &mut Vec<u8>, tick: Int) -> Result<(), NoMemory>
    ensures { OnOk result (out.new.items ≡ out.old.items ++ tick_line tick) }
{
    put(out, b"tick ")?;
    put_integer(out, tick)?;
    put(out, b"\n")
}

fn put_variables(alloc: Global, out: &mut Vec<u8>, state: &State) -> Result<(), NoMemory>
    ensures { OnOk result (out.new.items ≡ out.old.items ++ flat_map (variable_line (held state.now)) (held state.now).policy.envs) }
{
    for decl in state.checked().policy().envs.slice() {
        put_value(alloc, out, b"env", &decl.name, state.variable(&decl.name))?;
    }
    Ok(())
}

fn put_entities(alloc: Global, out: &mut Vec<u8>, state: &State, side: Side) -> Result<(), NoMemory>
    ensures { OnOk result (out.new.items ≡ out.old.items ++ flat_map (entity_lines (held state.now) side) ((held state.now).names side)) }
{
    for number in 0..state.entity_count(side) {
        let Some(name) = state.entity(side, number) else {
            unreachable!()
        };
        put_with_attributes(alloc, out, state, side, &name)?;
    }
    Ok(())
}

fn put_with_attributes(
    alloc: Global,
    out: &mut Vec<u8>,
    state: &State,
    side: Side,
    name: &Name,
) -> Result<(), NoMemory>
    ensures { OnOk result (out.new.items ≡ out.old.items ++ entity_lines (held state.now) side name.now) }
{
    put_entity(out, side, name)?;
    put_attributes(alloc, out, state, side, name)
}

fn put_attributes(
    alloc: Global,
    out: &mut Vec<u8>,
    state: &State,
    side: Side,
    name: &Name,
) -> Result<(), NoMemory>
    ensures { OnOk result (out.new.items ≡ out.old.items ++ flat_map (attribute_line (held state.now) side name.now) (held state.now).policy.attrs) }
{
    for decl in state.checked().policy().attrs.slice() {
        put_attribute(alloc, out, state, side, name, decl)?;
    }
    Ok(())
}

fn put_attribute(
    alloc: Global,
    out: &mut Vec<u8>,
    state: &State,
    side: Side,
    name: &Name,
    decl: &AttrDecl,
) -> Result<(), NoMemory>
    ensures { OnOk result (out.new.items ≡ out.old.items ++ attribute_line (held state.now) side name.now decl.now) }
{
    if decl.side != side {
        return Ok(());
    }
    let value = state.attribute(side, name, &decl.name);
    put_value(alloc, out, b"value", &decl.name, value)
}

fn put_acts(out: &mut Vec<u8>, state: &State) -> Result<(), NoMemory>
    ensures { OnOk result (out.new.items ≡ out.old.items ++ flat_map (act_line (held state.now)) (held state.now).acts) }
{
    for number in 0..state.act_count() {
        let Some(act) = state.act(number) else {
            unreachable!()
        };
        put_act(out, &act.subject, &act.action, &act.object, act.moment)?;
    }
    Ok(())
}

fn put_sessions(out: &mut Vec<u8>, state: &State) -> Result<(), NoMemory>
    ensures { OnOk result (out.new.items ≡ out.old.items ++ sessions_to (held state.now).session (held state.now).sessions) }
{
    for before in 0..state.counts().sessions {
        let n = before + 1;
        if let Some(row) = state.session(n) {
            put_session(out, &row)?;
        }
    }
    Ok(())
}
