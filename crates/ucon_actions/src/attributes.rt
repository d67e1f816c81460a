//! Attributes are written and told: `set` and `value`.

ghost use Rattle.std.specs.Prelude.{◌≡◌, ◌<◌, ◌∷◌, length, IfErr, IfOk, OnOk, IsSome, Some};
ghost use Rattle.ucon_model.specs.declared.session.SessionRow.{SessionRow};
ghost use Rattle.ucon_model.specs.Action.{write};
ghost use Rattle.ucon_model.specs.Fitting.{AttributeAdmits};
ghost use Rattle.ucon_model.specs.OwnActions.{set_attribute, tell_value};
ghost use Rattle.ucon_model.specs.Updates.{entity_of};
ghost use Rattle.ucon_actions.specs.Gives.{Gives, Refuses, Unchanged};
ghost use Rattle.ucon_actions.specs.Leads.{KeepsBase, Leads};
ghost use Rattle.ucon_state.specs.Shown.{shown};
ghost use Rattle.ucon_state.specs.Tables.{entities_of, entity_number, session_in};

use crate::entities::{is_admin, no_entity};
use crate::outcome::{ActionFault, Outcome, require};
use std::alloc::Global;
use ucon_base::{Name, NoMemory, Side, Value};
use ucon_engine::{attr_admits, attribute, find_entity, has_entity};
use ucon_model::{Caller, Head, Refusal};
use ucon_state::{State, each_action_is_followed, tables_keep_what_is_followed};

/// Writes a value to an attribute of the entity with this number, which has this name.
#[inline(always)]
fn write(
    state: &mut State,
    side: Side,
    name: &Name,
    entity: u32,
    attr: &Name,
    value: Value,
) -> Result<(), NoMemory>
    requires there { entity_number (shown state.old).tables side name.now ≡ Some entity }
    requires within { entity < length (entities_of side (shown state.old).tables) }
    requires admitted { AttributeAdmits (shown state.old).policy side attr.now value }
    ensures leads { OnOk result (Leads (shown state.old) (shown state.new) (λ P T. write side name.now attr.now value ∷ T)) }
    ensures base { KeepsBase (shown state.old) (shown state.new) }
{
    tables_keep_what_is_followed();
    each_action_is_followed();
    let Some(cell) = state.cell(side, entity, attr) else {
        unreachable!()
    };
    state.write(cell, value)
}

/// Writes a value to an attribute of session n's own subject or object.
pub fn write_own(
    state: &mut State,
    n: u32,
    side: Side,
    attr: &Name,
    value: Value,
) -> Result<(), NoMemory>
    requires session { IsSome (session_in (shown state.old).tables n) }
    requires admitted { AttributeAdmits (shown state.old).policy side attr.now value }
    ensures leads { (row : SessionRow) → session_in (shown state.old).tables n ≡ Some row
        → OnOk result (Leads (shown state.old) (shown state.new) (λ P T. write side (entity_of side row) attr.now value ∷ T)) }
    ensures base { KeepsBase (shown state.old) (shown state.new) }
{
    tables_keep_what_is_followed();
    each_action_is_followed();
    let Some(cell) = state.own_cell(n, side, attr) else {
        unreachable!()
    };
    state.write(cell, value)
}

/// Client 0 writes a value to an attribute.
#[inline(never)]
pub fn set_attribute(
    alloc: Global,
    state: &mut State,
    caller: Caller,
    side: Side,
    name: &Name,
    attr: &Name,
    value: &Value,
) -> Result<Outcome, ActionFault>
    ensures given { IfOk result (λ o. Gives o (shown state.old) (shown state.new) (λ P T.
        set_attribute P T caller side name.now attr.now value.now)) }
    ensures refused { IfErr result (λ e. Refuses e (shown state.old) (λ P T. set_attribute P T caller side name.now attr.now value.now)) }
    ensures unchanged { IfErr result (λ e. Unchanged e (shown state.old) (shown state.new)) }
    ensures base { KeepsBase (shown state.old) (shown state.new) }
{
    require(is_admin(caller), Refusal::NotAdmin)?;
    let entity = find_entity(state, side, name).ok_or(no_entity(side))?;
    let admitted = attr_admits(state, side, attr, value).ok_or(Refusal::NoAttribute)?;
    require(admitted, Refusal::BadValue)?;
    write_copy(alloc, state, side, name, entity, attr, value)?;
    Ok(Outcome::Made(Head::Ok))
}

/// Writes a copy of a value, which is an integer mostly.
#[inline(always)]
fn write_copy(
    alloc: Global,
    state: &mut State,
    side: Side,
    name: &Name,
    entity: u32,
    attr: &Name,
    value: &Value,
) -> Result<(), NoMemory>
    requires there { entity_number (shown state.old).tables side name.now ≡ Some entity }
    requires within { entity < length (entities_of side (shown state.old).tables) }
    requires admitted { AttributeAdmits (shown state.old).policy side attr.now value.now }
    ensures leads { OnOk result (Leads (shown state.old) (shown state.new) (λ P T. write side name.now attr.now value.now ∷ T)) }
    ensures base { KeepsBase (shown state.old) (shown state.new) }
{
    match value {
        Value::Int(n) => write(state, side, name, entity, attr, Value::Int(*n)),
        _ => write_large_copy(alloc, state, side, name, entity, attr, value),
    }
}

/// Writes a copy of any value. It stands alone, so that a write of an integer makes no room for a large value.
#[inline(never)]
fn write_large_copy(
    alloc: Global,
    state: &mut State,
    side: Side,
    name: &Name,
    entity: u32,
    attr: &Name,
    value: &Value,
) -> Result<(), NoMemory>
    requires there { entity_number (shown state.old).tables side name.now ≡ Some entity }
    requires within { entity < length (entities_of side (shown state.old).tables) }
    requires admitted { AttributeAdmits (shown state.old).policy side attr.now value.now }
    ensures leads { OnOk result (Leads (shown state.old) (shown state.new) (λ P T. write side name.now attr.now value.now ∷ T)) }
    ensures base { KeepsBase (shown state.old) (shown state.new) }
{
    write(state, side, name, entity, attr, value.copy(alloc)?)
}

/// The value of an attribute of an entity.
#[inline(never)]
pub fn tell_value(
    alloc: Global,
    state: &State,
    side: Side,
    name: &Name,
    attr: &Name,
) -> Result<Outcome, ActionFault>
    ensures given { IfOk result (λ o. Gives o (shown state.now) (shown state.now) (λ P T. tell_value P T side name.now attr.now)) }
    ensures refused { IfErr result (λ e. Refuses e (shown state.now) (λ P T. tell_value P T side name.now attr.now)) }
{
    require(has_entity(state, side, name), no_entity(side))?;
    let value = attribute(state, side, name, attr).ok_or(Refusal::NoAttribute)?;
    Ok(Outcome::Value(value.copy(alloc)?))
}
