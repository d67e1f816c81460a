//! The numbers of the places that sessions read: the variables, then the cells.

ghost use Rattle.std.specs.List.{Contains, list_any};
ghost use Rattle.std.specs.Prelude.{◌≡◌, ◌==◌, ◌↔◌, ◌⊎◌, ◌++◌, ◌+◌, ℕ, length, Some, IfOk, OnOk};
ghost use Rattle.ucon_links.specs.Lists.{IsDistinct};
ghost use Rattle.ucon_model.specs.Reach.{attribute_of, location_of, places_of, variable_of};
ghost use Rattle.ucon_model.specs.declared.session.SessionRow.{SessionRow};
ghost use Rattle.ucon_model.specs.Updates.{entity_of};
ghost use Rattle.ucon_state.specs.Shown.{shown};
ghost use Rattle.ucon_state.specs.Tables.{session_in};
ghost use Rattle.ucon_cascade.specs.Numbering.{AreNumbered, HaveNumbers, numbers_of, place_number, place_numbers, told};

use std::alloc::{AllocError, Global};
use ucon_base::{Name, NoMemory, Rows, Side};
use ucon_model::{Ref, View};
use ucon_state::{CellId, State};

/// The place of a variable. None if the policy in force has no such variable, or the place doesn't fit in a `u32`.
pub fn variable_place(state: &State, name: &Name) -> Option<u32>
    ensures { result ≡ place_number (shown state.now) (variable_of name.now) }
{
    let at = state.checked().policy().env_position(name)?;
    u32::try_from(at).ok()
}

/// The place of a cell. None if it doesn't fit in a `u32`.
fn place_of_cell(state: &State, cell: CellId) -> Option<u32>
    ensures { result ≡ told (Some (length (shown state.now).policy.envs + cell)) }
{
    let variables = u32::try_from(state.checked().policy().envs.len()).ok()?;
    variables.checked_add(cell)
}

/// The place of an entity's attribute. None if the entity or the attribute is missing, or the place doesn't fit in a `u32`.
pub fn attribute_place(state: &State, side: Side, name: &Name, attr: &Name) -> Option<u32>
    ensures { result ≡ place_number (shown state.now) (attribute_of side name.now attr.now) }
{
    let entity = state.find(side, name)?;
    let cell = state.cell(side, entity, attr)?;
    place_of_cell(state, cell)
}

/// The place of an attribute of session n's entity of a side.
pub fn place_of_session(state: &State, n: u32, side: Side, attr: &Name) -> Option<u32>
    ensures { (row : SessionRow) → session_in (shown state.now).tables n ≡ Some row
        → result ≡ place_number (shown state.now) (attribute_of side (entity_of side row) attr.now) }
{
    let cell = state.own_cell(n, side, attr)?;
    place_of_cell(state, cell)
}

/// The place of a reference for session n.
fn place_of(state: &State, n: u32, place: &Ref) -> Option<u32>
    ensures { (row : SessionRow) → session_in (shown state.now).tables n ≡ Some row
        → result ≡ place_number (shown state.now) (location_of row place.now) }
{
    match place {
        Ref::Subject(attr) => place_of_session(state, n, Side::Subject, attr),
        Ref::Object(attr) => place_of_session(state, n, Side::Object, attr),
        Ref::Env(name) => variable_place(state, name),
    }
}

/// The numbers of the places that session n reads, each once. One that doesn't fit in a `u32` is answered as out of memory.
pub fn place_numbers(
    alloc: Global,
    state: &State,
    n: u32,
    places: &[Ref],
) -> Result<Rows<u32>, NoMemory>
    requires { (row : SessionRow) → session_in (shown state.now).tables n ≡ Some row → places.now ≡ places_of (shown state.now).policy row }
    ensures numbers { IfOk result (λ numbers. (row : SessionRow) → session_in (shown state.now).tables n ≡ Some row
        → (m : ℕ) → Contains numbers.items m ↔ Contains (place_numbers (shown state.now) row) m) }
    ensures distinct { IfOk result (λ numbers. IsDistinct numbers.items) }
    ensures all { OnOk result ((row : SessionRow) → session_in (shown state.now).tables n ≡ Some row → AreNumbered (shown state.now) row) }
{
    let mut numbers = Rows::new(alloc);
    add_places(state, n, places, &mut numbers)?;
    Ok(numbers)
}

/// Adds the numbers of places for session n, those that aren't there.
fn add_places(
    state: &State,
    n: u32,
    places: &[Ref],
    numbers: &mut Rows<u32>,
) -> Result<(), NoMemory>
    requires { IsDistinct numbers.old.items }
    ensures numbers { OnOk result ((row : SessionRow) → session_in (shown state.now).tables n ≡ Some row
        → (m : ℕ) → Contains numbers.new.items m ↔ Contains (numbers.old.items ++ numbers_of (shown state.now) row places.now) m) }
    ensures distinct { OnOk result (IsDistinct numbers.new.items) }
    ensures all { OnOk result ((row : SessionRow) → session_in (shown state.now).tables n ≡ Some row
        → HaveNumbers (shown state.now) row places.now) }
{
    for place in places {
        let Some(number) = place_of(state, n, place) else {
            return Err(NoMemory::from(AllocError));
        };
        add_number(numbers, number)?;
    }
    Ok(())
}

/// Whether a number is one of these.
fn is_among(number: u32, numbers: &[u32]) -> bool
    ensures { result ≡ list_any (λ n. n == number) numbers.now }
{
    numbers.iter().any(|n| *n == number)
}

/// Adds a number, if it isn't there.
fn add_number(numbers: &mut Rows<u32>, number: u32) -> Result<(), NoMemory>
    requires { IsDistinct numbers.old.items }
    ensures distinct { OnOk result (IsDistinct numbers.new.items) }
    ensures members { OnOk result ((n : ℕ) → Contains numbers.new.items n ↔ ((n ≡ number) ⊎ Contains numbers.old.items n)) }
{
    if is_among(number, numbers.slice()) {
        return Ok(());
    }
    numbers.push(number)?;
    Ok(())
}
