//! How entities and values are laid in cells under a policy that replaces another.

ghost use Rattle.std.specs.Prelude.{◌≡◌, ◌≤◌, ◌+◌, ◌++◌, [], ◌∷◌, map, filter, length, IfOk, OnOk};
ghost use Rattle.ucon_model.specs.Readings.{same_side};
ghost use Rattle.ucon_model.specs.Checked.{checked_policy};
ghost use Rattle.ucon_state.specs.Applied.{all_kept_cells, amended, kept_cells, kept_value, kept_variable, laid_from};
ghost use Rattle.ucon_state.specs.Sound.{CellsAreThere, IsSound};
ghost use Rattle.ucon_state.specs.Stored.{AreDistinct};
ghost use Rattle.ucon_state.specs.Tables.{entities_of, width};
ghost use Rattle.ucon_state.specs.Views.{lists_of, with_layout};

use crate::tables::Tables;
use indexmap::IndexMap;
use std::alloc::Global;
use ucon_base::{Name, NoMemory, Side, Value};
use ucon_model::{AttrDecl, Checked, EnvDecl};

/// The entities' first cells, the cells and the variables.
#[derive(Drop)]
pub struct Layout {
    pub subjects: IndexMap<Name, usize>,
    pub objects: IndexMap<Name, usize>,
    pub cells: Vec<Value>,
    pub variables: Vec<Value>,
}

impl Layout {
    /// The layout under a new policy. What the old one declares, too, keeps its value; the rest has its default.
    pub fn amended(
        alloc: Global,
        tables: &Tables,
        old: &Checked,
        new: &Checked,
    ) -> Result<Layout, NoMemory>
        requires sound { IsSound (checked_policy old.now) (lists_of tables.now) }
        requires subjects_differ { AreDistinct (lists_of tables.now).subjects }
        requires objects_differ { AreDistinct (lists_of tables.now).objects }
        ensures { IfOk result (λ l. with_layout l (lists_of tables.now)
            ≡ amended (checked_policy old.now) (checked_policy new.now) (lists_of tables.now)) }
    {
        let variables = keep_variables(alloc, tables, old, new)?;
        let mut cells = Vec::new(alloc);
        let subjects = lay(alloc, tables, old, new, Side::Subject, &mut cells)?;
        let objects = lay(alloc, tables, old, new, Side::Object, &mut cells)?;
        Ok(Layout {
            subjects,
            objects,
            cells,
            variables,
        })
    }
}

/// The entities of a side with the positions of their cells, which come behind those that are there.
fn lay(
    alloc: Global,
    tables: &Tables,
    old: &Checked,
    new: &Checked,
    side: Side,
    cells: &mut Vec<Value>,
) -> Result<IndexMap<Name, usize>, NoMemory>
    requires there { CellsAreThere (checked_policy old.now) (lists_of tables.now) side }
    requires differ { AreDistinct (entities_of side (lists_of tables.now)) }
    ensures entities { IfOk result (λ es. es.entries
        ≡ laid_from (length cells.old.items) (width (checked_policy new.now) side) (entities_of side (lists_of tables.now))) }
    ensures cells { OnOk result (cells.new.items ≡ cells.old.items
        ++ all_kept_cells (checked_policy old.now) (checked_policy new.now) (lists_of tables.now).cells side
        (entities_of side (lists_of tables.now))) }
{
    let mut laid = IndexMap::new(alloc);
    for i in 0..tables.entities(side).len() {
        let entity = tables.entity(side, i);
        let first = cells.len();
        keep_cells(alloc, tables, old, new, side, entity.1, cells)?;
        laid.insert(entity.0, first)?;
    }
    Ok(laid)
}

/// Adds the cells of the entity that had this first cell.
fn keep_cells(
    alloc: Global,
    tables: &Tables,
    old: &Checked,
    new: &Checked,
    side: Side,
    first: usize,
    cells: &mut Vec<Value>,
) -> Result<(), NoMemory>
    requires { first + width (checked_policy old.now) side ≤ length (lists_of tables.now).cells }
    ensures { OnOk result (cells.new.items
        ≡ cells.old.items ++ kept_cells (checked_policy old.now) (checked_policy new.now) (lists_of tables.now).cells side first) }
{
    for decl in new.policy().attrs.slice() {
        keep_cell(alloc, tables, old, side, first, decl, cells)?;
    }
    Ok(())
}

/// Adds the cell of a declaration, if it is of this side.
fn keep_cell(
    alloc: Global,
    tables: &Tables,
    old: &Checked,
    side: Side,
    first: usize,
    decl: &AttrDecl,
    cells: &mut Vec<Value>,
) -> Result<(), NoMemory>
    requires { first + width (checked_policy old.now) side ≤ length (lists_of tables.now).cells }
    ensures { OnOk result (cells.new.items ≡ cells.old.items
        ++ map (kept_value (checked_policy old.now) (lists_of tables.now).cells side first) (filter (λ d. same_side side d.side) (decl.now ∷ []))) }
{
    if decl.side != side {
        return Ok(());
    }
    cells.push(kept_value(alloc, tables, old, side, first, decl)?)?;
    Ok(())
}

/// What the entity that had this first cell has of a declaration.
fn kept_value(
    alloc: Global,
    tables: &Tables,
    old: &Checked,
    side: Side,
    first: usize,
    decl: &AttrDecl,
) -> Result<Value, NoMemory>
    requires { first + width (checked_policy old.now) side ≤ length (lists_of tables.now).cells }
    ensures { IfOk result (λ v. v ≡ kept_value (checked_policy old.now) (lists_of tables.now).cells side first decl.now) }
{
    let Some(position) = old.policy().attr_position(side, &decl.name) else {
        return decl.start.copy(alloc);
    };
    match tables.cells.get(first + position) {
        Some(value) => value.copy(alloc),
        None => decl.start.copy(alloc),
    }
}

/// The variables of the new policy.
fn keep_variables(
    alloc: Global,
    tables: &Tables,
    old: &Checked,
    new: &Checked,
) -> Result<Vec<Value>, NoMemory>
    ensures { IfOk result (λ vs. vs.items
        ≡ map (kept_variable (checked_policy old.now) (lists_of tables.now)) (checked_policy new.now).envs) }
{
    let mut variables = Vec::new(alloc);
    for decl in new.policy().envs.slice() {
        variables.push(kept_variable(alloc, tables, old, decl)?)?;
    }
    Ok(variables)
}

/// What a variable has of a declaration.
fn kept_variable(
    alloc: Global,
    tables: &Tables,
    old: &Checked,
    decl: &EnvDecl,
) -> Result<Value, NoMemory>
    ensures { IfOk result (λ v. v ≡ kept_variable (checked_policy old.now) (lists_of tables.now) decl.now) }
{
    let Some(position) = old.policy().env_position(&decl.name) else {
        return decl.start.copy(alloc);
    };
    match tables.variables.get(position) {
        Some(value) => value.copy(alloc),
        None => decl.start.copy(alloc),
    }
}
