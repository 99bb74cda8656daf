//! What is undone by marks.

ghost use Rattle.std.specs.Prelude.{◌≡◌};
ghost use Rattle.type_nodes.specs.Tables.{Has, IsFrontOf};

use crate::asking::{push_type, said};
use crate::scene::{TableScene, id_of};
use case_files::{Part, push_parts};
use cm_base::{NoMemory, Text};
use sml_types::{TyId, TypeTable};
use std::alloc::Global;

/// Adds what is answered when two types are made one, and what they are then. All of it is undone.
fn push_tried(
    alloc: Global,
    table: &mut TypeTable,
    left: TyId,
    right: TyId,
    out: &mut Vec<u8>,
) -> Result<(), NoMemory>
    requires left { Has table.old left }
    requires right { Has table.old right }
    ensures { table.new ≡ table.old }
{
    let before = table.mark();
    let tried = push_unified(alloc, table, left, right, out);
    table.undo(&before);
    tried
}

/// The same, and nothing is undone.
fn push_unified(
    alloc: Global,
    table: &mut TypeTable,
    left: TyId,
    right: TyId,
    out: &mut Vec<u8>,
) -> Result<(), NoMemory>
    requires left { Has table.old left }
    requires right { Has table.old right }
    ensures { IsFrontOf table.old table.new }
{
    let answer = said(table.unify(left, right))?;
    push_parts(alloc, out, &[Part::Text(answer), Part::Text(b", ")])?;
    Ok(push_arrow(alloc, table, left, right, out)?)
}

/// Adds the text of a function type from a new variable to the left type: with the right type put in for the variable,
/// which is undone, and without.
fn push_arrow(
    alloc: Global,
    table: &mut TypeTable,
    left: TyId,
    right: TyId,
    out: &mut Vec<u8>,
) -> Result<(), NoMemory>
    requires left { Has table.old left }
    requires right { Has table.old right }
    ensures { IsFrontOf table.old table.new }
{
    let new = table.fresh(false)?;
    let arrow = table.arrow(new, left)?;
    push_with(alloc, table, arrow, new, right, out)?;
    push_parts(alloc, out, &[Part::Text(b", ")])?;
    Ok(push_type(alloc, table, arrow, out)?)
}

/// Adds the text of a type where a variable is made one with another type. All of it is undone then.
fn push_with(
    alloc: Global,
    table: &mut TypeTable,
    ty: TyId,
    variable: TyId,
    other: TyId,
    out: &mut Vec<u8>,
) -> Result<(), NoMemory>
    requires ty { Has table.old ty }
    requires variable { Has table.old variable }
    requires other { Has table.old other }
    ensures { table.new ≡ table.old }
{
    let before = table.mark();
    let pushed = push_linked(alloc, table, ty, variable, other, out);
    table.undo(&before);
    pushed
}

/// The same, and nothing is undone.
fn push_linked(
    alloc: Global,
    table: &mut TypeTable,
    ty: TyId,
    variable: TyId,
    other: TyId,
    out: &mut Vec<u8>,
) -> Result<(), NoMemory>
    requires ty { Has table.old ty }
    requires variable { Has table.old variable }
    requires other { Has table.old other }
    ensures { IsFrontOf table.old table.new }
{
    said(table.unify(variable, other))?;
    Ok(push_type(alloc, table, ty, out)?)
}

impl TableScene {
    /// What two types are when they were made one, which is undone.
    pub fn undone(&mut self, left: &Text, right: &Text) -> Result<Option<Vec<u8>>, NoMemory> {
        let Some(left) = id_of(&self.table, &self.ids, left) else {
            return Ok(None);
        };
        let Some(right) = id_of(&self.table, &self.ids, right) else {
            return Ok(None);
        };
        let mut out = Vec::new(self.alloc);
        push_tried(self.alloc, &mut self.table, left, right, &mut out)?;
        push_parts(self.alloc, &mut out, &[Part::Text(b"\n")])?;
        Ok(Some(out))
    }
}
