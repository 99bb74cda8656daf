//! What the first rows of a table are.

ghost use Rattle.std.specs.Prelude.{ℕ, List, [], IfOk, OnOk};
ghost use Rattle.semantic_objects.specs.Nodes.{AreNodes};
ghost use Rattle.row_entries.specs.Told.{AreEntries, TellsEntry, ToldAt};

use crate::functions::function_row;
use crate::schemes::scheme_row;
use cm_base::{List, NoMemory, Text};
use node_bytes::Row;
use row_types::{TypeRows, note_row};
use semantic_objects::{Scheme, TypeFn};
use std::alloc::Global;

/// Of each of the first rows whether it is a type, a type function or a scheme, and which one.
#[derive(Drop)]
pub struct EntryRows {
    pub types: TypeRows,
    pub functions: List<Option<TypeFn>>,
    pub schemes: List<Option<Scheme>>,
}

impl EntryRows {
    /// No rows.
    pub fn new(alloc: Global) -> EntryRows
        ensures { (home : List ℕ) → AreEntries home [] result }
    {
        EntryRows {
            types: TypeRows::new(alloc),
            functions: List::new(alloc),
            schemes: List::new(alloc),
        }
    }

    /// The scheme that the row at a place is, if it is one. A place past the end is refused as want of memory is.
    pub fn scheme_at(&self, place: usize) -> Result<&Option<Scheme>, NoMemory>
        ensures { IfOk result (λ told. ToldAt self.now.schemes place told.now) }
    {
        match self.schemes.get(place) {
            Some(told) => Ok(told),
            None => Err(NoMemory),
        }
    }

    /// The type function that the row at a place is, if it is one.
    pub(crate) fn function_at(&self, place: usize) -> Result<&Option<TypeFn>, NoMemory>
        ensures { IfOk result (λ told. ToldAt self.now.functions place told.now) }
    {
        match self.functions.get(place) {
            Some(told) => Ok(told),
            None => Err(NoMemory),
        }
    }
}

/// Tells whether the next row is a type, a type function or a scheme in the interface of `home`, and which one. After
/// want of memory the rows are of no use.
pub fn note_entry(
    alloc: Global,
    home: &Text,
    rows: &mut EntryRows,
    row: &Row,
) -> Result<(), NoMemory>
    requires { AreNodes rows.old.types.nodes }
    ensures { OnOk result (TellsEntry home.now rows.old row.now rows.new) }
{
    let function = function_row(alloc, &rows.types, row)?;
    let scheme = scheme_row(alloc, &rows.types, row)?;
    note_row(alloc, home, &mut rows.types, row)?;
    rows.functions.add(function)?;
    rows.schemes.add(scheme)?;
    Ok(())
}
