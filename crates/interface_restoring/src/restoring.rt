//! Interfaces are read back.

ghost use Rattle.std.specs.Prelude.{◌≡◌, ℕ, ◌≤◌, ◌^◌, List, length, IfOk, OnOk};
ghost use Rattle.sml_modules.specs.Adding.{Extends};
ghost use Rattle.node_bytes.specs.Tables.{table_nodes};
ghost use Rattle.row_environments.specs.Placed.{AreValues};
ghost use Rattle.row_binders.specs.Binders.{AreBound};
ghost use Rattle.interface_restoring.specs.Restored.{HasRest, Notes, Builds, Reads, Restores};

use crate::names::has_names;
use crate::tops::top_row;
use cm_base::{NoMemory, Text};
use interface_reading::{RestoreFault, read_rows};
use node_bytes::Row;
use row_binders::{BinderRows, note_row};
use sml_modules::{EnvGraph, TopId};

/// What stands behind the mark of interfaces.
fn behind_mark(bytes: &[u8]) -> Option<&[u8]>
    ensures { HasRest bytes.now result }
{
    bytes.strip_prefix(b"CMI1".as_slice())
}

/// Tells of each row what it is in the interface of `home`, and adds to the graph what stands there.
fn note_rows(graph: &mut EnvGraph, home: &Text, table: &[Row]) -> Result<BinderRows, NoMemory>
    ensures extends { Extends graph.old graph.new }
    ensures notes { IfOk result (Notes home.now table.now graph.new.items) }
{
    let mut rows = BinderRows::new(graph.alloc());
    for row in table {
        note_row(graph, home, &mut rows, row)?;
    }
    Ok(rows)
}

/// The unit that the last of some rows is.
fn build(graph: &mut EnvGraph, home: &Text, table: &[Row]) -> Result<Option<TopId>, NoMemory>
    ensures extends { Extends graph.old graph.new }
    ensures is { IfOk result (Builds home.now table.now graph.new) }
{
    let Some((last, before)) = table.split_last() else {
        return Ok(None);
    };
    let rows = note_rows(graph, home, before)?;
    match top_row(graph, &rows, last)? {
        Some(place) => Ok(Some(TopId { place })),
        None => Ok(None),
    }
}

/// The unit that bytes are the interface of. What is made may be left behind.
fn read(graph: &mut EnvGraph, home: &Text, bytes: &[u8]) -> Result<TopId, RestoreFault>
    requires { length bytes.now ≤ 2 ^ 32 }
    ensures extends { Extends graph.old graph.new }
    ensures reads { Reads home.now bytes.now graph.new result }
{
    let Some(rest) = behind_mark(bytes) else {
        return Err(RestoreFault::BadInterface);
    };
    let table = read_rows(graph.alloc(), rest)?;
    let Some(top) = build(graph, home, table.as_slice())? else {
        return Err(RestoreFault::BadInterface);
    };
    if !has_names(graph, top, home)? {
        return Err(RestoreFault::BadInterface);
    }
    Ok(top)
}

/// The unit that bytes are the interface of, where `home` is its name: they are refused exactly where they are none.
/// 2^32 bytes or more are refused as want of memory is.
pub fn restore(graph: &mut EnvGraph, home: &Text, bytes: &[u8]) -> Result<TopId, RestoreFault>
    ensures restores { Restores home.now bytes.now graph.old graph.new result }
    ensures extends { Extends graph.old graph.new }
{
    if (u32::MAX as usize) < bytes.len() {
        return Err(RestoreFault::NoMemory);
    }
    let before = graph.len();
    match read(graph, home, bytes) {
        Ok(top) => Ok(top),
        Err(fault) => {
            graph.cut(before);
            Err(fault)
        }
    }
}
