//! Tables of places in a graph.

ghost use Rattle.std.specs.Prelude.{◌≡◌, map, IfOk};
ghost use Rattle.semantic_objects.specs.Symbols.{AreRising};
ghost use Rattle.row_types.specs.Told.{name_of};
ghost use Rattle.row_entries.specs.Told.{ToldAt};
ghost use Rattle.row_environments.specs.Answers.{PlacesRows, value_names_of};

use cm_base::{List, NoMemory, Text};
use env_parts::Rows;
use interface_nodes::{NamedPlace, ValuePlace};
use std::alloc::Global;

/// The names of rows.
pub fn names_of(alloc: Global, table: &[NamedPlace]) -> Result<List<Text>, NoMemory>
    ensures { IfOk result (λ names. names ≡ map name_of table.now) }
{
    let mut names = List::new(alloc);
    for row in table {
        names.add(row.name.copy()?)?;
    }
    Ok(names)
}

/// The names of values.
pub(crate) fn value_names(alloc: Global, table: &[ValuePlace]) -> Result<List<Text>, NoMemory>
    ensures { IfOk result (λ names. names ≡ value_names_of table.now) }
{
    let mut names = List::new(alloc);
    for row in table {
        names.add(row.name.copy()?)?;
    }
    Ok(names)
}

/// The place that is told of a row. A row past the end is refused as want of memory is.
pub fn place_at(told: &List<Option<usize>>, row: usize) -> Result<Option<usize>, NoMemory>
    ensures { IfOk result (ToldAt told.now row) }
{
    match told.get(row) {
        Some(place) => Ok(*place),
        None => Err(NoMemory),
    }
}

/// Rows by their places in the graph, if each has one.
pub fn place_rows(
    alloc: Global,
    told: &List<Option<usize>>,
    table: &[NamedPlace],
) -> Result<Option<Rows>, NoMemory>
    requires { AreRising (map name_of table.now) }
    ensures { IfOk result (PlacesRows told.now table.now) }
{
    let mut rows = Rows::new(alloc);
    for row in table {
        match place_at(told, row.place)? {
            Some(place) => rows.set(row.name.copy()?, place)?,
            None => return Ok(None),
        }
    }
    Ok(Some(rows))
}
