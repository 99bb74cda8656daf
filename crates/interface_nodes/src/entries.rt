//! Schemes, type functions, type structures and values become nodes of a table.

ghost use Rattle.std.specs.Prelude.{map, IfOk};
ghost use Rattle.node_tables.specs.Tables.{Adds};
ghost use Rattle.interface_format.specs.Trees.{node_of_function, node_of_scheme, node_of_type, row_of_con, row_of_value};
ghost use Rattle.interface_nodes.specs.Entries.{AddsRows, AddsValue};

use crate::environments::add_type_structure;
use crate::fields::{NamedPlace, ValuePlace};
use crate::trees::add_tree;
use crate::types::{add_function, add_scheme};
use cm_base::{List, NoMemory, Text};
use node_tables::NodeTable;
use semantic_objects::{ConEntry, Scheme, TypeFn, TypeStr, ValueEntry};
use std::alloc::Global;

/// Adds a scheme with its type, in the interface of `home`.
pub fn add_whole_scheme(
    alloc: Global,
    table: &mut NodeTable,
    home: &Text,
    scheme: &Scheme,
) -> Result<usize, NoMemory>
    ensures { IfOk result (Adds table.old table.new (node_of_scheme home.now scheme.now)) }
{
    let body = add_tree(alloc, table, home, scheme.body())?;
    add_scheme(alloc, table, scheme.marks(), body)
}

/// Adds a type function with its type, in the interface of `home`.
pub fn add_whole_function(
    alloc: Global,
    table: &mut NodeTable,
    home: &Text,
    function: &TypeFn,
) -> Result<usize, NoMemory>
    ensures { IfOk result (Adds table.old table.new (node_of_function home.now function.now)) }
{
    let body = add_tree(alloc, table, home, &function.body)?;
    add_function(alloc, table, function.arity, body)
}

/// Adds the schemes of constructors.
fn add_constructors(
    alloc: Global,
    table: &mut NodeTable,
    home: &Text,
    cons: &List<ConEntry>,
) -> Result<List<NamedPlace>, NoMemory>
    ensures { IfOk result (AddsRows table.old table.new (map (row_of_con home.now) cons.now)) }
{
    let mut rows = List::new(alloc);
    for con in cons.as_slice() {
        let name = con.name.copy()?;
        let place = add_whole_scheme(alloc, table, home, &con.scheme)?;
        rows.add(NamedPlace { name, place })?;
    }
    Ok(rows)
}

/// Adds a type structure with its type function and its constructors, in the interface of `home`.
pub fn add_whole_type(
    alloc: Global,
    table: &mut NodeTable,
    home: &Text,
    structure: &TypeStr,
) -> Result<usize, NoMemory>
    ensures { IfOk result (Adds table.old table.new (node_of_type home.now structure.now)) }
{
    let cons = add_constructors(alloc, table, home, &structure.cons)?;
    let function = add_whole_function(alloc, table, home, &structure.function)?;
    add_type_structure(alloc, table, function, cons.as_slice())
}

/// Adds the scheme of a value, in the interface of `home`, and answers the row of an environment.
pub fn add_value(
    alloc: Global,
    table: &mut NodeTable,
    home: &Text,
    name: &Text,
    value: &ValueEntry,
) -> Result<ValuePlace, NoMemory>
    ensures { IfOk result (AddsValue table.old table.new (row_of_value home.now (name.now, value.now))) }
{
    let name = name.copy()?;
    let place = add_whole_scheme(alloc, table, home, &value.scheme)?;
    Ok(ValuePlace {
        name,
        status: value.status,
        place,
    })
}
