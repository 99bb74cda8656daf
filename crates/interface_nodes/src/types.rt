//! The nodes of types, type functions and schemes.

ghost use Rattle.std.specs.Prelude.{◌≡◌, ◌∷◌, [], ◌<◌, length, map, IfOk, OnErr};
ghost use Rattle.node_tables.specs.Tables.{Adds};
ghost use Rattle.interface_format.specs.Tags.{variable_node, record_node, arrow_node, named_node, function_node, scheme_node};
ghost use Rattle.interface_nodes.specs.Fields.{node_at, nodes_at, rows_at, AreBelow, RowsAreBelow};

use crate::fields::{NamedPlace, add_marks, add_number, add_parts, add_table, add_type_name};
use cm_base::{List, NoMemory, Text};
use node_bytes::Item;
use node_tables::NodeTable;
use semantic_objects::TyName;
use std::alloc::Global;

/// Adds a variable by its index in its scheme or type function, tag 01.
pub fn add_variable(alloc: Global, table: &mut NodeTable, index: u32) -> Result<usize, NoMemory>
    ensures ok { IfOk result (Adds table.old table.new (variable_node index)) }
    ensures err { OnErr result (table.new ≡ table.old) }
{
    let mut items = List::new(alloc);
    add_number(alloc, &mut items, index)?;
    table.add(1, items)
}

/// Adds a record type of labels and the places of their types, tag 02.
pub fn add_record(
    alloc: Global,
    table: &mut NodeTable,
    fields: &[NamedPlace],
) -> Result<usize, NoMemory>
    requires { RowsAreBelow (length table.old) fields.now }
    ensures ok { IfOk result (Adds table.old table.new (record_node (rows_at table.old fields.now))) }
    ensures err { OnErr result (table.new ≡ table.old) }
{
    let mut items = List::new(alloc);
    add_table(alloc, &mut items, fields)?;
    table.add(2, items)
}

/// Adds a function type, tag 03.
pub fn add_arrow(
    alloc: Global,
    table: &mut NodeTable,
    from: usize,
    to: usize,
) -> Result<usize, NoMemory>
    requires from { from < length table.old }
    requires to { to < length table.old }
    ensures ok { IfOk result (Adds table.old table.new
        (arrow_node (node_at table.old from ∷ node_at table.old to ∷ []))) }
    ensures err { OnErr result (table.new ≡ table.old) }
{
    let mut items = List::new(alloc);
    items.add(Item::Part(from))?;
    items.add(Item::Part(to))?;
    table.add(3, items)
}

/// Adds a type name over the places of its arguments, in the interface of `home`, tag 04.
pub fn add_named(
    alloc: Global,
    table: &mut NodeTable,
    home: &Text,
    name: &TyName,
    args: &[usize],
) -> Result<usize, NoMemory>
    requires { AreBelow (length table.old) args.now }
    ensures ok { IfOk result (Adds table.old table.new (named_node home.now name.now (nodes_at table.old args.now))) }
    ensures err { OnErr result (table.new ≡ table.old) }
{
    let mut items = List::new(alloc);
    add_type_name(alloc, &mut items, home, name)?;
    add_parts(alloc, &mut items, args)?;
    table.add(4, items)
}

/// Adds a type function of an arity and the place of its type, tag 05.
pub fn add_function(
    alloc: Global,
    table: &mut NodeTable,
    arity: u32,
    body: usize,
) -> Result<usize, NoMemory>
    requires { body < length table.old }
    ensures ok { IfOk result (Adds table.old table.new (function_node arity (node_at table.old body))) }
    ensures err { OnErr result (table.new ≡ table.old) }
{
    let mut items = List::new(alloc);
    add_number(alloc, &mut items, arity)?;
    items.add(Item::Part(body))?;
    table.add(5, items)
}

/// Adds a scheme of marks and the place of its type, tag 06.
pub fn add_scheme(
    alloc: Global,
    table: &mut NodeTable,
    marks: &[bool],
    body: usize,
) -> Result<usize, NoMemory>
    requires { body < length table.old }
    ensures ok { IfOk result (Adds table.old table.new (scheme_node marks.now (node_at table.old body))) }
    ensures err { OnErr result (table.new ≡ table.old) }
{
    let mut items = List::new(alloc);
    add_marks(alloc, &mut items, marks)?;
    items.add(Item::Part(body))?;
    table.add(6, items)
}
