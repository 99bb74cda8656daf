//! The nodes of type structures, environments, signatures, functors and units.

ghost use Rattle.std.specs.Prelude.{◌≡◌, ◌<◌, length, IfOk, OnErr};
ghost use Rattle.node_tables.specs.Tables.{Adds};
ghost use Rattle.interface_format.specs.Tags.{type_structure_node, environment_node, signature_node, functor_node, unit_node};
ghost use Rattle.interface_nodes.specs.Fields.{node_at, rows_at, values_at, RowsAreBelow, ValuesAreBelow};

use crate::fields::{NamedPlace, ValuePlace, add_count, add_table, add_values};
use cm_base::{List, NoMemory};
use node_bytes::Item;
use node_tables::NodeTable;
use std::alloc::Global;

/// The rows of an environment: structures, type structures and values.
#[derive(Drop)]
pub struct EnvPlaces {
    pub structures: List<NamedPlace>,
    pub types: List<NamedPlace>,
    pub values: List<ValuePlace>,
}

/// Adds a type structure of the places of its type function and of the schemes of its constructors, tag 07.
pub fn add_type_structure(
    alloc: Global,
    table: &mut NodeTable,
    function: usize,
    cons: &[NamedPlace],
) -> Result<usize, NoMemory>
    requires function { function < length table.old }
    requires cons { RowsAreBelow (length table.old) cons.now }
    ensures ok { IfOk result (Adds table.old table.new
        (type_structure_node (node_at table.old function) (rows_at table.old cons.now))) }
    ensures err { OnErr result (table.new ≡ table.old) }
{
    let mut items = List::new(alloc);
    items.add(Item::Part(function))?;
    add_table(alloc, &mut items, cons)?;
    table.add(7, items)
}

/// Adds an environment, tag 08.
pub fn add_environment(
    alloc: Global,
    table: &mut NodeTable,
    env: &EnvPlaces,
) -> Result<usize, NoMemory>
    requires structures { RowsAreBelow (length table.old) env.now.structures }
    requires types { RowsAreBelow (length table.old) env.now.types }
    requires values { ValuesAreBelow (length table.old) env.now.values }
    ensures ok { IfOk result (Adds table.old table.new (environment_node (rows_at table.old env.now.structures)
        (rows_at table.old env.now.types) (values_at table.old env.now.values))) }
    ensures err { OnErr result (table.new ≡ table.old) }
{
    let mut items = List::new(alloc);
    add_table(alloc, &mut items, env.structures.as_slice())?;
    add_table(alloc, &mut items, env.types.as_slice())?;
    add_values(alloc, &mut items, env.values.as_slice())?;
    table.add(8, items)
}

/// Adds a signature of so many bound names and the place of its environment, tag 09.
pub fn add_signature(
    alloc: Global,
    table: &mut NodeTable,
    bound: usize,
    env: usize,
) -> Result<usize, NoMemory>
    requires { env < length table.old }
    ensures ok { IfOk result (Adds table.old table.new (signature_node bound (node_at table.old env))) }
    ensures err { OnErr result (table.new ≡ table.old) }
{
    let mut items = List::new(alloc);
    add_count(alloc, &mut items, bound as u64)?;
    items.add(Item::Part(env))?;
    table.add(9, items)
}

/// Adds a functor or a signature of functors: how many names it binds with the place of its parameter, and how many
/// further ones with that of its result, tag 0A.
pub fn add_functor(
    alloc: Global,
    table: &mut NodeTable,
    bound: usize,
    param: usize,
    further: usize,
    body: usize,
) -> Result<usize, NoMemory>
    requires param { param < length table.old }
    requires body { body < length table.old }
    ensures ok { IfOk result (Adds table.old table.new
        (functor_node bound (node_at table.old param) further (node_at table.old body))) }
    ensures err { OnErr result (table.new ≡ table.old) }
{
    let mut items = List::new(alloc);
    add_count(alloc, &mut items, bound as u64)?;
    items.add(Item::Part(param))?;
    add_count(alloc, &mut items, further as u64)?;
    items.add(Item::Part(body))?;
    table.add(10, items)
}

/// Adds a unit: its structures, signatures, functors and signatures of functors, tag 0B.
pub fn add_unit(
    alloc: Global,
    table: &mut NodeTable,
    structures: &[NamedPlace],
    signatures: &[NamedPlace],
    functors: &[NamedPlace],
    funsigs: &[NamedPlace],
) -> Result<usize, NoMemory>
    requires structures { RowsAreBelow (length table.old) structures.now }
    requires signatures { RowsAreBelow (length table.old) signatures.now }
    requires functors { RowsAreBelow (length table.old) functors.now }
    requires funsigs { RowsAreBelow (length table.old) funsigs.now }
    ensures ok { IfOk result (Adds table.old table.new
        (unit_node (rows_at table.old structures.now) (rows_at table.old signatures.now)
        (rows_at table.old functors.now) (rows_at table.old funsigs.now))) }
    ensures err { OnErr result (table.new ≡ table.old) }
{
    let mut items = List::new(alloc);
    add_table(alloc, &mut items, structures)?;
    add_table(alloc, &mut items, signatures)?;
    add_table(alloc, &mut items, functors)?;
    add_table(alloc, &mut items, funsigs)?;
    table.add(11, items)
}
