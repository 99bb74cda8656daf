//! A type becomes nodes of a table. Each node of its tree is gone through once, however often it stands in the type.

ghost use Rattle.std.specs.Prelude.{◌≡◌, List, length, map, IfOk};
ghost use Rattle.std.specs.List.{zip};
ghost use Rattle.node_tables.specs.Tables.{Adds};
ghost use Rattle.semantic_objects.specs.Trees.{Tree};
ghost use Rattle.semantic_objects.specs.Nodes.{node_tree};
ghost use Rattle.interface_format.specs.Trees.{node_over, type_node};
ghost use Rattle.interface_format.specs.Tags.{arrow_node};
ghost use Rattle.interface_nodes.specs.Fields.{nodes_at, AreBelow};
ghost use Rattle.interface_nodes.specs.Images.{ArePicked, AreImages, pair_of};

use crate::fields::NamedPlace;
use crate::types::{add_arrow, add_named, add_record, add_variable};
use cm_base::{List, NoMemory, Text};
use node_tables::NodeTable;
use semantic_objects::{Symbol, TypeNode, TypeTree};
use std::alloc::Global;

/// The images of some nodes.
fn images_of(
    alloc: Global,
    images: &List<usize>,
    places: &List<usize>,
) -> Result<List<usize>, NoMemory>
    ensures { IfOk result (ArePicked images.now places.now) }
{
    let mut picked = List::new(alloc);
    for place in places.as_slice() {
        match images.get(*place) {
            Some(image) => picked.add(*image)?,
            None => return Err(NoMemory),
        }
    }
    Ok(picked)
}

/// Labels with the places of their types. Where there are fewer places, it counts as want of memory.
fn fields_of(
    alloc: Global,
    labels: &List<Text>,
    places: &List<usize>,
) -> Result<List<NamedPlace>, NoMemory>
    ensures { IfOk result (λ fields. map pair_of fields ≡ zip labels.now places.now) }
{
    let labels = labels.as_slice();
    let mut fields = List::new(alloc);
    for at in 0..labels.len() {
        match places.get(at) {
            Some(place) => fields.add(NamedPlace {
                name: labels[at].copy()?,
                place: *place,
            })?,
            None => return Err(NoMemory),
        }
    }
    Ok(fields)
}

/// Adds a function type of two parts. Where there aren't two, it counts as want of memory.
fn add_arrow_over(
    alloc: Global,
    table: &mut NodeTable,
    parts: &List<usize>,
) -> Result<usize, NoMemory>
    requires { AreBelow (length table.old) parts.now }
    ensures { IfOk result (Adds table.old table.new (arrow_node (nodes_at table.old parts.now))) }
{
    match parts.as_slice() {
        [from, to] => add_arrow(alloc, table, *from, *to),
        _ => Err(NoMemory),
    }
}

/// Adds a symbol over the places of its parts.
fn add_over(
    alloc: Global,
    table: &mut NodeTable,
    home: &Text,
    symbol: &Symbol,
    parts: &List<usize>,
) -> Result<usize, NoMemory>
    requires { AreBelow (length table.old) parts.now }
    ensures { IfOk result (Adds table.old table.new (node_over home.now symbol.now (nodes_at table.old parts.now))) }
{
    match symbol {
        Symbol::Arrow => add_arrow_over(alloc, table, parts),
        Symbol::Record(labels) => {
            let fields = fields_of(alloc, labels, parts)?;
            add_record(alloc, table, fields.as_slice())
        }
        Symbol::Name(name) => add_named(alloc, table, home, name, parts.as_slice()),
    }
}

/// Adds a node of a tree whose parts have images.
fn add_node(
    alloc: Global,
    table: &mut NodeTable,
    home: &Text,
    node: &TypeNode,
    images: &List<usize>,
) -> Result<usize, NoMemory>
    requires { AreBelow (length table.old) images.now }
    ensures { IfOk result (λ place. (trees : List Tree) → AreImages home.now table.old images.now trees
        → Adds table.old table.new (type_node home.now (node_tree trees node.now)) place) }
{
    match node {
        TypeNode::Bound(index) => add_variable(alloc, table, *index),
        TypeNode::Free(_) => table.add(0, List::new(alloc)),
        TypeNode::Made(symbol, places) => {
            let parts = images_of(alloc, images, places)?;
            add_over(alloc, table, home, symbol, &parts)
        }
    }
}

/// Adds a type in the interface of `home`, and answers its place. A variable of a table of types, which stands in no
/// interface, becomes a node of no format.
pub fn add_tree(
    alloc: Global,
    table: &mut NodeTable,
    home: &Text,
    tree: &TypeTree,
) -> Result<usize, NoMemory>
    ensures { IfOk result (Adds table.old table.new (type_node home.now tree.now)) }
{
    let nodes = tree.nodes();
    let mut images = List::new(alloc);
    for at in 0..nodes.len() {
        let image = add_node(alloc, table, home, &nodes[at], &images)?;
        images.add(image)?;
    }
    match images.pop() {
        Some(image) => Ok(image),
        None => Err(NoMemory),
    }
}
