//! The names of a type, noted in a table.

ghost use Rattle.std.specs.Prelude.{◌≡◌, OnOk};
ghost use Rattle.std.specs.List.{flat_map};
ghost use Rattle.semantic_objects.specs.Nodes.{AreTree, root};
ghost use Rattle.realisation.specs.Names.{is_listed, names_in, names_of_symbol};
ghost use Rattle.type_walks.specs.Tables.{AreTold};
ghost use Rattle.name_walks.specs.Noting.{noted, noted_all};
ghost use Rattle.name_walks.specs.Visits.{names_at};

use crate::walking::visits;
use cm_base::{List, NoMemory};
use semantic_objects::{Symbol, TyName, TypeNode, TypeTree};
use std::alloc::Global;
use type_walks::NameTable;

/// Notes a name, if it isn't noted yet.
fn note(table: &mut NameTable, name: &TyName) -> Result<(), NoMemory>
    requires { AreTold table.old }
    ensures told { OnOk result (AreTold table.new) }
    ensures names { OnOk result (table.new.names ≡ noted is_listed table.old.names name.now) }
{
    match table.place_of(name)? {
        Some(_) => Ok(()),
        None => {
            let name = name.copy()?;
            table.add(name)
        }
    }
}

/// Notes the name that a symbol is, if it is one.
fn note_symbol(table: &mut NameTable, symbol: &Symbol) -> Result<(), NoMemory>
    requires { AreTold table.old }
    ensures told { OnOk result (AreTold table.new) }
    ensures names { OnOk result
        (table.new.names ≡ noted_all is_listed table.old.names (names_of_symbol symbol.now)) }
{
    match symbol {
        Symbol::Arrow => Ok(()),
        Symbol::Record(_) => Ok(()),
        Symbol::Name(name) => note(table, name),
    }
}

/// Notes the name of a node, if it has one.
fn note_node(table: &mut NameTable, nodes: &[TypeNode], at: usize) -> Result<(), NoMemory>
    requires { AreTold table.old }
    ensures told { OnOk result (AreTold table.new) }
    ensures names { OnOk result (table.new.names ≡ noted_all is_listed table.old.names (names_at nodes.now at)) }
{
    match nodes.get(at) {
        Some(node) => match node {
            TypeNode::Bound(_) => Ok(()),
            TypeNode::Free(_) => Ok(()),
            TypeNode::Made(symbol, _) => note_symbol(table, symbol),
        },
        None => Ok(()),
    }
}

/// Notes the names of some nodes.
fn note_nodes(
    table: &mut NameTable,
    nodes: &[TypeNode],
    places: &List<usize>,
) -> Result<(), NoMemory>
    requires { AreTold table.old }
    ensures told { OnOk result (AreTold table.new) }
    ensures names { OnOk result
        (table.new.names ≡ noted_all is_listed table.old.names (flat_map (names_at nodes.now) places.now)) }
{
    for place in places.as_slice() {
        note_node(table, nodes, *place)?;
    }
    Ok(())
}

/// Notes the names of a type.
pub(crate) fn note_tree(
    alloc: Global,
    table: &mut NameTable,
    tree: &TypeTree,
) -> Result<(), NoMemory>
    requires { AreTold table.old }
    ensures told { OnOk result (AreTold table.new) }
    ensures names { OnOk result (table.new.names ≡ noted_all is_listed table.old.names (names_in tree.now)) }
{
    let nodes = tree.nodes();
    let places = visits(alloc, nodes)?;
    note_nodes(table, nodes, &places)
}
