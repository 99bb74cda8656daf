//! Rows of a graph become rows of a node.

ghost use Rattle.std.specs.Prelude.{◌≡◌, IfOk};
ghost use Rattle.sml_modules.specs.Items.{at, as_value};
ghost use Rattle.environment_nodes.specs.Written.{ArePlaced, ValuesArePlaced};

use crate::places::NodePlaces;
use cm_base::{List, NoMemory};
use env_parts::Rows;
use interface_nodes::{NamedPlace, ValuePlace};
use semantic_objects::VidStatus;
use sml_modules::{EnvGraph, Node};
use std::alloc::Global;

/// Rows with the places of their nodes. A row without a node is refused as want of memory is.
pub(crate) fn placed_rows(
    alloc: Global,
    places: &NodePlaces,
    rows: &Rows,
) -> Result<List<NamedPlace>, NoMemory>
    ensures { IfOk result (ArePlaced places.now rows.now) }
{
    let names = rows.names(alloc)?;
    let parts = rows.places(alloc)?;
    let mut made = List::new(alloc);
    let names = names.as_slice();
    for at in 0..names.len() {
        match parts.get(at) {
            Some(part) => made.add(NamedPlace {
                name: names[at].copy()?,
                place: places.node_of(*part)?,
            })?,
            None => return Err(NoMemory),
        }
    }
    Ok(made)
}

/// The status of the value at a place.
fn status_at(graph: &EnvGraph, place: usize) -> Result<VidStatus, NoMemory>
    ensures { IfOk result (λ status. status ≡ (as_value (at graph.now.items place)).status) }
{
    match graph.node_at(place) {
        Some(node) => match node {
            Node::Value(kept) => Ok(kept.entry.status),
            _ => Err(NoMemory),
        },
        None => Err(NoMemory),
    }
}

/// Rows of values with the places of their schemes.
pub(crate) fn placed_values(
    graph: &EnvGraph,
    places: &NodePlaces,
    rows: &Rows,
) -> Result<List<ValuePlace>, NoMemory>
    ensures { IfOk result (ValuesArePlaced graph.now.items places.now rows.now) }
{
    let names = rows.names(graph.alloc())?;
    let parts = rows.places(graph.alloc())?;
    let mut made = List::new(graph.alloc());
    let names = names.as_slice();
    for at in 0..names.len() {
        match parts.get(at) {
            Some(part) => made.add(ValuePlace {
                name: names[at].copy()?,
                status: status_at(graph, *part)?,
                place: places.node_of(*part)?,
            })?,
            None => return Err(NoMemory),
        }
    }
    Ok(made)
}
