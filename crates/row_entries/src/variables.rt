//! The variables that stand in a type.

ghost use Rattle.std.specs.Prelude.{◌∷◌, [], ◌↔◌, IsTrue, IfOk};
ghost use Rattle.std.specs.List.{flat_map};
ghost use Rattle.semantic_objects.specs.Nodes.{AreBelow};
ghost use Rattle.name_walks.specs.Visits.{variables_at};
ghost use Rattle.row_entries.specs.Variables.{NumbersOn, CountsFirst, AreAmong, AreFirst};

use cm_base::{List, NoMemory};
use name_walks::visits;
use semantic_objects::{TypeNode, TypeTree};
use std::alloc::Global;

/// How many variables were met, where the next one is met after the first ones, if it is one of them or the next one.
fn next_after(variable: u32, count: usize) -> Option<usize>
    ensures { NumbersOn count (variable ∷ []) result }
{
    let place = variable as usize;
    if place < count {
        return Some(count);
    }
    if place != count {
        return None;
    }
    Some(place + 1)
}

/// .. where a node is visited after the first ones were met.
fn after_node(nodes: &[TypeNode], at: usize, count: usize) -> Option<usize>
    ensures { NumbersOn count (variables_at nodes.now at) result }
{
    match nodes.get(at) {
        Some(node) => match node {
            TypeNode::Bound(variable) => next_after(*variable, count),
            TypeNode::Free(_) => Some(count),
            TypeNode::Made(_, _) => Some(count),
        },
        None => Some(count),
    }
}

/// How many variables some nodes have, if they are met there in the order of numbers.
fn count_nodes(nodes: &[TypeNode], places: &[usize]) -> Option<usize>
    ensures { NumbersOn 0 (flat_map (variables_at nodes.now) places.now) result }
{
    let mut count = 0;
    for place in places {
        match after_node(nodes, *place, count) {
            Some(next) => count = next,
            None => return None,
        }
    }
    Some(count)
}

/// How many variables a type has, if they are numbered by first occurrence.
fn count_variables(alloc: Global, tree: &TypeTree) -> Result<Option<usize>, NoMemory>
    ensures { IfOk result (CountsFirst tree.now) }
{
    let nodes = tree.nodes();
    let places = visits(alloc, nodes)?;
    Ok(count_nodes(nodes, places.as_slice()))
}

/// Whether the variables of a type are numbered by first occurrence, and are so many.
#[tactic(auto, using(crate::proofs::Numbered::first_once))]
pub(crate) fn are_first(alloc: Global, tree: &TypeTree, count: usize) -> Result<bool, NoMemory>
    ensures { IfOk result (λ are. IsTrue are ↔ AreFirst tree.now count) }
{
    match count_variables(alloc, tree)? {
        Some(found) => Ok(found == count),
        None => Ok(false),
    }
}

/// Whether the variable that a node may be is one of the first ones.
fn is_node_below(nodes: &[TypeNode], at: usize, count: u32) -> bool
    ensures { IsTrue result ↔ AreBelow count (variables_at nodes.now at) }
{
    match nodes.get(at) {
        Some(node) => match node {
            TypeNode::Bound(variable) => *variable < count,
            TypeNode::Free(_) => true,
            TypeNode::Made(_, _) => true,
        },
        None => true,
    }
}

/// Whether the variables of some nodes are among the first ones.
fn are_nodes_below(nodes: &[TypeNode], places: &[usize], count: u32) -> bool
    ensures { IsTrue result ↔ AreBelow count (flat_map (variables_at nodes.now) places.now) }
{
    for place in places {
        if !is_node_below(nodes, *place, count) {
            return false;
        }
    }
    true
}

/// Whether the variables of a type are among the first ones.
pub(crate) fn are_among(alloc: Global, tree: &TypeTree, count: u32) -> Result<bool, NoMemory>
    ensures { IfOk result (λ are. IsTrue are ↔ AreAmong tree.now count) }
{
    let nodes = tree.nodes();
    let places = visits(alloc, nodes)?;
    Ok(are_nodes_below(nodes, places.as_slice(), count))
}
