//! The nodes of a type tree that is kept as a list.

ghost use Rattle.std.specs.Prelude.{◌≡◌, ◌+◌, ◌++◌, IfOk, OnOk, map};
ghost use Rattle.semantic_objects.specs.Adding.{moved};

use crate::symbol::Symbol;
use cm_base::{List, NoMemory};
use std::alloc::Global;

/// A node: a variable of the scheme by its place in the list of marks, a variable of the table by its number, or a
/// symbol over nodes that stand earlier in the list, by their places there.
#[derive(Clone, Debug, Drop)]
pub enum TypeNode {
    Bound(u32),
    Free(usize),
    Made(Symbol, List<usize>),
}

/// The same node.
fn copy_node(node: &TypeNode) -> Result<TypeNode, NoMemory>
    ensures { IfOk result (λ copy. copy ≡ node.now) }
{
    match node {
        TypeNode::Bound(i) => Ok(TypeNode::Bound(*i)),
        TypeNode::Free(n) => Ok(TypeNode::Free(*n)),
        TypeNode::Made(symbol, places) => Ok(TypeNode::Made(symbol.copy()?, places.clone()?)),
    }
}

/// The same nodes, in a list of their own.
pub(crate) fn copy_nodes(alloc: Global, nodes: &[TypeNode]) -> Result<List<TypeNode>, NoMemory>
    ensures { IfOk result (λ copy. copy ≡ nodes.now) }
{
    let mut copy = List::new(alloc);
    for node in nodes {
        copy.add(copy_node(node)?)?;
    }
    Ok(copy)
}

/// Places so much further on. One past the end of numbers counts as want of memory.
fn places_after(alloc: Global, places: &List<usize>, by: usize) -> Result<List<usize>, NoMemory>
    ensures { IfOk result (λ after. after ≡ map (λ p. by + p) places.now) }
{
    let mut after = List::new(alloc);
    for place in places.as_slice() {
        match by.checked_add(*place) {
            Some(there) => after.add(there)?,
            None => return Err(NoMemory),
        }
    }
    Ok(after)
}

/// The node with its parts so much further on.
fn node_after(alloc: Global, node: &TypeNode, by: usize) -> Result<TypeNode, NoMemory>
    ensures { IfOk result (λ after. after ≡ moved by node.now) }
{
    match node {
        TypeNode::Bound(i) => Ok(TypeNode::Bound(*i)),
        TypeNode::Free(n) => Ok(TypeNode::Free(*n)),
        TypeNode::Made(symbol, places) => Ok(TypeNode::Made(
            symbol.copy()?,
            places_after(alloc, places, by)?,
        )),
    }
}

/// Adds nodes with their parts so much further on.
pub(crate) fn add_nodes(
    alloc: Global,
    nodes: &mut List<TypeNode>,
    more: &[TypeNode],
    by: usize,
) -> Result<(), NoMemory>
    ensures { OnOk result (nodes.new ≡ nodes.old ++ map (moved by) more.now) }
{
    for node in more {
        nodes.add(node_after(alloc, node, by)?)?;
    }
    Ok(())
}
