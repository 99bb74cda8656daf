//! Types with other names, and with their variables in another order. The nodes stay where they are, so that parts that
//! were shared are shared again.

ghost use Rattle.std.specs.Prelude.{◌≡◌, map, IfOk};
ghost use Rattle.semantic_objects.specs.Trees.{Tree};
ghost use Rattle.unification.specs.Closing.{place_of, plug};
ghost use Rattle.realisation.specs.Canonical.{renamed_symbol, renamed};
ghost use Rattle.canonical_types.specs.Orders.{by_order};
ghost use Rattle.canonical_types.specs.Canonicals.{renamed_node, reordered_node};

use crate::numbering::Numbering;
use crate::variables::Variables;
use cm_base::{List, NoMemory};
use semantic_objects::{Symbol, TypeNode, TypeTree};
use std::alloc::Global;

/// A symbol with the name that it becomes.
fn renamed_symbol(by: &Numbering, symbol: &Symbol) -> Result<Symbol, NoMemory>
    ensures { IfOk result (λ made. made ≡ renamed_symbol (by_order by.now) symbol.now) }
{
    match symbol {
        Symbol::Name(name) => Ok(Symbol::Name(by.renamed(name)?)),
        Symbol::Arrow => symbol.copy(),
        Symbol::Record(_) => symbol.copy(),
    }
}

/// A node with the name that its own becomes.
fn renamed_node(by: &Numbering, node: &TypeNode) -> Result<TypeNode, NoMemory>
    ensures { IfOk result (λ made. made ≡ renamed_node (by_order by.now) node.now) }
{
    match node {
        TypeNode::Bound(variable) => Ok(TypeNode::Bound(*variable)),
        TypeNode::Free(number) => Ok(TypeNode::Free(*number)),
        TypeNode::Made(symbol, places) => {
            let symbol = renamed_symbol(by, symbol)?;
            Ok(TypeNode::Made(symbol, places.clone()?))
        }
    }
}

/// Nodes with the names that theirs become.
fn renamed_nodes(
    alloc: Global,
    by: &Numbering,
    nodes: &[TypeNode],
) -> Result<List<TypeNode>, NoMemory>
    ensures { IfOk result (λ made. made ≡ map (renamed_node (by_order by.now)) nodes.now) }
{
    let mut made = List::new(alloc);
    for node in nodes {
        made.add(renamed_node(by, node)?)?;
    }
    Ok(made)
}

/// A type with other names.
pub(crate) fn renamed_tree(
    alloc: Global,
    by: &Numbering,
    tree: &TypeTree,
) -> Result<TypeTree, NoMemory>
    ensures { IfOk result (λ made. made ≡ renamed (by_order by.now) tree.now) }
{
    let nodes = renamed_nodes(alloc, by, tree.nodes())?;
    Ok(TypeTree::from_nodes(nodes))
}

/// A node with the place of its variable. One past the end of numbers is refused as want of memory is.
fn reordered_node(by: &Variables, node: &TypeNode) -> Result<TypeNode, NoMemory>
    ensures { IfOk result (λ made. made ≡ reordered_node by.now node.now) }
{
    match node {
        TypeNode::Bound(variable) => match u32::try_from(by.place_of(*variable)) {
            Ok(place) => Ok(TypeNode::Bound(place)),
            Err(_) => Err(NoMemory),
        },
        TypeNode::Free(number) => Ok(TypeNode::Free(*number)),
        TypeNode::Made(symbol, places) => {
            let symbol = symbol.copy()?;
            Ok(TypeNode::Made(symbol, places.clone()?))
        }
    }
}

/// Nodes with the places of their variables.
fn reordered_nodes(
    alloc: Global,
    by: &Variables,
    nodes: &[TypeNode],
) -> Result<List<TypeNode>, NoMemory>
    ensures { IfOk result (λ made. made ≡ map (reordered_node by.now) nodes.now) }
{
    let mut made = List::new(alloc);
    for node in nodes {
        made.add(reordered_node(by, node)?)?;
    }
    Ok(made)
}

/// A type whose variables have their places for their numbers.
pub(crate) fn reordered_tree(
    alloc: Global,
    by: &Variables,
    tree: &TypeTree,
) -> Result<TypeTree, NoMemory>
    ensures { IfOk result (λ made. made ≡ plug (λ i. Tree.Bound (place_of i by.now)) tree.now) }
{
    let nodes = reordered_nodes(alloc, by, tree.nodes())?;
    Ok(TypeTree::from_nodes(nodes))
}
