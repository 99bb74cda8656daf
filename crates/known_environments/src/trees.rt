//! A type tree with what is known put in for its variables.

ghost use Rattle.std.specs.Prelude.{◌≡◌, ◌<◌, IfOk, length};
ghost use Rattle.semantic_objects.specs.Nodes.{tree_at, root, AreNodes, AreTree};
ghost use Rattle.semantic_objects.specs.Adding.{Appended};
ghost use Rattle.unification.specs.Closing.{put_tree};
ghost use Rattle.type_walks.specs.Images.{AreImages};
ghost use Rattle.type_nodes.specs.Tables.{state};

use crate::images::{add_node, add_tree, images_of, up_to};
use crate::knowing::Knowing;
use cm_base::{List, NoMemory};
use semantic_objects::{TypeNode, TypeTree};
use std::alloc::Global;

/// Makes the image of a node whose parts have theirs. A variable that isn't known is refused as want of memory is.
fn known_node(
    alloc: Global,
    by: &Knowing,
    nodes: &[TypeNode],
    at: usize,
    images: &List<usize>,
    made: &mut List<TypeNode>,
) -> Result<usize, NoMemory>
    requires within { at < length nodes.now }
    requires nodes { AreNodes nodes.now }
    requires images { AreImages (put_tree (state by.now).stands) nodes.now made.old images.now }
    ensures { IfOk result (λ place.
        Appended made.old made.new place (put_tree (state by.now).stands (tree_at nodes.now at))) }
{
    match &nodes[at] {
        TypeNode::Bound(variable) => add_node(made, TypeNode::Bound(*variable)),
        TypeNode::Free(number) => match by.of(*number) {
            Some(tree) => add_tree(alloc, tree, made),
            None => Err(NoMemory),
        },
        TypeNode::Made(symbol, places) => {
            let parts = images_of(alloc, images, places)?;
            let symbol = symbol.copy()?;
            add_node(made, TypeNode::Made(symbol, parts))
        }
    }
}

/// The nodes of a tree with what is known put in. Each node is made once.
fn known_nodes(alloc: Global, by: &Knowing, nodes: &[TypeNode]) -> Result<List<TypeNode>, NoMemory>
    requires { AreTree nodes.now }
    ensures tree { IfOk result AreTree }
    ensures root { IfOk result (λ made. root made ≡ put_tree (state by.now).stands (root nodes.now)) }
{
    let mut made = List::new(alloc);
    let mut images = List::new(alloc);
    for at in 0..nodes.len() {
        let place = known_node(alloc, by, nodes, at, &images, &mut made)?;
        images.add(place)?;
    }
    match images.pop() {
        Some(place) => Ok(up_to(made, place)),
        None => Err(NoMemory),
    }
}

/// A type with what is known put in for its variables.
pub(crate) fn known_tree(alloc: Global, by: &Knowing, tree: &TypeTree) -> Result<TypeTree, NoMemory>
    ensures { IfOk result (λ made. made ≡ put_tree (state by.now).stands tree.now) }
{
    let nodes = known_nodes(alloc, by, tree.nodes())?;
    Ok(TypeTree::from_nodes(nodes))
}
