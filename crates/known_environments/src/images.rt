//! The images of the nodes of a tree among the nodes that are made for another one.

ghost use Rattle.std.specs.Prelude.{◌≡◌, ◌<◌, ◌++◌, IfOk, length};
ghost use Rattle.semantic_objects.specs.Nodes.{node_tree, unfolded, tree_at, root, AreNodes, AreTree, IsNodeAt};
ghost use Rattle.semantic_objects.specs.Adding.{Appended};
ghost use Rattle.type_walks.specs.Images.{AreImages, ArePicked};
ghost use Rattle.known_environments.specs.Copies.{same_tree};

use cm_base::{List, NoMemory};
use semantic_objects::{TypeNode, TypeTree};
use std::alloc::Global;

/// The images of some nodes.
pub(crate) fn images_of(
    alloc: Global,
    images: &List<usize>,
    places: &List<usize>,
) -> Result<List<usize>, NoMemory>
    ensures { IfOk result (ArePicked images.now places.now) }
{
    let mut picked = List::new(alloc);
    for place in places.as_slice() {
        match images.get(*place) {
            Some(image) => picked.add(*image)?,
            None => return Err(NoMemory),
        }
    }
    Ok(picked)
}

/// Adds a node, and answers its place.
pub(crate) fn add_node(made: &mut List<TypeNode>, node: TypeNode) -> Result<usize, NoMemory>
    requires { IsNodeAt (length made.old) node }
    ensures { IfOk result (λ place. Appended made.old made.new place (node_tree (unfolded made.old) node)) }
{
    let place = made.len();
    made.add(node)?;
    Ok(place)
}

/// Adds a copy of a node whose parts have images.
fn copy_node(
    alloc: Global,
    nodes: &[TypeNode],
    at: usize,
    images: &List<usize>,
    made: &mut List<TypeNode>,
) -> Result<usize, NoMemory>
    requires within { at < length nodes.now }
    requires nodes { AreNodes nodes.now }
    requires images { AreImages same_tree nodes.now made.old images.now }
    ensures { IfOk result (λ place. Appended made.old made.new place (same_tree (tree_at nodes.now at))) }
{
    match &nodes[at] {
        TypeNode::Bound(variable) => add_node(made, TypeNode::Bound(*variable)),
        TypeNode::Free(number) => add_node(made, TypeNode::Free(*number)),
        TypeNode::Made(symbol, places) => {
            let parts = images_of(alloc, images, places)?;
            let symbol = symbol.copy()?;
            add_node(made, TypeNode::Made(symbol, parts))
        }
    }
}

/// Adds the nodes of a tree, and answers the place of its last one.
pub(crate) fn add_tree(
    alloc: Global,
    tree: &TypeTree,
    made: &mut List<TypeNode>,
) -> Result<usize, NoMemory>
    ensures { IfOk result (λ place. Appended made.old made.new place tree.now) }
{
    let nodes = tree.nodes();
    let mut images = List::new(alloc);
    for at in 0..nodes.len() {
        let place = copy_node(alloc, nodes, at, &images, made)?;
        images.add(place)?;
    }
    match images.pop() {
        Some(place) => Ok(place),
        None => Err(NoMemory),
    }
}

/// The nodes up to a place, so that the tree there is that of the whole list.
pub(crate) fn up_to(nodes: List<TypeNode>, place: usize) -> List<TypeNode>
    requires within { place < length nodes }
    requires nodes { AreNodes nodes }
    ensures tree { AreTree result }
    ensures root { root result ≡ tree_at nodes place }
{
    let mut nodes = nodes.into_vec();
    nodes.truncate(place + 1);
    List::from_vec(nodes)
}
