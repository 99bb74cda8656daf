//! A type tree with type functions in place of type names.

ghost use Rattle.std.specs.Prelude.{◌≡◌, ◌<◌, IfOk, false, length};
ghost use Rattle.semantic_objects.specs.Nodes.{tree_at, root, AreNodes, AreTree};
ghost use Rattle.semantic_objects.specs.Adding.{Appended};
ghost use Rattle.realisation.specs.Realised.{realised_tree};
ghost use Rattle.type_walks.specs.Images.{AreImages};
ghost use Rattle.type_walks.specs.Replaced.{put_by, NodeStays, AllStay};

use crate::images::{add_node, images_of, put_function, up_to};
use crate::replacing::Replacements;
use cm_base::{List, NoMemory};
use semantic_objects::{TypeNode, TypeTree};
use std::alloc::Global;

/// Makes the image of a node whose parts have theirs.
fn replaced_node(
    alloc: Global,
    by: &Replacements,
    nodes: &[TypeNode],
    at: usize,
    images: &List<usize>,
    made: &mut List<TypeNode>,
) -> Result<usize, NoMemory>
    requires within { at < length nodes.now }
    requires nodes { AreNodes nodes.now }
    requires images { AreImages (realised_tree (put_by by.now)) nodes.now made.old images.now }
    ensures { IfOk result (λ place.
        Appended made.old made.new place (realised_tree (put_by by.now) (tree_at nodes.now at))) }
{
    match &nodes[at] {
        TypeNode::Bound(variable) => add_node(made, TypeNode::Bound(*variable)),
        TypeNode::Free(number) => add_node(made, TypeNode::Free(*number)),
        TypeNode::Made(symbol, places) => {
            let parts = images_of(alloc, images, places)?;
            match by.function_of(symbol)? {
                Some(function) => put_function(alloc, function, &parts, made),
                None => {
                    let symbol = symbol.copy()?;
                    add_node(made, TypeNode::Made(symbol, parts))
                }
            }
        }
    }
}

/// The nodes of a tree that is realised. Each node is realised once.
fn replaced_nodes(
    alloc: Global,
    by: &Replacements,
    nodes: &[TypeNode],
) -> Result<List<TypeNode>, NoMemory>
    requires { AreTree nodes.now }
    ensures tree { IfOk result AreTree }
    ensures root { IfOk result (λ made. root made ≡ realised_tree (put_by by.now) (root nodes.now)) }
{
    let mut made = List::new(alloc);
    let mut images = List::new(alloc);
    for at in 0..nodes.len() {
        let place = replaced_node(alloc, by, nodes, at, &images, &mut made)?;
        images.add(place)?;
    }
    match images.pop() {
        Some(place) => Ok(up_to(made, place)),
        None => Err(NoMemory),
    }
}

/// Whether a type function is put for the name of a node.
fn is_replaced(by: &Replacements, node: &TypeNode) -> Result<bool, NoMemory>
    ensures { IfOk result (λ is. is ≡ false → NodeStays by.now node.now) }
{
    match node {
        TypeNode::Bound(_) => Ok(false),
        TypeNode::Free(_) => Ok(false),
        TypeNode::Made(symbol, _) => Ok(by.function_of(symbol)?.is_some()),
    }
}

/// Whether a type function is put for a name of some nodes.
fn is_any_replaced(by: &Replacements, nodes: &[TypeNode]) -> Result<bool, NoMemory>
    ensures { IfOk result (λ is. is ≡ false → AllStay by.now nodes.now) }
{
    for node in nodes {
        if is_replaced(by, node)? {
            return Ok(true);
        }
    }
    Ok(false)
}

/// Whether a type function is put for a name that stands in a type. Where none is, the type stays.
pub(crate) fn is_replaced_in(by: &Replacements, tree: &TypeTree) -> Result<bool, NoMemory>
    ensures { IfOk result (λ is. is ≡ false → realised_tree (put_by by.now) tree.now ≡ tree.now) }
{
    is_any_replaced(by, tree.nodes())
}

/// A type that is realised.
pub(crate) fn replaced_tree(
    alloc: Global,
    by: &Replacements,
    tree: &TypeTree,
) -> Result<TypeTree, NoMemory>
    ensures { IfOk result (λ made. made ≡ realised_tree (put_by by.now) tree.now) }
{
    let nodes = replaced_nodes(alloc, by, tree.nodes())?;
    Ok(TypeTree::from_nodes(nodes))
}
