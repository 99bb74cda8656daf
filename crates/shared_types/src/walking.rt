//! A walk over all that stands below a place of a list of nodes.

ghost use Rattle.std.specs.Prelude.{◌≡◌, ◌<◌, length, IfOk, OnOk};
ghost use Rattle.semantic_objects.specs.Nodes.{tree_at, AreNodes};
ghost use Rattle.shared_types.specs.Copied.{AreCopied};

use crate::nodes::copied_node;
use cm_base::{List, NoMemory};
use environment_walks::{Images, Step, enter_all};
use semantic_objects::{TypeNode, TypeTree};
use std::alloc::Global;

/// A place is met. Its parts are done before it is left; one that has an image is done.
fn enter(
    nodes: &[TypeNode],
    place: usize,
    images: &Images,
    steps: &mut List<Step>,
) -> Result<(), NoMemory> {
    if images.of(place).is_some() {
        return Ok(());
    }
    steps.add(Step::Leave(place))?;
    match nodes.get(place) {
        Some(TypeNode::Made(_, places)) => enter_all(places, steps),
        _ => Ok(()),
    }
}

/// Gives the place whose parts have images its own.
fn leave(
    alloc: Global,
    nodes: &[TypeNode],
    place: usize,
    copies: &mut List<TypeNode>,
    images: &mut Images,
) -> Result<(), NoMemory>
    requires nodes { AreNodes nodes.now }
    requires copied { AreCopied nodes.now copies.old images.old }
    ensures { OnOk result (AreCopied nodes.now copies.new images.new) }
{
    match nodes.get(place) {
        Some(node) => {
            let copy = copied_node(alloc, images, node)?;
            let image = copies.len();
            copies.add(copy)?;
            images.set(place, image)
        }
        None => Err(NoMemory),
    }
}

/// One step.
fn take(
    alloc: Global,
    nodes: &[TypeNode],
    step: Step,
    copies: &mut List<TypeNode>,
    images: &mut Images,
    steps: &mut List<Step>,
) -> Result<(), NoMemory>
    requires nodes { AreNodes nodes.now }
    requires copied { AreCopied nodes.now copies.old images.old }
    ensures { OnOk result (AreCopied nodes.now copies.new images.new) }
{
    match step {
        Step::Enter(place) => enter(nodes, place, images, steps),
        Step::Leave(place) => leave(alloc, nodes, place, copies, images),
    }
}

/// Gives a place its image, and all that stands below it. Each is done once. What isn't done after 2^64 - 1 steps is
/// refused as want of memory is.
fn walk(
    alloc: Global,
    nodes: &[TypeNode],
    place: usize,
    copies: &mut List<TypeNode>,
    images: &mut Images,
) -> Result<(), NoMemory>
    requires nodes { AreNodes nodes.now }
    requires copied { AreCopied nodes.now copies.old images.old }
    ensures { OnOk result (AreCopied nodes.now copies.new images.new) }
{
    let mut steps = List::new(alloc);
    steps.add(Step::Enter(place))?;
    for _ in 0..u64::MAX {
        match steps.pop() {
            Some(step) => take(alloc, nodes, step, copies, images, &mut steps)?,
            None => return Ok(()),
        }
    }
    Err(NoMemory)
}

/// The tree of the nodes up to a place.
fn tree_to(copies: List<TypeNode>, place: usize) -> TypeTree
    requires nodes { AreNodes copies }
    requires within { place < length copies }
    ensures { result ≡ tree_at copies place }
{
    let mut nodes = copies.into_vec();
    nodes.truncate(place + 1);
    TypeTree::from_nodes(List::from_vec(nodes))
}

/// The type at a place of a list of nodes, as a tree of the nodes that stand in it. Each of them is copied once, and
/// what is shared stays shared.
pub fn type_at(alloc: Global, nodes: &[TypeNode], place: usize) -> Result<TypeTree, NoMemory>
    requires { AreNodes nodes.now }
    ensures { IfOk result (λ tree. tree ≡ tree_at nodes.now place) }
{
    let mut copies = List::new(alloc);
    let mut images = Images::new(alloc);
    walk(alloc, nodes, place, &mut copies, &mut images)?;
    match images.of(place) {
        Some(image) => Ok(tree_to(copies, image)),
        None => Err(NoMemory),
    }
}
