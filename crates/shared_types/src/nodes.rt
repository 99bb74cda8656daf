//! A node is copied whose parts have images.

ghost use Rattle.std.specs.Prelude.{IfOk};
ghost use Rattle.shared_types.specs.Copied.{AreImages, CopiesOf};

use cm_base::{List, NoMemory};
use environment_walks::Images;
use semantic_objects::TypeNode;
use std::alloc::Global;

/// The images of some places. One that has none is refused as want of memory is.
fn images_of(alloc: Global, images: &Images, places: &List<usize>) -> Result<List<usize>, NoMemory>
    ensures { IfOk result (AreImages images.now places.now) }
{
    let mut made = List::new(alloc);
    for place in places.as_slice() {
        match images.of(*place) {
            Some(image) => made.add(image)?,
            None => return Err(NoMemory),
        }
    }
    Ok(made)
}

/// Copies a node.
pub(crate) fn copied_node(
    alloc: Global,
    images: &Images,
    node: &TypeNode,
) -> Result<TypeNode, NoMemory>
    ensures { IfOk result (CopiesOf images.now node.now) }
{
    match node {
        TypeNode::Bound(i) => Ok(TypeNode::Bound(*i)),
        TypeNode::Free(n) => Ok(TypeNode::Free(*n)),
        TypeNode::Made(symbol, places) => Ok(TypeNode::Made(
            symbol.copy()?,
            images_of(alloc, images, places)?,
        )),
    }
}
