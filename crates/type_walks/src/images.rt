//! The images of the nodes of a tree among the nodes that are made for another one.

ghost use Rattle.std.specs.Prelude.{◌≡◌, ◌<◌, IfOk, length};
ghost use Rattle.semantic_objects.specs.Nodes.{node_tree, unfolded, tree_at, root, AreNodes, AreTree, AreBelow, IsNodeAt};
ghost use Rattle.semantic_objects.specs.Adding.{Appended};
ghost use Rattle.unification.specs.Closing.{plug};
ghost use Rattle.type_walks.specs.Images.{AreImages, ArePicked, arguments_at};

use cm_base::{List, NoMemory};
use semantic_objects::{Symbol, TypeFn, TypeNode};
use std::alloc::Global;

/// The images of some nodes.
pub(crate) fn images_of(
    alloc: Global,
    images: &List<usize>,
    places: &List<usize>,
) -> Result<List<usize>, NoMemory>
    ensures { IfOk result (ArePicked images.now places.now) }
{
    let mut picked = List::new(alloc);
    for place in places.as_slice() {
        match images.get(*place) {
            Some(image) => picked.add(*image)?,
            None => return Err(NoMemory),
        }
    }
    Ok(picked)
}

/// Adds a node, and answers its place.
pub(crate) fn add_node(made: &mut List<TypeNode>, node: TypeNode) -> Result<usize, NoMemory>
    requires { IsNodeAt (length made.old) node }
    ensures { IfOk result (λ place. Appended made.old made.new place (node_tree (unfolded made.old) node)) }
{
    let place = made.len();
    made.add(node)?;
    Ok(place)
}

/// The argument for a variable of a type function: its place, or that of an empty record where there is none.
fn argument(
    alloc: Global,
    args: &List<usize>,
    variable: u32,
    made: &mut List<TypeNode>,
) -> Result<usize, NoMemory>
    requires args { AreBelow (length made.old) args.now }
    ensures { IfOk result (λ place. Appended made.old made.new place (arguments_at made.old args.now variable)) }
{
    match args.get(variable as usize) {
        Some(place) => Ok(*place),
        None => {
            let nothing = TypeNode::Made(Symbol::Record(List::new(alloc)), List::new(alloc));
            add_node(made, nothing)
        }
    }
}

/// Puts a node of a type function whose parts were put.
fn put_node(
    alloc: Global,
    args: &List<usize>,
    nodes: &[TypeNode],
    at: usize,
    images: &List<usize>,
    made: &mut List<TypeNode>,
) -> Result<usize, NoMemory>
    requires within { at < length nodes.now }
    requires nodes { AreNodes nodes.now }
    requires args { AreBelow (length made.old) args.now }
    requires images { AreImages (plug (arguments_at made.old args.now)) nodes.now made.old images.now }
    ensures { IfOk result (λ place.
        Appended made.old made.new place (plug (arguments_at made.old args.now) (tree_at nodes.now at))) }
{
    match &nodes[at] {
        TypeNode::Bound(variable) => argument(alloc, args, *variable, made),
        TypeNode::Free(number) => add_node(made, TypeNode::Free(*number)),
        TypeNode::Made(symbol, places) => {
            let parts = images_of(alloc, images, places)?;
            let symbol = symbol.copy()?;
            add_node(made, TypeNode::Made(symbol, parts))
        }
    }
}

/// Puts a type function over arguments, which stand once each however often it has them.
pub(crate) fn put_function(
    alloc: Global,
    function: &TypeFn,
    args: &List<usize>,
    made: &mut List<TypeNode>,
) -> Result<usize, NoMemory>
    requires args { AreBelow (length made.old) args.now }
    ensures { IfOk result (λ place.
        Appended made.old made.new place (plug (arguments_at made.old args.now) function.now.body)) }
{
    let nodes = function.body.nodes();
    let mut images = List::new(alloc);
    for at in 0..nodes.len() {
        let place = put_node(alloc, args, nodes, at, &images, made)?;
        images.add(place)?;
    }
    match images.pop() {
        Some(place) => Ok(place),
        None => Err(NoMemory),
    }
}

/// The nodes up to a place, so that the tree there is that of the whole list.
pub(crate) fn up_to(nodes: List<TypeNode>, place: usize) -> List<TypeNode>
    requires within { place < length nodes }
    requires nodes { AreNodes nodes }
    ensures tree { AreTree result }
    ensures root { root result ≡ tree_at nodes place }
{
    let mut nodes = nodes.into_vec();
    nodes.truncate(place + 1);
    List::from_vec(nodes)
}
