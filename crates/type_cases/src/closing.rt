//! Whether the variables of a scheme that stand in a tree are among so many.

ghost use Rattle.std.specs.Prelude.{◌≡◌, ◌<◌, IsTrue};
ghost use Rattle.semantic_objects.specs.Trees.{BindsBelow};
ghost use Rattle.type_cases.specs.Closing.{NodeBinds};

use semantic_objects::{TypeNode, TypeTree};

/// Whether a node is no variable of a scheme, or one of so many.
fn binds_below(node: &TypeNode, count: usize) -> bool
    ensures { IsTrue result → NodeBinds count node.now }
{
    match node {
        TypeNode::Bound(place) => (*place as usize) < count,
        _ => true,
    }
}

/// Whether all variables of a scheme in a tree's nodes are among so many.
pub fn is_closed_by(tree: &TypeTree, count: usize) -> bool
    ensures { IsTrue result → BindsBelow count tree.now }
{
    let nodes = tree.nodes();
    for node in nodes {
        if !binds_below(node, count) {
            return false;
        }
    }
    true
}
