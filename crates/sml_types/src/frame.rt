//! Going through the parts of nodes.

ghost use Rattle.std.specs.Prelude.{◌≡◌, ◌<◌, length, IfOk};
ghost use Rattle.sml_types.specs.Frames.{after, IsNextPart};

use cm_base::NoMemory;
use semantic_objects::TyId;
use type_nodes::TypeBindings;

/// A node whose parts are gone through, and the place of the next one.
#[derive(Clone, Copy, Debug, PartialEq, Eq)]
pub(crate) struct Frame {
    pub(crate) node: usize,
    pub(crate) next: usize,
}

impl Frame {
    /// All parts of a node.
    pub(crate) fn of_node(node: usize) -> Frame
        ensures node { result.node ≡ node }
        ensures next { result.next ≡ 0 }
    {
        Frame { node, next: 0 }
    }

    /// Without the next part.
    pub(crate) fn after(self) -> Result<Frame, NoMemory>
        ensures { IfOk result (λ frame. frame ≡ after self) }
    {
        match self.next.checked_add(1) {
            Some(next) => Ok(Frame {
                node: self.node,
                next,
            }),
            None => Err(NoMemory),
        }
    }

    /// The next part, if there is one.
    pub(crate) fn part(self, table: &TypeBindings) -> Option<TyId>
        requires { self.node < length table.now.nodes }
        ensures { IsNextPart table.now self result }
    {
        table.is_kept();
        match table.node(self.node).parts.get(self.next) {
            Some(part) => Some(*part),
            None => None,
        }
    }
}
