//! The nodes of a tree, which several trees may share.

ghost use Rattle.std.specs.Prelude.{◌≡◌, IfOk, length};
ghost use Rattle.semantic_objects.specs.Sharing.{nodes_of};

use crate::node::{TypeNode, copy_nodes};
use cm_base::{List, NoMemory};
use std::alloc::Global;
use std::marker::Model;
use std::rc::Rc;

/// Nodes of one tree alone, or those that several trees have.
#[derive(Drop)]
pub(crate) enum Held {
    Alone(List<TypeNode>),
    Shared(Rc<List<TypeNode>, Global>),
}

/// The nodes of a tree. Once they are shared a copy takes as long however many they are.
#[derive(Drop)]
pub(crate) struct SharedNodes {
    held: Held,
}

impl Model for SharedNodes {
    ghost use Rattle.std.specs.Prelude.{List};
    ghost use Rattle.semantic_objects.specs.declared.node.TypeNode.{TypeNode};

    ghost Value = { List TypeNode };

    ghost use Rattle.semantic_objects.specs.Sharing.{nodes_of};

    ghost view = { λ s. nodes_of s.held };
}

impl SharedNodes {
    /// Nodes that aren't shared yet.
    pub(crate) fn new(nodes: List<TypeNode>) -> SharedNodes
        ensures { result ≡ nodes }
    {
        SharedNodes {
            held: Held::Alone(nodes),
        }
    }

    /// The same nodes, so that they are shared from now on.
    pub(crate) fn shared(self) -> Result<SharedNodes, NoMemory>
        ensures { IfOk result (λ shared. shared ≡ self) }
    {
        let SharedNodes { held } = self;
        let held = match held {
            Held::Alone(nodes) => share(nodes)?,
            Held::Shared(nodes) => Held::Shared(nodes),
        };
        Ok(SharedNodes { held })
    }

    /// The same nodes once more, which are copied only where they aren't shared.
    pub(crate) fn copy(&self, alloc: Global) -> Result<SharedNodes, NoMemory>
        ensures { IfOk result (λ copy. copy ≡ self.now) }
    {
        let held = match &self.held {
            Held::Alone(nodes) => Held::Alone(copy_nodes(alloc, nodes.as_slice())?),
            Held::Shared(nodes) => Held::Shared(nodes.clone()?),
        };
        Ok(SharedNodes { held })
    }

    /// The nodes as a list of their own, which are copied only where another tree has them too.
    pub(crate) fn into_list(self, alloc: Global) -> Result<List<TypeNode>, NoMemory>
        ensures { IfOk result (λ nodes. nodes ≡ self) }
    {
        let SharedNodes { held } = self;
        match held {
            Held::Alone(nodes) => Ok(nodes),
            Held::Shared(nodes) => match Rc::try_unwrap(nodes) {
                Ok(nodes) => Ok(nodes),
                Err(nodes) => copy_nodes(alloc, nodes.as_slice()),
            },
        }
    }

    pub(crate) fn as_slice(&self) -> &[TypeNode]
        ensures { result.now ≡ self.now }
    {
        match &self.held {
            Held::Alone(nodes) => nodes.as_slice(),
            Held::Shared(nodes) => nodes.as_slice(),
        }
    }

    pub(crate) fn len(&self) -> usize
        ensures { result ≡ length self.now }
    {
        self.as_slice().len()
    }
}

/// Nodes that may be shared.
fn share(nodes: List<TypeNode>) -> Result<Held, NoMemory>
    ensures { IfOk result (λ held. nodes_of held ≡ nodes) }
{
    let items = nodes.into_vec();
    let alloc = *items.allocator();
    match Rc::new(alloc, List::from_vec(items)) {
        Ok(nodes) => Ok(Held::Shared(nodes)),
        Err(_) => Err(NoMemory),
    }
}
