//! Whether the variables in a type are among the first ones. Each node is looked at once.

ghost use Rattle.std.specs.Prelude.{◌≡◌, Bool, IfOk};
ghost use Rattle.environment_ages.specs.TypeSteps.{allows, all_at, node_holds, holds};

use cm_base::{List, NoMemory};
use semantic_objects::{TypeNode, TypeTree};
use std::alloc::Global;

/// The variables that may stand in a type: of the scheme around the first so many, or all, and of a table the first so
/// many.
#[derive(Clone, Copy)]
pub(crate) struct Limits {
    pub(crate) own: Option<usize>,
    pub(crate) free: usize,
}

/// Whether a variable of the scheme around may stand in a type.
fn allows(own: Option<usize>, variable: u32) -> bool
    ensures { result ≡ allows own variable }
{
    match own {
        Some(count) => (variable as usize) < count,
        None => true,
    }
}

/// Whether the limits are kept at all of some places. A place without an answer is refused as want of memory is.
fn parts_hold(held: &List<bool>, places: &List<usize>) -> Result<bool, NoMemory>
    ensures { IfOk result (λ holds. (other : Bool) → holds ≡ all_at other held.now places.now) }
{
    for place in places.as_slice() {
        match held.get(*place) {
            Some(holds) => {
                if !*holds {
                    return Ok(false);
                }
            }
            None => return Err(NoMemory),
        }
    }
    Ok(true)
}

/// Whether the limits are kept in the tree of a node, from the answers for the nodes before it.
fn node_holds(limits: Limits, held: &List<bool>, node: &TypeNode) -> Result<bool, NoMemory>
    ensures { IfOk result (λ is. is ≡ node_holds limits held.now node.now) }
{
    match node {
        TypeNode::Bound(variable) => Ok(allows(limits.own, *variable)),
        TypeNode::Free(variable) => Ok(*variable < limits.free),
        TypeNode::Made(_, places) => parts_hold(held, places),
    }
}

/// Whether the limits are kept in a type.
pub(crate) fn tree_holds(alloc: Global, limits: Limits, tree: &TypeTree) -> Result<bool, NoMemory>
    ensures { IfOk result (λ is. is ≡ holds limits tree.now) }
{
    let nodes = tree.nodes();
    let mut held = List::new(alloc);
    for node in nodes {
        let holds = node_holds(limits, &held, node)?;
        held.add(holds)?;
    }
    match held.pop() {
        Some(holds) => Ok(holds),
        None => Err(NoMemory),
    }
}
