//! Whether what stands in a type may stand there. Each node is looked at once.

ghost use Rattle.std.specs.Prelude.{◌≡◌, Bool, IfOk};
ghost use Rattle.given_tops.specs.TypeSteps.{all_at, fits, node_fits};

use crate::names::{Limits, may_stand};
use cm_base::{List, NoMemory};
use semantic_objects::{TypeNode, TypeTree};
use std::alloc::Global;

/// Whether the answer is yes at all of some places. A place without an answer is refused as want of memory is.
fn parts_fit(held: &List<bool>, places: &List<usize>) -> Result<bool, NoMemory>
    ensures { IfOk result (λ fit. (other : Bool) → fit ≡ all_at other held.now places.now) }
{
    for place in places.as_slice() {
        match held.get(*place) {
            Some(fits) => {
                if !*fits {
                    return Ok(false);
                }
            }
            None => return Err(NoMemory),
        }
    }
    Ok(true)
}

/// Whether what stands in the tree of a node may stand there, from the answers for the nodes before it.
fn node_fits(
    limits: &Limits,
    own: usize,
    held: &List<bool>,
    node: &TypeNode,
) -> Result<bool, NoMemory>
    ensures { IfOk result (λ is. is ≡ node_fits limits.now own held.now node.now) }
{
    match node {
        TypeNode::Bound(variable) => Ok((*variable as usize) < own),
        TypeNode::Free(_) => Ok(false),
        TypeNode::Made(symbol, places) => {
            if may_stand(limits, symbol) {
                parts_fit(held, places)
            } else {
                Ok(false)
            }
        }
    }
}

/// Whether what stands in a type may stand there: names that may, the first `own` variables of the scheme or the type
/// function around, and no variable of a table.
pub(crate) fn tree_fits(
    alloc: Global,
    limits: &Limits,
    own: usize,
    tree: &TypeTree,
) -> Result<bool, NoMemory>
    ensures { IfOk result (λ is. is ≡ fits limits.now own tree.now) }
{
    let nodes = tree.nodes();
    let mut held = List::new(alloc);
    for node in nodes {
        let fits = node_fits(limits, own, &held, node)?;
        held.add(fits)?;
    }
    match held.pop() {
        Some(fits) => Ok(fits),
        None => Err(NoMemory),
    }
}
