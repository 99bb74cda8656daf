//! Which type functions admit equality.

ghost use Rattle.std.specs.Prelude.{◌≡◌, ◌<◌, length, IfOk};
ghost use Rattle.unification.specs.Types.{Marks};
ghost use Rattle.realisation.specs.Realised.{function_admits};
ghost use Rattle.semantic_objects.specs.Nodes.{root};
ghost use Rattle.function_forms.specs.Admitting.{admits, NodeAdmits, PartsAdmit};

use cm_base::{List, NoMemory};
use semantic_objects::{TypeFn, TypeNode};
use std::alloc::Global;
use unification::{Equality, symbol_equality};

/// Whether all of some places are marked.
fn all_marked(marked: &List<bool>, places: &[usize]) -> Result<bool, NoMemory>
    ensures { IfOk result (PartsAdmit marked.now places.now) }
{
    for place in places {
        match marked.get(*place) {
            Some(mark) => {
                if !*mark {
                    return Ok(false);
                }
            }
            None => return Err(NoMemory),
        }
    }
    Ok(true)
}

/// Whether the type of a node admits equality, where the earlier ones that do are marked. A variable of a table is
/// refused as want of memory is.
fn node_admits(marked: &List<bool>, node: &TypeNode) -> Result<bool, NoMemory>
    ensures { IfOk result (NodeAdmits marked.now node.now) }
{
    match node {
        TypeNode::Bound(_) => Ok(true),
        TypeNode::Free(_) => Err(NoMemory),
        TypeNode::Made(symbol, places) => {
            let parts = all_marked(marked, places.as_slice())?;
            Ok(match symbol_equality(symbol) {
                Equality::Never => false,
                Equality::Always => true,
                Equality::ByParts => parts,
            })
        }
    }
}

/// Whether the type of the last of some nodes does.
fn root_admits(alloc: Global, nodes: &[TypeNode]) -> Result<bool, NoMemory>
    requires { 0 < length nodes.now }
    ensures { IfOk result (λ all. (q : Marks) → all ≡ admits q (root nodes.now)) }
{
    let mut marked = List::new(alloc);
    for node in nodes {
        let admits = node_admits(&marked, node)?;
        marked.add(admits)?;
    }
    match marked.pop() {
        Some(admits) => Ok(admits),
        None => Err(NoMemory),
    }
}

/// Whether a type function admits equality: whether its type does where its variables do. A variable of a table in it is
/// refused as want of memory is. The Definition of Standard ML (Revised), section 4.4.
pub fn admits(alloc: Global, function: &TypeFn) -> Result<bool, NoMemory>
    ensures { IfOk result (λ admits. (q : Marks) → admits ≡ function_admits q function.now) }
{
    root_admits(alloc, function.body.nodes())
}
