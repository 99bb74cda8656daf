//! What the equality of constructors needs: which new types, and whether anything stands against it.

ghost use Rattle.std.specs.Prelude.{◌≡◌, ◌<◌, ◌++◌, ◌∷◌, [], ℕ, length, OnOk};
ghost use Rattle.semantic_objects.specs.Nodes.{root, AreBelow, AreNodes, AreTree};
ghost use Rattle.datatype_elab.specs.Wants.{wanted, need_is, need_in, begun, Marks, LookedAt, Looked, PartsBelow, Stepped, AddsWants};

use crate::needs::{Need, NewNames, need_of};
use cm_base::{List, NoMemory};
use semantic_objects::TypeNode;
use std::alloc::Global;

/// Marks nodes.
fn mark_all(marks: &mut [bool], places: &[usize])
    requires { AreBelow (length marks.old) places.now }
    ensures { Marks marks.old marks.new places.now }
{
    for place in places {
        marks[*place] = true;
    }
}

/// Adds what a node needs by itself, and marks the parts that it needs.
fn look_at(
    need: Need,
    places: &[usize],
    marks: &mut [bool],
    found: &mut List<Option<usize>>,
) -> Result<(), NoMemory>
    requires { AreBelow (length marks.old) places.now }
    ensures { OnOk result (LookedAt (need_is need) places.now marks.old marks.new found.old found.new) }
{
    match need {
        Need::Never => found.add(None),
        Need::Always => Ok(()),
        Need::OfParts => {
            mark_all(marks, places);
            Ok(())
        }
        Need::OfNew(at) => {
            found.add(Some(at))?;
            mark_all(marks, places);
            Ok(())
        }
    }
}

/// The same of a node.
fn look(
    new: &NewNames,
    node: &TypeNode,
    marks: &mut [bool],
    found: &mut List<Option<usize>>,
) -> Result<(), NoMemory>
    requires { PartsBelow (length marks.old) node.now }
    ensures { OnOk result (Looked (need_in new.now) node.now marks.old marks.new found.old found.new) }
{
    match node {
        TypeNode::Bound(_) => Ok(()),
        TypeNode::Free(_) => Ok(()),
        TypeNode::Made(symbol, places) => {
            look_at(need_of(new, symbol), places.as_slice(), marks, found)
        }
    }
}

/// The same of the node at a place, if it is marked.
fn step(
    new: &NewNames,
    nodes: &[TypeNode],
    at: usize,
    marks: &mut [bool],
    found: &mut List<Option<usize>>,
) -> Result<(), NoMemory>
    requires within { at < length nodes.now }
    requires counted { length marks.old ≡ length nodes.now }
    requires nodes { AreNodes nodes.now }
    ensures { OnOk result (Stepped (need_in new.now) nodes.now at marks.old marks.new found.old found.new) }
{
    if marks[at] {
        look(new, &nodes[at], marks, found)
    } else {
        Ok(())
    }
}

/// Goes through nodes from the last one on, and looks at those that are marked: each is before all nodes that need it.
fn walk(
    new: &NewNames,
    nodes: &[TypeNode],
    marks: &mut [bool],
    found: &mut List<Option<usize>>,
) -> Result<(), NoMemory>
    requires tree { AreTree nodes.now }
    requires begun { marks.old ≡ begun (length nodes.now) }
    ensures { OnOk result (AddsWants (wanted (need_in new.now) (root nodes.now)) found.old found.new) }
{
    let mut at = nodes.len();
    while at > 0 {
        at -= 1;
        step(new, nodes, at, marks, found)?;
    }
    Ok(())
}

/// Adds what the equality of a type needs, in as many steps as it has nodes and these have parts.
pub(crate) fn add_wants(
    alloc: Global,
    new: &NewNames,
    nodes: &[TypeNode],
    found: &mut List<Option<usize>>,
) -> Result<(), NoMemory>
    requires { AreTree nodes.now }
    ensures { OnOk result (AddsWants (wanted (need_in new.now) (root nodes.now)) found.old found.new) }
{
    let mut marks = vec![in alloc; false; nodes.len()]?;
    marks[nodes.len() - 1] = true;
    walk(new, nodes, &mut marks, found)
}
