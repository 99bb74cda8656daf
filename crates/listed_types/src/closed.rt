//! Types of a table as trees in which the variables of a list are closed.

ghost use Rattle.std.specs.Prelude.{◌≡◌, [], map, IfOk};
ghost use Rattle.unification.specs.Closing.{closed_over};
ghost use Rattle.type_nodes.specs.Tables.{Has, whole};
ghost use Rattle.static_semantics.specs.DatatypeInference.{counted};
ghost use Rattle.listed_types.specs.Listing.{list_leaf, list_node};

use cm_base::{List, NoMemory};
use semantic_objects::{Scheme, TyId, TypeNode, TypeTree};
use sml_types::TypeTable;
use std::alloc::Global;

/// A variable: by its place in the list where it is one of its variables.
fn list_leaf(first: usize, count: usize, variable: usize) -> Result<TypeNode, NoMemory>
    ensures { IfOk result (λ node. node ≡ list_leaf first count variable) }
{
    if variable < first || variable - first >= count {
        return Ok(TypeNode::Free(variable));
    }
    match u32::try_from(variable - first) {
        Ok(place) => Ok(TypeNode::Bound(place)),
        Err(_) => Err(NoMemory),
    }
}

/// The same node, where a variable of the list is known by its place.
fn list_node(first: usize, count: usize, node: &TypeNode) -> Result<TypeNode, NoMemory>
    ensures { IfOk result (λ made. made ≡ list_node first count node.now) }
{
    match node {
        TypeNode::Bound(place) => Ok(TypeNode::Bound(*place)),
        TypeNode::Free(variable) => list_leaf(first, count, *variable),
        TypeNode::Made(symbol, places) => Ok(TypeNode::Made(symbol.copy()?, places.clone()?)),
    }
}

/// The same nodes, where variables of the list are known by their places.
fn list_nodes(
    alloc: Global,
    first: usize,
    count: usize,
    nodes: &[TypeNode],
) -> Result<List<TypeNode>, NoMemory>
    ensures { IfOk result (λ made. made ≡ map (list_node first count) nodes.now) }
{
    let mut made = List::new(alloc);
    for node in nodes {
        made.add(list_node(first, count, node)?)?;
    }
    Ok(made)
}

/// What an id stands for, with all its variables free.
fn open_scheme(alloc: Global, t: &mut TypeTable, ty: TyId) -> Result<Scheme, NoMemory>
    requires { Has t.old ty }
    ensures body { IfOk result (λ scheme. scheme.body ≡ closed_over [] (whole t.old ty)) }
    ensures same { t.new ≡ t.old }
{
    t.is_kept();
    let since = t.mark();
    let mut tys = List::new(alloc);
    tys.add(ty)?;
    let mut schemes = t.generalise_since(&tys, &since)?;
    match schemes.pop() {
        Some(scheme) => Ok(scheme),
        None => Err(NoMemory),
    }
}

/// What an id stands for, as a tree that is closed over the variables of a list: so many variables of the table from a
/// first one on, which the tree numbers in this order. All others stay free. It takes as many steps as the type has
/// nodes in the table, each of which is in the tree once.
/// The Definition of Standard ML (Revised), section 4.4.
pub fn closed_over_list(
    alloc: Global,
    t: &mut TypeTable,
    first: usize,
    count: usize,
    ty: TyId,
) -> Result<TypeTree, NoMemory>
    requires { Has t.old ty }
    ensures tree { IfOk result (λ tree. tree ≡ closed_over (counted count first) (whole t.old ty)) }
    ensures same { t.new ≡ t.old }
{
    let open = open_scheme(alloc, t, ty)?;
    let nodes = list_nodes(alloc, first, count, open.body().nodes())?;
    Ok(TypeTree::from_nodes(nodes))
}
