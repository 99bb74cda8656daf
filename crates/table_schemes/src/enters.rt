//! Schemes are entered into a table.

ghost use Rattle.std.specs.Prelude.{◌≡◌, ◌<◌, ℕ, map, slice_get, length, Some, IfOk, OnOk, OnErr};
ghost use Rattle.semantic_objects.specs.Symbols.{part_count, HasRisingLabels};
ghost use Rattle.semantic_objects.specs.Trees.{Tree, trees_of};
ghost use Rattle.semantic_objects.specs.Nodes as scheme;
ghost use Rattle.type_nodes.specs.Tables.{state};
ghost use Rattle.type_schemes.specs.Instances.{Adds, Extends};
ghost use Rattle.table_schemes.specs.Meaning.{AreNodes, IsPartOf, IsTableScheme, IsTree, part_tree, unfolded};
ghost use Rattle.table_schemes.specs.Entering.{AddsNodes, AreClosed, AreEntered, ArePartsAt, MayBeTree};

use crate::scheme::{OpenNode, OpenPart, TableScheme};
use cm_base::{List, NoMemory};
use semantic_objects::{Scheme, Symbol, TyId, TypeNode};
use std::alloc::Global;
use type_nodes::{Node, TypeBindings};

/// The parts at some places, if there is one at each.
fn parts_at(
    alloc: Global,
    parts: &List<Option<OpenPart>>,
    places: &List<usize>,
) -> Result<Option<List<OpenPart>>, NoMemory>
    ensures { IfOk result (ArePartsAt parts.now places.now) }
{
    let mut found = List::new(alloc);
    for place in places.as_slice() {
        match parts.get(*place) {
            Some(Some(part)) => found.add(*part)?,
            _ => return Ok(None),
        }
    }
    Ok(Some(found))
}

/// The ids that parts are, if all are ids.
fn closed_parts(alloc: Global, parts: &List<OpenPart>) -> Result<Option<List<TyId>>, NoMemory>
    ensures { IfOk result (AreClosed parts.now) }
{
    let mut ids = List::new(alloc);
    for part in parts.as_slice() {
        match *part {
            OpenPart::Closed(id) => ids.add(id)?,
            OpenPart::Bound(_) | OpenPart::Open(_) => return Ok(None),
        }
    }
    Ok(Some(ids))
}

/// A symbol over parts: a node of the table where all of them are its ids, else a node of the scheme.
fn enter_symbol(
    table: &mut TypeBindings,
    alloc: Global,
    symbol: Symbol,
    parts: List<OpenPart>,
    nodes: &mut List<OpenNode>,
) -> Result<OpenPart, NoMemory>
    requires counted { length parts ≡ part_count symbol }
    requires rising { HasRisingLabels symbol }
    requires parts { (i : ℕ) (a : OpenPart) → slice_get parts i ≡ Some a → IsPartOf table.old (length nodes.old) a }
    requires nodes { AreNodes table.old nodes.old }
    ensures tree { IfOk result (IsTree table.new nodes.new (Tree.Made symbol
        (trees_of (map (part_tree table.old (unfolded table.old nodes.old)) parts)))) }
    ensures nodes { OnOk result (AreNodes table.new nodes.new) }
    ensures more { OnOk result (AddsNodes nodes.old nodes.new) }
    ensures births { table.new.births ≡ table.old.births }
    ensures state { OnOk result (state table.new ≡ state table.old) }
    ensures added { Adds table.old table.new }
{
    match closed_parts(alloc, &parts)? {
        Some(ids) => Ok(OpenPart::Closed(table.add_node(Node { symbol, parts: ids })?)),
        None => {
            let place = nodes.len();
            nodes.add(OpenNode { symbol, parts })?;
            Ok(OpenPart::Open(place))
        }
    }
}

/// Enters a node whose parts were entered, if all were. A node that isn't part of the tree may hold variables that
/// neither the table nor the scheme has, of which there are `count`.
fn enter_node(
    table: &mut TypeBindings,
    alloc: Global,
    count: usize,
    xs: &[TypeNode],
    at: usize,
    parts: &List<Option<OpenPart>>,
    nodes: &mut List<OpenNode>,
) -> Result<Option<OpenPart>, NoMemory>
    requires within { at < length xs.now }
    requires xs { scheme.AreNodes xs.now }
    requires entered { AreEntered table.old xs.now nodes.old parts.now }
    ensures tree { IfOk result (MayBeTree table.new nodes.new (scheme.tree_at xs.now at)) }
    ensures nodes { OnOk result (AreNodes table.new nodes.new) }
    ensures more { OnOk result (AddsNodes nodes.old nodes.new) }
    ensures births { table.new.births ≡ table.old.births }
    ensures state { OnOk result (state table.new ≡ state table.old) }
    ensures added { Adds table.old table.new }
{
    match &xs[at] {
        TypeNode::Bound(number) => {
            if (*number as usize) < count {
                Ok(Some(OpenPart::Bound(*number)))
            } else {
                Ok(None)
            }
        }
        TypeNode::Free(number) => {
            if *number < table.variables() {
                Ok(Some(OpenPart::Closed(TyId::Variable(*number))))
            } else {
                Ok(None)
            }
        }
        TypeNode::Made(symbol, places) => match parts_at(alloc, parts, places)? {
            Some(parts) => {
                let symbol = symbol.copy()?;
                Ok(Some(enter_symbol(table, alloc, symbol, parts, nodes)?))
            }
            None => Ok(None),
        },
    }
}

/// Enters a tree over so many variables of its scheme. Each node is entered once.
fn enter_nodes(
    table: &mut TypeBindings,
    alloc: Global,
    count: usize,
    xs: &[TypeNode],
) -> Result<TableScheme, NoMemory>
    requires { scheme.AreTree xs.now }
    ensures nodes { IfOk result (λ made. AreNodes table.new made.nodes) }
    ensures root { IfOk result (λ made. IsTree table.new made.nodes (scheme.root xs.now) made.root) }
    ensures births { table.new.births ≡ table.old.births }
    ensures state { OnOk result (state table.new ≡ state table.old) }
    ensures added { Adds table.old table.new }
{
    let mut parts = List::new(alloc);
    let mut nodes = List::new(alloc);
    for at in 0..xs.len() {
        let part = enter_node(table, alloc, count, xs, at, &parts, &mut nodes)?;
        parts.add(part)?;
    }
    match parts.pop() {
        Some(Some(root)) => Ok(TableScheme { nodes, root }),
        _ => Err(NoMemory),
    }
}

/// The type of a scheme inside a table: parts in which no variable of the scheme stands become nodes of the table, the
/// others stay beside it. It takes as many steps as the scheme has nodes, and adds no variable. A scheme in which a
/// variable is free that the table doesn't have is refused as want of memory is; the table is as before then.
/// The Definition of Standard ML (Revised), section 4.5.
pub fn enter(
    table: &mut TypeBindings,
    alloc: Global,
    scheme: &Scheme,
) -> Result<TableScheme, NoMemory>
    ensures made { IfOk result (IsTableScheme table.new scheme.now) }
    ensures births { table.new.births ≡ table.old.births }
    ensures state { OnOk result (state table.new ≡ state table.old) }
    ensures extends { OnOk result (Extends table.old table.new) }
    ensures refused { OnErr result (table.new ≡ table.old) }
{
    let before = table.mark();
    match enter_nodes(table, alloc, scheme.marks().len(), scheme.body().nodes()) {
        Ok(made) => Ok(made),
        Err(NoMemory) => {
            table.undo(&before);
            Err(NoMemory)
        }
    }
}
