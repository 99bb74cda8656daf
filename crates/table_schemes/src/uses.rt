//! Instances of schemes that a table has.

ghost use Rattle.std.specs.Prelude.{◌≡◌, ◌++◌, ℕ, slice_get, Some, IfOk, IfSome, OnOk, OnErr};
ghost use Rattle.unification.specs.Instances as schemes;
ghost use Rattle.type_nodes.specs.Tables.{Has, state, type_of};
ghost use Rattle.type_schemes.specs.Instances.{births_of, Adds, Extends};
ghost use Rattle.type_schemes.specs.Schemes.{HaveAll};
ghost use Rattle.table_schemes.specs.Meaning.{AreNodes, IsNodeAt, IsTableScheme, unfolded};
ghost use Rattle.table_schemes.specs.Using.{AreMade, HasPart, HaveParts, IsNodeId, IsPartId, MayBePartIds, MayHaveAll};

use crate::scheme::{OpenNode, OpenPart, TableScheme};
use cm_base::{List, NoMemory};
use semantic_objects::{Scheme, TyId};
use std::alloc::Global;
use type_nodes::{Node, TypeBindings};
use type_schemes::{add_variables, variable};

/// The id at a place, if there is one.
fn id_at(ids: &List<TyId>, place: usize) -> Option<TyId>
    ensures { IfSome result (λ id. slice_get ids.now place ≡ Some id) }
{
    match ids.get(place) {
        Some(id) => Some(*id),
        None => None,
    }
}

/// The id that a part became, where the variables of the scheme are those from `base` on.
fn part_id(table: &TypeBindings, base: usize, ids: &List<TyId>, part: OpenPart) -> Option<TyId>
    requires part { HasPart table.now part }
    requires ids { HaveAll table.now ids.now }
    ensures has { IfSome result (Has table.now) }
    ensures read { IsPartId table.now base ids.now part result }
{
    match part {
        OpenPart::Closed(id) => Some(id),
        OpenPart::Bound(i) => match base.checked_add(i as usize) {
            Some(number) => variable(table, number),
            None => None,
        },
        OpenPart::Open(place) => id_at(ids, place),
    }
}

/// The ids that parts became, if all have one.
fn part_ids(
    table: &TypeBindings,
    alloc: Global,
    base: usize,
    ids: &List<TyId>,
    parts: &List<OpenPart>,
) -> Result<Option<List<TyId>>, NoMemory>
    requires parts { HaveParts table.now parts.now }
    requires ids { HaveAll table.now ids.now }
    ensures has { IfOk result (MayHaveAll table.now parts.now) }
    ensures read { IfOk result (MayBePartIds table.now base ids.now parts.now) }
{
    let mut found = List::new(alloc);
    for part in parts.as_slice() {
        match part_id(table, base, ids, *part) {
            Some(id) => found.add(id)?,
            None => return Ok(None),
        }
    }
    Ok(Some(found))
}

/// The node of the table that a node of the scheme becomes.
fn make_node(
    table: &mut TypeBindings,
    alloc: Global,
    base: usize,
    ids: &List<TyId>,
    node: &OpenNode,
) -> Result<TyId, NoMemory>
    requires node { (n : ℕ) × IsNodeAt table.old n node.now }
    requires ids { HaveAll table.old ids.now }
    ensures read { IfOk result (IsNodeId table.old base ids.now node.now table.new) }
    ensures births { table.new.births ≡ table.old.births }
    ensures state { OnOk result (state table.new ≡ state table.old) }
    ensures added { Adds table.old table.new }
{
    match part_ids(table, alloc, base, ids, &node.parts)? {
        Some(parts) => {
            let symbol = node.symbol.copy()?;
            Ok(table.add_node(Node { symbol, parts })?)
        }
        None => Err(NoMemory),
    }
}

/// The nodes of the table that those of a scheme become.
fn make_nodes(
    table: &mut TypeBindings,
    alloc: Global,
    base: usize,
    nodes: &List<OpenNode>,
) -> Result<List<TyId>, NoMemory>
    requires { AreNodes table.old nodes.now }
    ensures made { IfOk result (AreMade table.new base (unfolded table.old nodes.now)) }
    ensures births { table.new.births ≡ table.old.births }
    ensures state { OnOk result (state table.new ≡ state table.old) }
    ensures added { Adds table.old table.new }
{
    let mut ids = List::new(alloc);
    for node in nodes.as_slice() {
        let id = make_node(table, alloc, base, &ids, node)?;
        ids.add(id)?;
    }
    Ok(ids)
}

/// An instance over new variables, which may stay in the table after want of memory.
fn make_instance(
    table: &mut TypeBindings,
    alloc: Global,
    scheme: &Scheme,
    made: &TableScheme,
) -> Result<TyId, NoMemory>
    requires { IsTableScheme table.old scheme.now made.now }
    ensures made { IfOk result (λ id. type_of table.new id ≡ (schemes.instance scheme.now (state table.old)).0) }
    ensures has { IfOk result (Has table.new) }
    ensures births { OnOk result (table.new.births ≡ table.old.births ++ births_of scheme.now.marks) }
    ensures state { OnOk result (state table.new ≡ (schemes.instance scheme.now (state table.old)).1) }
    ensures added { Adds table.old table.new }
{
    table.is_kept();
    let base = table.variables();
    add_variables(table, scheme.marks())?;
    let ids = make_nodes(table, alloc, base, &made.nodes)?;
    match part_id(table, base, &ids, made.root) {
        Some(id) => Ok(id),
        None => Err(NoMemory),
    }
}

/// An instance of a scheme that the table has, as `type_schemes::instantiate` makes one of the scheme itself. It takes
/// as many steps as there are variables of the scheme and nodes in which one stands; the other parts are shared by all
/// instances. Want of memory leaves the table as it was. The Definition of Standard ML (Revised), section 4.5.
pub fn instance(
    table: &mut TypeBindings,
    alloc: Global,
    scheme: &Scheme,
    made: &TableScheme,
) -> Result<TyId, NoMemory>
    requires { IsTableScheme table.old scheme.now made.now }
    ensures made { IfOk result (λ id. type_of table.new id ≡ (schemes.instance scheme.now (state table.old)).0) }
    ensures has { IfOk result (Has table.new) }
    ensures births { OnOk result (table.new.births ≡ table.old.births ++ births_of scheme.now.marks) }
    ensures state { OnOk result (state table.new ≡ (schemes.instance scheme.now (state table.old)).1) }
    ensures extends { OnOk result (Extends table.old table.new) }
    ensures refused { OnErr result (table.new ≡ table.old) }
{
    let before = table.mark();
    match make_instance(table, alloc, scheme, made) {
        Ok(id) => Ok(id),
        Err(NoMemory) => {
            table.undo(&before);
            Err(NoMemory)
        }
    }
}
