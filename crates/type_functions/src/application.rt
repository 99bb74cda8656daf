//! Types over a table, read from trees.

ghost use Rattle.std.specs.Prelude.{◌≡◌, ◌<◌, length, map, slice_get, Some, IfOk, OnErr};
ghost use Rattle.semantic_objects.specs.Nodes.{AreNodes, AreTree, root, tree_at};
ghost use Rattle.unification.specs.Types.{Ty};
ghost use Rattle.type_nodes.specs.Tables.{Has, state, type_of};
ghost use Rattle.type_schemes.specs.Instances.{Extends, Adds, ArePartsAt};
ghost use Rattle.type_schemes.specs.Schemes.{HaveAll};
ghost use Rattle.type_functions.specs.Applied.{with_types};
ghost use Rattle.type_functions.specs.Reading.{ReadWith, MayBeRead, AreRead};

use cm_base::{List, NoMemory};
use semantic_objects::{TyId, TypeFn, TypeNode};
use std::alloc::Global;
use type_nodes::{Node, TypeBindings};

/// The argument in a place, if there is one.
fn argument(args: &[TyId], place: usize) -> Option<TyId>
    ensures { (id : TyId) → result ≡ Some id → slice_get args.now place ≡ Some id }
{
    match args.get(place) {
        Some(id) => Some(*id),
        None => None,
    }
}

/// The variable with this number, if the table has one.
fn variable(table: &TypeBindings, number: usize) -> Option<TyId>
    ensures { (id : TyId) → result ≡ Some id → (number < length table.now.births) × (id ≡ TyId.Variable number) }
{
    if number < table.variables() {
        Some(TyId::Variable(number))
    } else {
        None
    }
}

/// The ids at some places, if there is one at each.
fn parts_at(
    alloc: Global,
    ids: &List<Option<TyId>>,
    places: &List<usize>,
) -> Result<Option<List<TyId>>, NoMemory>
    ensures { IfOk result (ArePartsAt ids.now places.now) }
{
    let mut parts = List::new(alloc);
    for place in places.as_slice() {
        match ids.get(*place) {
            Some(Some(id)) => parts.add(*id)?,
            _ => return Ok(None),
        }
    }
    Ok(Some(parts))
}

/// Reads a node whose parts were read, if all were. A node that isn't part of the tree may hold variables that nobody
/// has.
fn read_node(
    table: &mut TypeBindings,
    alloc: Global,
    args: &[TyId],
    nodes: &[TypeNode],
    at: usize,
    ids: &List<Option<TyId>>,
) -> Result<Option<TyId>, NoMemory>
    requires within { at < length nodes.now }
    requires nodes { AreNodes nodes.now }
    requires args { HaveAll table.old args.now }
    requires read { AreRead table.old (map (type_of table.old) args.now) nodes.now ids.now }
    ensures read { IfOk result (MayBeRead table.new (map (type_of table.old) args.now) (tree_at nodes.now at)) }
    ensures births { table.new.births ≡ table.old.births }
    ensures state { IfOk result (λ id. state table.new ≡ state table.old) }
    ensures added { Adds table.old table.new }
{
    match &nodes[at] {
        TypeNode::Bound(i) => Ok(argument(args, *i as usize)),
        TypeNode::Free(number) => Ok(variable(table, *number)),
        TypeNode::Made(symbol, places) => match parts_at(alloc, ids, places)? {
            Some(parts) => {
                let symbol = symbol.copy()?;
                Ok(Some(table.add_node(Node { symbol, parts })?))
            }
            None => Ok(None),
        },
    }
}

/// Reads a tree. Each node is read once, so an argument is shared by all places where it stands.
fn read_nodes(
    table: &mut TypeBindings,
    alloc: Global,
    args: &[TyId],
    nodes: &[TypeNode],
) -> Result<TyId, NoMemory>
    requires tree { AreTree nodes.now }
    requires args { HaveAll table.old args.now }
    ensures read { IfOk result (ReadWith table.new (map (type_of table.old) args.now) (root nodes.now)) }
    ensures births { table.new.births ≡ table.old.births }
    ensures state { IfOk result (λ id. state table.new ≡ state table.old) }
    ensures added { Adds table.old table.new }
{
    let mut ids = List::new(alloc);
    for at in 0..nodes.len() {
        let id = read_node(table, alloc, args, nodes, at, &ids)?;
        ids.add(id)?;
    }
    match ids.pop() {
        Some(Some(id)) => Ok(id),
        _ => Err(NoMemory),
    }
}

/// The type that a type function gives for arguments, as many as it takes. Where it has a variable of its own for which
/// there is no argument, or one of a table that this table doesn't have, it is refused as want of memory is; the table
/// is as before then. The Definition of Standard ML (Revised), section 4.4.
pub fn apply(
    table: &mut TypeBindings,
    alloc: Global,
    function: &TypeFn,
    args: &[TyId],
) -> Result<TyId, NoMemory>
    requires { HaveAll table.old args.now }
    ensures made { IfOk result (λ id. (other : Ty)
        → type_of table.new id ≡ with_types other (map (type_of table.old) args.now) function.now.body) }
    ensures has { IfOk result (Has table.new) }
    ensures births { IfOk result (λ id. table.new.births ≡ table.old.births) }
    ensures state { IfOk result (λ id. state table.new ≡ state table.old) }
    ensures extends { IfOk result (λ id. Extends table.old table.new) }
    ensures refused { OnErr result (table.new ≡ table.old) }
{
    let before = table.mark();
    match read_nodes(table, alloc, args, function.body.nodes()) {
        Ok(id) => Ok(id),
        Err(NoMemory) => {
            table.undo(&before);
            Err(NoMemory)
        }
    }
}
