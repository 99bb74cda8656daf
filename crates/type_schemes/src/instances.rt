//! Instances of schemes.

ghost use Rattle.std.specs.Prelude.{◌≡◌, ◌++◌, ◌<◌, ◌≤◌, length, false, None, Some, IfOk, OnErr, OnOk};
ghost use Rattle.semantic_objects.specs.Nodes.{AreNodes, AreTree, root, tree_at};
ghost use Rattle.unification.specs.Instances.{instance, with_variables};
ghost use Rattle.type_nodes.specs.Tables.{Has, state, type_of};
ghost use Rattle.type_schemes.specs.Instances.{births_of, Extends, Adds, ReadAs, MayBeRead, AreRead, ArePartsAt};

use cm_base::{List, NoMemory};
use semantic_objects::{Scheme, TyId, TypeNode};
use std::alloc::Global;
use type_nodes::{Birth, Node, TypeBindings};

/// New variables, one for each mark in their order. After want of memory some of them may have been made.
pub fn add_variables(table: &mut TypeBindings, marks: &[bool]) -> Result<(), NoMemory>
    ensures births { OnOk result (table.new.births ≡ table.old.births ++ births_of marks.now) }
    ensures state { OnOk result (state table.new ≡ with_variables false marks.now (state table.old)) }
    ensures added { Adds table.old table.new }
{
    for mark in marks {
        table.add_variable(Birth {
            marked: *mark,
            rigid: false,
        })?;
    }
    Ok(())
}

/// The variable with this number, if the table has one.
pub fn variable(table: &TypeBindings, number: usize) -> Option<TyId>
    ensures some { (id : TyId) → result ≡ Some id → (number < length table.now.births) × (id ≡ TyId.Variable number) }
    ensures none { result ≡ None → length table.now.births ≤ number }
{
    if number < table.variables() {
        Some(TyId::Variable(number))
    } else {
        None
    }
}

/// The ids at some places, if there is one at each.
fn parts_at(
    alloc: Global,
    ids: &List<Option<TyId>>,
    places: &List<usize>,
) -> Result<Option<List<TyId>>, NoMemory>
    ensures { IfOk result (ArePartsAt ids.now places.now) }
{
    let mut parts = List::new(alloc);
    for place in places.as_slice() {
        match ids.get(*place) {
            Some(Some(id)) => parts.add(*id)?,
            _ => return Ok(None),
        }
    }
    Ok(Some(parts))
}

/// Reads a node whose parts were read, if all were. A node that isn't part of the tree may hold variables that nobody
/// has.
fn read_node(
    table: &mut TypeBindings,
    alloc: Global,
    base: usize,
    nodes: &[TypeNode],
    at: usize,
    ids: &List<Option<TyId>>,
) -> Result<Option<TyId>, NoMemory>
    requires within { at < length nodes.now }
    requires nodes { AreNodes nodes.now }
    requires read { AreRead table.old base nodes.now ids.now }
    ensures read { IfOk result (MayBeRead table.new base (tree_at nodes.now at)) }
    ensures births { table.new.births ≡ table.old.births }
    ensures state { IfOk result (λ id. state table.new ≡ state table.old) }
    ensures added { Adds table.old table.new }
{
    match &nodes[at] {
        TypeNode::Bound(i) => match base.checked_add(*i as usize) {
            Some(number) => Ok(variable(table, number)),
            None => Ok(None),
        },
        TypeNode::Free(number) => Ok(variable(table, *number)),
        TypeNode::Made(symbol, places) => match parts_at(alloc, ids, places)? {
            Some(parts) => {
                let symbol = symbol.copy()?;
                Ok(Some(table.add_node(Node { symbol, parts })?))
            }
            None => Ok(None),
        },
    }
}

/// Reads a tree whose scheme got the variables from `base` on. Each node is read once.
fn read_nodes(
    table: &mut TypeBindings,
    alloc: Global,
    base: usize,
    nodes: &[TypeNode],
) -> Result<TyId, NoMemory>
    requires { AreTree nodes.now }
    ensures read { IfOk result (ReadAs table.new base (root nodes.now)) }
    ensures births { table.new.births ≡ table.old.births }
    ensures state { IfOk result (λ id. state table.new ≡ state table.old) }
    ensures added { Adds table.old table.new }
{
    let mut ids = List::new(alloc);
    for at in 0..nodes.len() {
        let id = read_node(table, alloc, base, nodes, at, &ids)?;
        ids.add(id)?;
    }
    match ids.pop() {
        Some(Some(id)) => Ok(id),
        _ => Err(NoMemory),
    }
}

/// Reads a scheme with new variables in place of its own.
fn read_scheme(table: &mut TypeBindings, alloc: Global, scheme: &Scheme) -> Result<TyId, NoMemory>
    ensures made { IfOk result (λ id. type_of table.new id ≡ (instance scheme.now (state table.old)).0) }
    ensures has { IfOk result (Has table.new) }
    ensures births { IfOk result (λ id. table.new.births ≡ table.old.births ++ births_of scheme.now.marks) }
    ensures state { IfOk result (λ id. state table.new ≡ (instance scheme.now (state table.old)).1) }
    ensures added { Adds table.old table.new }
{
    table.is_kept();
    let base = table.variables();
    add_variables(table, scheme.marks())?;
    Ok(read_nodes(table, alloc, base, scheme.body().nodes())?)
}

/// An instance of a scheme: one new variable for each mark, in the order of the marks and with the mark, and the
/// scheme's type with these in place of its own variables. A scheme without marks adds no variable. A scheme in which a
/// variable is free that the table doesn't have is refused as want of memory is; the table is as before then.
/// The Definition of Standard ML (Revised), section 4.5.
pub fn instantiate(
    table: &mut TypeBindings,
    alloc: Global,
    scheme: &Scheme,
) -> Result<TyId, NoMemory>
    ensures made { IfOk result (λ id. type_of table.new id ≡ (instance scheme.now (state table.old)).0) }
    ensures has { IfOk result (Has table.new) }
    ensures births { IfOk result (λ id. table.new.births ≡ table.old.births ++ births_of scheme.now.marks) }
    ensures state { IfOk result (λ id. state table.new ≡ (instance scheme.now (state table.old)).1) }
    ensures extends { IfOk result (λ id. Extends table.old table.new) }
    ensures refused { OnErr result (table.new ≡ table.old) }
{
    let before = table.mark();
    match read_scheme(table, alloc, scheme) {
        Ok(id) => Ok(id),
        Err(NoMemory) => {
            table.undo(&before);
            Err(NoMemory)
        }
    }
}
