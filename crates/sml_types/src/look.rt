//! What stands at an id.

ghost use Rattle.std.specs.Prelude.{◌≡◌, ◌<◌, length, IfOk};
ghost use Rattle.type_nodes.specs.Tables.{Has, whole};
ghost use Rattle.sml_types.specs.Looking.{IsLook, labels_of, ids_of};

use cm_base::{List, NoMemory, Text};
use semantic_objects::{Symbol, TyId, TyName};
use std::alloc::Global;
use type_nodes::TypeBindings;

/// A field of a record type.
#[derive(Drop)]
pub struct LookField {
    pub label: Text,
    pub part: TyId,
}

/// What stands at an id: a variable for which nothing stands, a record type with its fields in the byte order of their
/// labels, a function type, or a type name with its arguments.
#[derive(Drop)]
pub enum Look {
    Variable { eq: bool, rigid: bool },
    Record(List<LookField>),
    Arrow(TyId, TyId),
    Named(TyName, List<TyId>),
}

/// The same ids, in a list of their own.
pub(crate) fn copied(alloc: Global, ids: &List<TyId>) -> Result<List<TyId>, NoMemory>
    ensures { IfOk result (λ copy. copy ≡ ids.now) }
{
    let mut copy = List::new(alloc);
    for id in ids.as_slice() {
        copy.add(*id)?;
    }
    Ok(copy)
}

/// Fields of these labels and parts.
pub(crate) fn fields_of(
    alloc: Global,
    labels: &List<Text>,
    parts: &List<TyId>,
) -> Result<List<LookField>, NoMemory>
    requires { length parts.now ≡ length labels.now }
    ensures labels { IfOk result (λ fields. labels_of fields ≡ labels.now) }
    ensures parts { IfOk result (λ fields. ids_of fields ≡ parts.now) }
{
    let mut fields = List::new(alloc);
    let mut rest = labels.as_slice();
    for part in parts.as_slice() {
        match rest.split_first() {
            Some((label, more)) => {
                fields.add(LookField {
                    label: label.copy()?,
                    part: *part,
                })?;
                rest = more;
            }
            None => return Err(NoMemory),
        }
    }
    Ok(fields)
}

/// What stands at a node.
fn look_node(table: &TypeBindings, alloc: Global, at: usize) -> Result<Look, NoMemory>
    requires { at < length table.now.nodes }
    ensures { IfOk result (IsLook table.now (TyId.Made at)) }
{
    table.is_kept();
    let node = table.node(at);
    match &node.symbol {
        Symbol::Arrow => match (node.parts.get(0), node.parts.get(1)) {
            (Some(from), Some(to)) => Ok(Look::Arrow(*from, *to)),
            _ => Err(NoMemory),
        },
        Symbol::Record(labels) => Ok(Look::Record(fields_of(alloc, labels, &node.parts)?)),
        Symbol::Name(name) => Ok(Look::Named(name.copy()?, copied(alloc, &node.parts)?)),
    }
}

/// What stands at an id, with what was put in for variables.
pub(crate) fn look_at(table: &TypeBindings, alloc: Global, id: TyId) -> Result<Look, NoMemory>
    requires { Has table.now id }
    ensures { IfOk result (IsLook table.now id) }
{
    table.is_kept();
    match table.head(id) {
        TyId::Variable(at) => Ok(Look::Variable {
            eq: table.is_marked(at),
            rigid: table.birth(at).rigid,
        }),
        TyId::Made(at) => Ok(look_node(table, alloc, at)?),
    }
}
