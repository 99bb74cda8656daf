//! How many nodes a type has as a tree.

ghost use Rattle.std.specs.Prelude.{◌≡◌, ◌+◌, ◌≤◌, ◌++◌, IfOk, OnOk};
ghost use Rattle.unification.specs.Types.{size};
ghost use Rattle.type_nodes.specs.Facts.{capped};
ghost use Rattle.type_nodes.specs.Tables.{Has, whole};
ghost use Rattle.sml_types.specs.Sizing.{HaveAll, Counted};

use cm_base::{List, NoMemory};
use semantic_objects::TyId;
use std::alloc::Global;
use type_nodes::{LARGE, TypeBindings};

/// A count with more to it, where a large one stays the same.
fn more(counted: u32, by: u32) -> u32
    ensures { result ≡ capped (counted + by) }
{
    counted.saturating_add(by).min(LARGE)
}

/// Adds ids behind others.
pub(crate) fn add_all(ids: &mut List<TyId>, more: &List<TyId>) -> Result<(), NoMemory>
    ensures { OnOk result (ids.new ≡ ids.old ++ more.now) }
{
    for id in more.as_slice() {
        ids.add(*id)?;
    }
    Ok(())
}

/// Counts what stands at an id: a node whose size is known with all below it, and else by itself, with its parts left to
/// be counted.
fn count(
    table: &TypeBindings,
    id: TyId,
    counted: u32,
    left: &mut List<TyId>,
) -> Result<u32, NoMemory>
    requires has { Has table.now id }
    requires all { HaveAll table.now left.old }
    requires within { counted ≤ 65537 }
    ensures { IfOk result (Counted table.now id counted left.old left.new) }
{
    table.is_kept();
    match table.head(id) {
        TyId::Variable(_) => Ok(more(counted, 1)),
        TyId::Made(at) => {
            let facts = table.facts(at);
            if facts.flexible {
                add_all(left, &table.node(at).parts)?;
                Ok(more(counted, 1))
            } else {
                Ok(more(counted, facts.size))
            }
        }
    }
}

/// The number of nodes of the tree that an id stands for, or `LARGE` where there are so many or more.
pub(crate) fn tree_size(table: &TypeBindings, alloc: Global, id: TyId) -> Result<u32, NoMemory>
    requires { Has table.now id }
    ensures { IfOk result (λ count. count ≡ capped (size (whole table.now id))) }
{
    let mut left = List::new(alloc);
    left.add(id)?;
    let mut counted = 0;
    while let Some(id) = left.pop() {
        counted = count(table, id, counted, &mut left)?;
        if left.len() >= LARGE as usize || counted >= LARGE {
            return Ok(LARGE);
        }
    }
    Ok(counted)
}
