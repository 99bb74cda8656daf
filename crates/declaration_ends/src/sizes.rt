//! The sizes of trees, as a table knows the variables in them.

ghost use Rattle.std.specs.Prelude.{◌≡◌, ◌<◌, IfOk};
ghost use Rattle.unification.specs.Types.{size};
ghost use Rattle.type_nodes.specs.Facts.{capped};
ghost use Rattle.type_nodes.specs.Tables.{state};
ghost use Rattle.static_semantics.specs.Inferring.{seen, is_too_large};
ghost use Rattle.type_phrases.specs.Inferred.{KeepsTypes};
ghost use Rattle.declaration_ends.specs.Sizes.{AreAll, large_type};

use cm_base::{List, NoMemory};
use pattern_elab::int_type;
use semantic_objects::{TyId, TypeFn, TypeStr, TypeTree};
use sml_types::TypeTable;
use std::alloc::Global;

/// So many times an id.
fn repeated(alloc: Global, id: TyId, count: usize) -> Result<List<TyId>, NoMemory>
    ensures { IfOk result (AreAll id) }
{
    let mut ids = List::new(alloc);
    for _ in 0..count {
        ids.add(id)?;
    }
    Ok(ids)
}

/// The size of a tree with this many variables of its own, of which each counts one. The table may have types more then.
fn read_size(
    alloc: Global,
    t: &mut TypeTable,
    count: usize,
    tree: &TypeTree,
) -> Result<u32, NoMemory>
    ensures counted { IfOk result (λ counted. counted ≡ capped (size (seen (state t.old).stands tree.now))) }
    ensures ids { KeepsTypes t.old t.new }
{
    let filler = int_type(alloc, t)?;
    let args = repeated(alloc, filler, count)?;
    let body = tree.copy(alloc)?;
    let id = t.apply(&TypeFn { arity: 0, body }, &args)?;
    let counted = t.tree_size(id)?;
    Ok(counted)
}

/// The same, and the table is as it was.
fn size_of(alloc: Global, t: &mut TypeTable, count: usize, tree: &TypeTree) -> Result<u32, NoMemory>
    ensures counted { IfOk result (λ counted. counted ≡ capped (size (seen (state t.old).stands tree.now))) }
    ensures same { t.new ≡ t.old }
{
    let before = t.mark();
    let counted = read_size(alloc, t, count, tree);
    t.undo(&before);
    counted
}

/// Whether a tree with this many variables of its own has more than 65,536 nodes, where what stands for variables of the
/// table is put in. A tree with more variables of its own is refused as want of memory is. It takes as many steps as the
/// tree has nodes in its list, and at most as many more as the limit.
pub(crate) fn is_large(
    alloc: Global,
    t: &mut TypeTable,
    count: usize,
    tree: &TypeTree,
) -> Result<bool, NoMemory>
    ensures large { IfOk result (λ large. large ≡ is_too_large (seen (state t.old).stands tree.now)) }
    ensures same { t.new ≡ t.old }
{
    let counted = size_of(alloc, t, count, tree)?;
    Ok(counted > 65_536)
}

/// Whether a type of a type structure is too large: that of its type function or one of its constructors.
pub(crate) fn is_large_type(
    alloc: Global,
    t: &mut TypeTable,
    entry: &TypeStr,
) -> Result<bool, NoMemory>
    ensures large { IfOk result (λ large. large ≡ large_type (state t.old).stands entry.now) }
    ensures same { t.new ≡ t.old }
{
    let large = is_large(
        alloc,
        t,
        entry.function.arity as usize,
        &entry.function.body,
    )?;
    if large {
        return Ok(true);
    }
    for con in entry.cons.as_slice() {
        let large = is_large(alloc, t, con.scheme.marks().len(), con.scheme.body())?;
        if large {
            return Ok(true);
        }
    }
    Ok(false)
}
