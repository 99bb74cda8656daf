//! Whether every instance of one scheme is an instance of another: instances of both are made one, where all variables
//! but those of the first are rigid.

ghost use Rattle.std.specs.Prelude.{◌≡◌, ◌<◌, ◌≤◌, ◌↔◌, length, IsTrue, IfOk, OnOk};
ghost use Rattle.unification.specs.Generality.{IsOf};
ghost use Rattle.type_nodes.specs.Tables.{Has, IsEnd, IsFrontOf, state, whole};
ghost use Rattle.type_schemes.specs.Schemes.{HaveAll};
ghost use Rattle.sml_types.specs.Unifying.{Grown};
ghost use Rattle.sml_types.specs.Covering.{CoversIn, Follows, AreFrozen, Freezes, FreezesBelow, HasOwn, IsFrozen, IsDecided};

use crate::fault::TypeFault;
use crate::table::deepest;
use crate::unify::unify_below;
use cm_base::NoMemory;
use semantic_objects::{Scheme, TyId};
use std::alloc::Global;
use type_nodes::{Birth, TypeBindings};
use type_schemes::{instantiate, variables_in};

/// Puts a new rigid variable with the same mark in for a variable for which nothing stands, if that isn't rigid itself.
fn name_variable(table: &mut TypeBindings, variable: usize) -> Result<(), NoMemory>
    requires within { variable < length table.old.births }
    requires end { IsEnd table.old (TyId.Variable variable) }
    ensures freezes { OnOk result (Freezes (state table.old) (state table.new) variable) }
    ensures follows { Follows table.old table.new }
{
    table.is_kept();
    if table.birth(variable).rigid {
        return Ok(());
    }
    let marked = table.is_marked(variable);
    let name = table.add_variable(Birth {
        marked,
        rigid: true,
    })?;
    table.is_kept();
    Ok(table.bind(variable, name)?)
}

/// The same of any variable. One for which something stands is refused as want of memory is.
fn freeze(table: &mut TypeBindings, variable: usize) -> Result<(), NoMemory>
    requires { variable < length table.old.births }
    ensures freezes { OnOk result (Freezes (state table.old) (state table.new) variable) }
    ensures follows { Follows table.old table.new }
{
    match table.head(TyId::Variable(variable)) {
        TyId::Variable(at) => {
            if at == variable {
                name_variable(table, variable)
            } else {
                Err(NoMemory)
            }
        }
        TyId::Made(_) => Err(NoMemory),
    }
}

/// The same of a variable that is below `own`.
fn freeze_below(table: &mut TypeBindings, own: usize, variable: usize) -> Result<(), NoMemory>
    requires { own ≤ length table.old.births }
    ensures frozen { OnOk result (FreezesBelow own (state table.old) (state table.new) variable) }
    ensures follows { Follows table.old table.new }
{
    if variable < own {
        freeze(table, variable)
    } else {
        Ok(())
    }
}

/// Makes those of some variables rigid that are below `own`.
fn freeze_each(table: &mut TypeBindings, own: usize, variables: &[usize]) -> Result<(), NoMemory>
    requires within { own ≤ length table.old.births }
    requires own { HasOwn own (state table.old) }
    ensures frozen { OnOk result (
        AreFrozen own (state table.old) (state table.new) variables.now (length variables.now)
        ) }
    ensures follows { Follows table.old table.new }
{
    table.is_kept();
    for variable in variables {
        table.is_kept();
        freeze_below(table, own, *variable)?;
    }
    Ok(())
}

/// Makes all variables below `own` that stand in what some ids stand for rigid.
fn freeze_all(
    table: &mut TypeBindings,
    alloc: Global,
    own: usize,
    ids: &[TyId],
) -> Result<(), NoMemory>
    requires has { HaveAll table.old ids.now }
    requires within { own ≤ length table.old.births }
    requires own { HasOwn own (state table.old) }
    ensures frozen { OnOk result (IsFrozen own table.old ids.now table.new) }
    ensures follows { Follows table.old table.new }
{
    let variables = variables_in(table, alloc, ids)?;
    Ok(freeze_each(table, own, variables.as_slice())?)
}

/// Whether two types can be made one.
fn can_be_one(
    table: &mut TypeBindings,
    alloc: Global,
    left: TyId,
    right: TyId,
) -> Result<bool, NoMemory>
    requires left { Has table.old left }
    requires right { Has table.old right }
    ensures decided { IfOk result (IsDecided (whole table.old left) (whole table.old right) (state table.old)) }
    ensures grown { Grown table.old table.new }
{
    table.is_kept();
    match unify_below(table, alloc, left, right, deepest()) {
        Ok(()) => Ok(true),
        Err(TypeFault::Clash(_, _)) => Ok(false),
        Err(TypeFault::Circular(_, _)) => Ok(false),
        Err(TypeFault::NotEquality(_)) => Ok(false),
        Err(TypeFault::NoMemory) => Err(NoMemory),
    }
}

/// The same of two schemes, where what was made for it stays in the table.
fn compare(
    table: &mut TypeBindings,
    alloc: Global,
    general: &Scheme,
    special: &Scheme,
) -> Result<bool, NoMemory>
    requires general { IsOf (state table.old) general.now.body }
    requires special { IsOf (state table.old) special.now.body }
    ensures covers { IfOk result (λ covers. IsTrue covers ↔ CoversIn table.old general.now special.now) }
    ensures front { IsFrontOf table.old table.new }
{
    table.is_kept();
    let instance = instantiate(table, alloc, special)?;
    table.is_kept();
    let own = table.variables();
    let pattern = instantiate(table, alloc, general)?;
    table.is_kept();
    freeze_all(table, alloc, own, &[pattern, instance])?;
    table.is_kept();
    Ok(can_be_one(table, alloc, pattern, instance)?)
}

/// Whether every instance of the second scheme is one of the first, where variables that are free in them stand for
/// themselves alone.
pub(crate) fn covers(
    table: &mut TypeBindings,
    alloc: Global,
    general: &Scheme,
    special: &Scheme,
) -> Result<bool, NoMemory>
    requires general { IsOf (state table.old) general.now.body }
    requires special { IsOf (state table.old) special.now.body }
    ensures covers { IfOk result (λ covers. IsTrue covers ↔ CoversIn table.old general.now special.now) }
    ensures same { table.new ≡ table.old }
{
    let before = table.mark();
    let covers = compare(table, alloc, general, special);
    table.undo(&before);
    covers
}
