//! Types are closed over their variables.

ghost use Rattle.std.specs.Prelude.{◌≡◌, [], IfOk};
ghost use Rattle.semantic_objects.specs.Nodes.{AreTree, root};
ghost use Rattle.unification.specs.Closing.{closed_over, found_in, scheme_over};
ghost use Rattle.type_nodes.specs.Tables.{Has, IsFrontOf, state, whole};
ghost use Rattle.type_schemes.specs.Reaching.{IsReached};
ghost use Rattle.type_schemes.specs.Numbering.{AreNumbers, HasAllVariables, keeps};
ghost use Rattle.type_schemes.specs.Schemes.{HaveAll, closed_scheme, schemes_since, is_left, MayBeFirstOf};

use crate::flat::{flat_nodes, flat_place};
use crate::kept::Kept;
use crate::number::{Numbers, number};
use crate::reach::{Reached, reach, reach_one};
use crate::young::kept_since;
use cm_base::{List, NoMemory};
use semantic_objects::{Scheme, TyId, TypeNode, TypeTree};
use std::alloc::Global;
use type_nodes::{Mark, TypeBindings};

/// What an id stands for, as nodes of a tree in which these variables are closed.
fn closed_nodes(
    table: &TypeBindings,
    alloc: Global,
    reached: &Reached,
    numbers: &Numbers,
    ty: TyId,
) -> Result<List<TypeNode>, NoMemory>
    requires has { Has table.now ty }
    requires reached { IsReached table.now reached.now }
    requires numbers { AreNumbers numbers.now }
    ensures nodes { IfOk result AreTree }
    ensures root { IfOk result (λ nodes. root nodes ≡ closed_over numbers.now.variables (whole table.now ty)) }
{
    let flat = flat_nodes(table, alloc, reached, numbers)?;
    let place = flat_place(table, reached, numbers, ty, &flat)?;
    if flat.nodes.len() - place == 1 {
        Ok(flat.nodes)
    } else {
        Err(NoMemory)
    }
}

/// The scheme of what an id stands for, closed over these variables.
fn close(
    table: &TypeBindings,
    alloc: Global,
    reached: &Reached,
    numbers: &Numbers,
    ty: TyId,
) -> Result<Scheme, NoMemory>
    requires has { Has table.now ty }
    requires reached { IsReached table.now reached.now }
    requires numbers { AreNumbers numbers.now }
    requires variables { HasAllVariables table.now numbers.now.variables }
    ensures { IfOk result (λ scheme.
        scheme ≡ scheme_over numbers.now.variables (state table.now).marks (whole table.now ty)) }
{
    table.is_kept();
    let marks = numbers.marks(table, alloc)?;
    let body = TypeTree::from_nodes(closed_nodes(table, alloc, reached, numbers, ty)?);
    Ok(Scheme::make(marks, body)?)
}

/// The same, closed over all variables but those that are kept.
fn close_but(table: &TypeBindings, alloc: Global, kept: &Kept, ty: TyId) -> Result<Scheme, NoMemory>
    requires { Has table.now ty }
    ensures { IfOk result (λ scheme.
        scheme ≡ scheme_over (found_in (keeps kept.now) (whole table.now ty) []) (state table.now).marks (whole table.now ty)) }
{
    let mut reached = Reached::new(alloc);
    reach_one(table, alloc, ty, &mut reached)?;
    let numbers = number(alloc, &reached, kept)?;
    Ok(close(table, alloc, &reached, &numbers, ty)?)
}

/// The scheme of what an id stands for, closed over its variables but for those that stand in what an id of `kept`
/// stands for. They are numbered by first occurrence and have the marks that they have now; all others stay free.
/// Rigid variables are closed as others are. The Definition of Standard ML (Revised), section 4.8.
pub fn generalise(
    table: &TypeBindings,
    alloc: Global,
    ty: TyId,
    kept: &List<TyId>,
) -> Result<Scheme, NoMemory>
    requires has { Has table.now ty }
    requires kept { HaveAll table.now kept.now }
    ensures { IfOk result (λ scheme. scheme ≡ closed_scheme table.now kept.now ty) }
{
    let outer = reach(table, alloc, kept.as_slice())?;
    let staying = outer.into_kept();
    Ok(close_but(table, alloc, &staying, ty)?)
}

/// The schemes of what some ids stand for, as a declaration closes them that began at a mark: over the variables that
/// were made since and stand in nothing that stands for an older one. They are numbered by first occurrence in each and
/// have the marks that they have now; all others stay free. Rigid variables are closed as others are.
/// The Definition of Standard ML (Revised), section 4.8.
pub fn generalise_since(
    table: &TypeBindings,
    alloc: Global,
    tys: &List<TyId>,
    since: &Mark,
) -> Result<List<Scheme>, NoMemory>
    requires has { HaveAll table.now tys.now }
    requires front { IsFrontOf since.now table.now }
    ensures { IfOk result (λ schemes. schemes ≡ schemes_since table.now (state since.now).next tys.now) }
{
    let kept = kept_since(table, alloc, &[], since)?;
    let mut schemes = List::new(alloc);
    for ty in tys.as_slice() {
        schemes.add(close_but(table, alloc, &kept, *ty)?)?;
    }
    Ok(schemes)
}

/// The place of the first of some variables that such a declaration may not close, because it stays free or stands in
/// what an id of `unclosed` stands for, whose type isn't closed.
pub fn left_since(
    table: &TypeBindings,
    alloc: Global,
    own: &List<TyId>,
    unclosed: &List<TyId>,
    since: &Mark,
) -> Result<Option<usize>, NoMemory>
    requires unclosed { HaveAll table.now unclosed.now }
    requires front { IsFrontOf since.now table.now }
    ensures { IfOk result (MayBeFirstOf (is_left table.now (state since.now).next unclosed.now) own.now) }
{
    let kept = kept_since(table, alloc, unclosed.as_slice(), since)?;
    Ok(kept.first_of(own))
}
