//! Type names that don't leave a `let`.

ghost use Rattle.std.specs.Prelude.{◌≡◌, ◌++◌, ◌∷◌, [], IfOk, OnOk};
ghost use Rattle.type_nodes.specs.Tables.{Has, whole, type_of};
ghost use Rattle.static_semantics.specs.DatatypeInference.{same_as_home};
ghost use Rattle.static_semantics.specs.CoreInference.{is_made_between, holds_made};
ghost use Rattle.static_semantics.specs.CoreInference.{within_let as not_left};
ghost use Rattle.semantic_objects.specs.declared.symbol.Symbol.TheVariants as symbol;
ghost use Rattle.sml_types.specs.Looking.{ids_of};
ghost use Rattle.type_phrases.specs.Inferred.{Answers, home_scope, progress};
ghost use Rattle.declaration_ends.specs.Leaving.{IsEntered, IsStepped};

use crate::passed::Passed;
use cm_base::{Fault, List, NoMemory, Text};
use pattern_elab::refuse;
use semantic_objects::{Owner, TyId, TyName};
use sml_modules::EnvGraph;
use sml_trees::At;
use sml_types::{Look, LookField, TypeTable};
use std::alloc::Global;

/// Whether a unit owns a type name.
fn is_own(home: &Text, owner: &Owner) -> bool
    ensures { result ≡ same_as_home home.now owner.now }
{
    match owner {
        Owner::Basis => false,
        Owner::Unit(unit) => unit.as_bytes() == home.as_bytes(),
        Owner::Bound => false,
    }
}

/// Whether a type name is one of the unit with a number from one up to below another.
fn is_between(home: &Text, from: u64, to: u64, name: &TyName) -> bool
    ensures { result ≡ is_made_between home.now from to (symbol.Name name.now) }
{
    let own = is_own(home, &name.owner);
    if !own {
        return false;
    }
    if name.number < from {
        return false;
    }
    name.number < to
}

/// Adds two ids behind others.
fn add_two(ids: &mut List<TyId>, first: TyId, second: TyId) -> Result<(), NoMemory>
    ensures { OnOk result (ids.new ≡ ids.old ++ first ∷ second ∷ []) }
{
    ids.add(first)?;
    ids.add(second)
}

/// Adds ids behind others.
fn add_all(ids: &mut List<TyId>, more: &List<TyId>) -> Result<(), NoMemory>
    ensures { OnOk result (ids.new ≡ ids.old ++ more.now) }
{
    for id in more.as_slice() {
        ids.add(*id)?;
    }
    Ok(())
}

/// Adds the ids of fields behind others.
fn add_fields(ids: &mut List<TyId>, fields: &List<LookField>) -> Result<(), NoMemory>
    ensures { OnOk result (ids.new ≡ ids.old ++ ids_of fields.now) }
{
    for field in fields.as_slice() {
        ids.add(field.part)?;
    }
    Ok(())
}

/// Looks at an id: whether such a name stands there. If not, its parts are to be looked at.
fn enter(
    t: &TypeTable,
    home: &Text,
    from: u64,
    to: u64,
    id: TyId,
    ids: &mut List<TyId>,
) -> Result<bool, NoMemory>
    requires { Has t.now id }
    ensures { IfOk result (IsEntered t.now home.now from to id ids.old ids.new) }
{
    match t.look(id)? {
        Look::Variable { .. } => Ok(false),
        Look::Arrow(argument, value) => {
            add_two(ids, argument, value)?;
            Ok(false)
        }
        Look::Record(fields) => {
            add_fields(ids, &fields)?;
            Ok(false)
        }
        Look::Named(name, args) => {
            if is_between(home, from, to, &name) {
                return Ok(true);
            }
            add_all(ids, &args)?;
            Ok(false)
        }
    }
}

/// Looks at an id if it wasn't looked at yet.
fn step(
    t: &TypeTable,
    home: &Text,
    from: u64,
    to: u64,
    id: TyId,
    passed: &mut Passed,
    ids: &mut List<TyId>,
) -> Result<bool, NoMemory>
    requires { Has t.now id }
    ensures { IfOk result (IsStepped t.now home.now from to id passed.old passed.new ids.old ids.new) }
{
    let added = passed.add(id)?;
    if added {
        enter(t, home, from, to, id, ids)
    } else {
        Ok(false)
    }
}

/// Whether a type name of the unit with a number from one up to below another stands in what an id stands for. Each id
/// is looked at once.
fn holds_name(
    alloc: Global,
    t: &TypeTable,
    home: &Text,
    from: u64,
    to: u64,
    id: TyId,
) -> Result<bool, NoMemory>
    requires { Has t.now id }
    ensures { IfOk result (λ holds. holds ≡ holds_made home.now from to (whole t.now id)) }
{
    let mut ids = List::new(alloc);
    ids.add(id)?;
    let mut passed = Passed::new(alloc);
    while let Some(next) = ids.pop() {
        let found = step(t, home, from, to, next, &mut passed, &mut ids)?;
        if found {
            return Ok(true);
        }
    }
    Ok(false)
}

/// The type of a `let` as it is known, where the names that the unit made from one number up to below another may not
/// stand in it: 41 at a place. Shared parts are gone through once. The Definition of Standard ML (Revised), rule 4.
pub fn within_let(
    alloc: Global,
    g: &EnvGraph,
    t: &TypeTable,
    at: At,
    from: u64,
    to: u64,
    id: TyId,
) -> Result<TyId, Fault>
    requires { Has t.now id }
    ensures answer { Answers
        (not_left (home_scope g.now) at from to (type_of t.now id, progress t.now g.now))
        (λ (same : TyId). (type_of t.now same, progress t.now g.now)) result }
    ensures same { IfOk result (λ same. same ≡ id) }
{
    let home = g.home()?;
    let held = holds_name(alloc, t, &home, from, to, id)?;
    if held {
        return Err(refuse(alloc, g, 41, at));
    }
    Ok(id)
}
