//! Values in scope: what names stand for, and their instances.

ghost use Rattle.std.specs.Prelude.{◌≡◌, IfOk, IfSome, OnErr};
ghost use Rattle.semantic_objects.specs.Tables.{entry};
ghost use Rattle.semantic_objects.specs.Environments.{values};
ghost use Rattle.unification.specs.Instances as schemes;
ghost use Rattle.type_nodes.specs.Tables.{Has, state, type_of};
ghost use Rattle.static_semantics.specs.Inferring as inferring;
ghost use Rattle.core_scopes.specs.Scopes.{entry_of, AreHeld, IsScopeOf};
ghost use Rattle.type_phrases.specs.Inferred.{Answers, KeepsTypes};
ghost use Rattle.pattern_elab.specs.Scopes.{own_entry, scope_of, IsEnteredIn, IsLastUnder, StandsFor};

use crate::own::{CoreScope, OwnVariable};
use cm_base::{Fault, NoMemory, Text};
use core_scopes::{BoundValue, ValueInScope};
use semantic_objects::{TyId, VidStatus};
use sml_modules::EnvGraph;
use sml_trees::LongName;
use sml_types::TypeTable;
use std::alloc::Global;
use type_phrases::unknown;

/// Whether this is the status of a constructor or of an exception.
fn is_con(status: VidStatus) -> bool
    ensures { result ≡ inferring.is_con status }
{
    match status {
        VidStatus::Variable => false,
        VidStatus::Constructor => true,
        VidStatus::Exception => true,
    }
}

/// Whether a value is a constructor or an exception.
pub(crate) fn has_con_status(value: &ValueInScope<OwnVariable>) -> bool
    ensures { result ≡ inferring.is_con (entry_of own_entry value.now).status }
{
    match value {
        ValueInScope::Entry(entry) => is_con(entry.status),
        ValueInScope::Own(_) => false,
    }
}

/// Whether a name stands for a constructor or an exception.
pub fn stands_for_con(g: &EnvGraph, scope: &CoreScope, name: &Text) -> Result<bool, NoMemory>
    requires { IsScopeOf g.now scope.now }
    ensures { IfOk result (λ con. con
        ≡ inferring.stands_for_con (entry name.now (values (scope_of g.now scope.now).env))) }
{
    match scope.find_value(g, name)? {
        Some(value) => Ok(has_con_status(&value)),
        None => Ok(false),
    }
}

/// The value of a long name: 30 at it where it stands for none.
pub fn known_value(
    alloc: Global,
    g: &EnvGraph,
    scope: &CoreScope,
    long: &LongName,
) -> Result<ValueInScope<OwnVariable>, Fault>
    requires { IsScopeOf g.now scope.now }
    ensures answer { Answers (inferring.known (scope_of g.now scope.now) long.now
        (inferring.found_at values long.now.parts (scope_of g.now scope.now).env)) (entry_of own_entry) result }
    ensures named { IfOk result (StandsFor scope.now long.now) }
{
    match scope.find_long_value(g, long.parts.as_slice())? {
        Some(value) => Ok(value),
        None => Err(unknown(alloc, g, long)),
    }
}

/// An instance of a value's scheme. A value of the unit whose variable the table doesn't have is refused as want of
/// memory is.
fn plain_instance(t: &mut TypeTable, value: &ValueInScope<OwnVariable>) -> Result<TyId, NoMemory>
    ensures made { IfOk result (λ id.
        type_of t.new id ≡ (schemes.instance (entry_of own_entry value.now).scheme (state t.old)).0) }
    ensures state { IfOk result (λ id.
        state t.new ≡ (schemes.instance (entry_of own_entry value.now).scheme (state t.old)).1) }
    ensures has { IfOk result (Has t.new) }
    ensures kept { KeepsTypes t.old t.new }
{
    match value {
        ValueInScope::Entry(entry) => Ok(t.instantiate(&entry.scheme)?),
        ValueInScope::Own(own) => {
            let id = TyId::Variable(own.number);
            if t.has(id) { Ok(id) } else { Err(NoMemory) }
        }
    }
}

/// The same of a value as it is bound: of what the table has of its scheme, if it has that.
fn bound_instance(t: &mut TypeTable, bound: &BoundValue<OwnVariable>) -> Result<TyId, NoMemory>
    requires { IsEnteredIn t.old bound.now }
    ensures made { IfOk result (λ id.
        type_of t.new id ≡ (schemes.instance (entry_of own_entry bound.now.value).scheme (state t.old)).0) }
    ensures state { IfOk result (λ id.
        state t.new ≡ (schemes.instance (entry_of own_entry bound.now.value).scheme (state t.old)).1) }
    ensures has { IfOk result (Has t.new) }
    ensures kept { KeepsTypes t.old t.new }
{
    match (&bound.value, &bound.scheme) {
        (ValueInScope::Entry(entry), Some(scheme)) => Ok(t.instance(&entry.scheme, scheme)?),
        _ => plain_instance(t, &bound.value),
    }
}

/// What a long name of one part was bound to over the environment.
fn bound_under<'a>(scope: &'a CoreScope, long: &LongName) -> Option<&'a BoundValue<OwnVariable>>
    ensures { IfSome result (λ bound. IsLastUnder scope.now long.now bound.now) }
{
    if long.parts.len() != 1 {
        return None;
    }
    match long.parts.get(0) {
        Some(name) => scope.bound_value(name),
        None => None,
    }
}

/// An instance of the scheme of a value, for which a long name stands in the scope. Of a value of which the table has
/// the scheme only the parts are copied in which a variable of the scheme stands. A value of the unit whose variable the
/// table doesn't have is refused as want of memory is. The Definition of Standard ML (Revised), section 4.5.
pub fn instance(
    t: &mut TypeTable,
    scope: &CoreScope,
    long: &LongName,
    value: &ValueInScope<OwnVariable>,
) -> Result<TyId, NoMemory>
    requires entered { AreHeld (IsEnteredIn t.old) scope.now.values }
    requires named { StandsFor scope.now long.now value.now }
    ensures made { IfOk result (λ id.
        type_of t.new id ≡ (schemes.instance (entry_of own_entry value.now).scheme (state t.old)).0) }
    ensures state { IfOk result (λ id.
        state t.new ≡ (schemes.instance (entry_of own_entry value.now).scheme (state t.old)).1) }
    ensures has { IfOk result (Has t.new) }
    ensures kept { KeepsTypes t.old t.new }
{
    match bound_under(scope, long) {
        Some(bound) => bound_instance(t, bound),
        None => plain_instance(t, value),
    }
}
