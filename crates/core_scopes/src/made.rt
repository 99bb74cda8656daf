//! What was bound in a scope, as lists from which an environment is made, or which are bound in another scope.

ghost use Rattle.std.specs.Prelude.{◌≡◌, ◌++◌, length, take, drop, map, IfOk, OnOk, OnErr};
ghost use Rattle.semantic_objects.specs.Environments.{modified_by};
ghost use Rattle.sml_modules.specs.Items.{map_rows};
ghost use Rattle.sml_modules.specs.Graphs.{Graph, HasEnvs, type_rows};
ghost use Rattle.core_scopes.specs.Scopes.{Bindings, value_of, bare, seen, written_of};
ghost use Rattle.core_scopes.specs.Marks.{mark_of, env_of_bound, env_of_made, AddsBare, AddsBound, IsFrontOf, IsMadeSince, Becomes};
ghost use Rattle.core_scopes.specs.Listed.{bound_rows, env_rows, scope_rows, more_made};

use crate::mark::ScopeMark;
use crate::scope::Scope;
use crate::value::{BoundValue, NamedBound, ValueInScope};
use cm_base::{List, NoMemory, Text};
use env_parts::copy_type;
use name_trails::NameTrail;
use semantic_objects::TypeStr;
use sml_modules::{EnvId, NamedEnv, NamedType};
use std::alloc::Global;

/// A value in scope and its name.
#[derive(Drop)]
pub struct NamedInScope<V> {
    pub name: Text,
    pub entry: ValueInScope<V>,
}

/// Structures, type structures and values in the order in which they were bound.
#[derive(Drop)]
pub struct Made<V> {
    pub structures: List<NamedEnv>,
    pub types: List<NamedType>,
    pub values: List<NamedInScope<V>>,
}

/// The same, with what a table has of the values.
#[derive(Drop)]
pub struct MadeBound<V> {
    pub structures: List<NamedEnv>,
    pub types: List<NamedType>,
    pub values: List<NamedBound<V>>,
}

/// The rows from a place on.
fn rows_since<T>(rows: &[(Text, T)], start: usize) -> &[(Text, T)]
    ensures { result.now ≡ drop start rows.now }
{
    if start <= rows.len() {
        rows.split_at(start).1
    } else {
        &[]
    }
}

/// Structures with their names.
fn list_structures(alloc: Global, rows: &[(Text, EnvId)]) -> Result<List<NamedEnv>, NoMemory>
    ensures { IfOk result (λ list. env_rows list ≡ rows.now) }
{
    let mut list = List::new(alloc);
    for row in rows {
        list.add(NamedEnv {
            name: row.0.copy()?,
            env: row.1,
        })?;
    }
    Ok(list)
}

/// Type structures with their names.
fn list_types(alloc: Global, rows: &[(Text, TypeStr)]) -> Result<List<NamedType>, NoMemory>
    ensures { IfOk result (λ list. type_rows list ≡ rows.now) }
{
    let mut list = List::new(alloc);
    for row in rows {
        list.add(NamedType {
            name: row.0.copy()?,
            entry: copy_type(alloc, &row.1)?,
        })?;
    }
    Ok(list)
}

/// Values with their names.
fn list_values<V: Copy + Drop>(
    alloc: Global,
    rows: &[(Text, BoundValue<V>)],
) -> Result<List<NamedInScope<V>>, NoMemory>
    ensures { IfOk result (λ list. scope_rows list ≡ map_rows value_of rows.now) }
{
    let mut list = List::new(alloc);
    for row in rows {
        list.add(NamedInScope {
            name: row.0.copy()?,
            entry: row.1.value.copy(alloc)?,
        })?;
    }
    Ok(list)
}

/// Binds structures in their order. After want of memory some of them may be bound.
fn bind_structures(trail: &mut NameTrail<EnvId>, entries: List<NamedEnv>) -> Result<(), NoMemory>
    ensures ok { OnOk result (trail.new ≡ trail.old ++ env_rows entries) }
    ensures kept { take (length trail.old) trail.new ≡ trail.old }
{
    for entry in entries.into_vec() {
        let NamedEnv { name, env } = entry;
        trail.bind(name, env)?;
    }
    Ok(())
}

/// Binds type structures in their order. After want of memory some of them may be bound.
fn bind_types(trail: &mut NameTrail<TypeStr>, entries: List<NamedType>) -> Result<(), NoMemory>
    ensures ok { OnOk result (trail.new ≡ trail.old ++ type_rows entries) }
    ensures kept { take (length trail.old) trail.new ≡ trail.old }
{
    for named in entries.into_vec() {
        let NamedType { name, entry } = named;
        trail.bind(name, entry)?;
    }
    Ok(())
}

/// Binds values in their order. After want of memory some of them may be bound.
fn bind_values<V: Drop>(
    trail: &mut NameTrail<BoundValue<V>>,
    entries: List<NamedBound<V>>,
) -> Result<(), NoMemory>
    ensures ok { OnOk result (trail.new ≡ trail.old ++ bound_rows entries) }
    ensures kept { take (length trail.old) trail.new ≡ trail.old }
{
    for named in entries.into_vec() {
        let NamedBound { name, bound } = named;
        trail.bind(name, bound)?;
    }
    Ok(())
}

/// Values of which a table has nothing.
fn bare_values<V: Drop>(
    alloc: Global,
    entries: List<NamedInScope<V>>,
) -> Result<List<NamedBound<V>>, NoMemory>
    ensures { IfOk result (λ list. bound_rows list ≡ map_rows bare (scope_rows entries)) }
{
    let mut list = List::new(alloc);
    for named in entries.into_vec() {
        let NamedInScope { name, entry } = named;
        let bound = BoundValue {
            value: entry,
            scheme: None,
        };
        list.add(NamedBound { name, bound })?;
    }
    Ok(list)
}

impl<V: Copy + Drop> Scope<V> {
    /// What was bound since a mark, in as many steps as there were bindings. Of two of one name the later counts.
    pub fn made_since(&self, since: ScopeMark) -> Result<Made<V>, NoMemory>
        ensures { IfOk result (λ made. (past : Bindings V) → since ≡ mark_of past → IsFrontOf past self.now
            → IsMadeSince past self.now made) }
    {
        let structures = rows_since(self.structures.rows(), since.structures);
        let types = rows_since(self.types.rows(), since.types);
        let values = rows_since(self.values.rows(), since.values);
        Ok(Made {
            structures: list_structures(self.alloc, structures)?,
            types: list_types(self.alloc, types)?,
            values: list_values(self.alloc, values)?,
        })
    }

    /// Binds all of some lists. After want of memory some of it may be bound.
    fn bind_lists(&mut self, made: MadeBound<V>) -> Result<(), NoMemory>
        ensures ok { OnOk result (self.new ≡ more_made made self.old) }
        ensures kept { IsFrontOf self.old self.new }
    {
        let MadeBound {
            structures,
            types,
            values,
        } = made;
        bind_structures(&mut self.structures, structures)?;
        bind_types(&mut self.types, types)?;
        bind_values(&mut self.values, values)
    }

    /// Binds what was made and what a table has of it, in as many steps as there are entries. Want of memory leaves the
    /// scope as it was.
    pub fn bind_entered(&mut self, made: MadeBound<V>) -> Result<(), NoMemory>
        ensures ok { OnOk result ((g : Graph) → HasEnvs g made.structures → Becomes g self.old self.new
            (λ read. modified_by (seen g read self.old) (env_of_bound g read made)) (written_of self.old)) }
        ensures bound { OnOk result (AddsBound (bound_rows made.values) self.old self.new) }
        ensures err { OnErr result (self.new ≡ self.old) }
    {
        let before = self.mark();
        match self.bind_lists(made) {
            Ok(()) => Ok(()),
            Err(NoMemory) => {
                self.leave(before);
                Err(NoMemory)
            }
        }
    }

    /// Binds what was made, in as many steps as there are entries: what a `local` shows, once what it hides is taken
    /// back. Want of memory leaves the scope as it was.
    pub fn bind_made(&mut self, made: Made<V>) -> Result<(), NoMemory>
        ensures ok { OnOk result ((g : Graph) → HasEnvs g made.structures → Becomes g self.old self.new
            (λ read. modified_by (seen g read self.old) (env_of_made g read made)) (written_of self.old)) }
        ensures bare { OnOk result (AddsBare self.old self.new) }
        ensures err { OnErr result (self.new ≡ self.old) }
    {
        let Made {
            structures,
            types,
            values,
        } = made;
        let values = bare_values(self.alloc, values)?;
        self.bind_entered(MadeBound {
            structures,
            types,
            values,
        })?;
        Ok(())
    }
}
