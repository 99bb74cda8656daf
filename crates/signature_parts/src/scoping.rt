//! What is specified so far, in scope.

ghost use Rattle.std.specs.Prelude.{◌≡◌, drop, IfOk, OnOk, OnErr};
ghost use Rattle.semantic_objects.specs.declared.entry.ValueEntry.{ValueEntry};
ghost use Rattle.sml_modules.specs.Graphs.{Graph, type_rows};
ghost use Rattle.core_scopes.specs.Scopes.{AreEnvs, IsScopeOf};
ghost use Rattle.core_scopes.specs.Listed.{env_rows};
ghost use Rattle.core_scopes.specs.Marks.{value_rows};
ghost use Rattle.signature_specs.specs.declared.specified.Specified.{Specified as SoFar};
ghost use Rattle.signature_specs.specs.Specs.{IsFrontOf};
ghost use Rattle.signature_parts.specs.Steps.{mark_of, IsMadeSince};
ghost use Rattle.signature_parts.specs.Growing.{IsBound};

use crate::marks::SpecifiedMark;
use cm_base::{List, NoMemory, Text};
use core_scopes::{Made, NamedInScope, Scope, ValueInScope};
use env_parts::{copy_type, copy_value};
use semantic_objects::{TypeStr, ValueEntry};
use signature_specs::Specified;
use sml_modules::{EnvId, NamedEnv, NamedType};
use std::alloc::Global;

/// The rows from a place on.
fn rows_since<T>(rows: &[(Text, T)], start: usize) -> &[(Text, T)]
    ensures { result.now ≡ drop start rows.now }
{
    if start <= rows.len() {
        rows.split_at(start).1
    } else {
        &[]
    }
}

/// Structures with their names.
pub(crate) fn list_structures(
    alloc: Global,
    rows: &[(Text, EnvId)],
) -> Result<List<NamedEnv>, NoMemory>
    ensures { IfOk result (λ list. env_rows list ≡ rows.now) }
{
    let mut list = List::new(alloc);
    for row in rows {
        list.add(NamedEnv {
            name: row.0.copy()?,
            env: row.1,
        })?;
    }
    Ok(list)
}

/// Type structures with their names.
pub(crate) fn list_types(
    alloc: Global,
    rows: &[(Text, TypeStr)],
) -> Result<List<NamedType>, NoMemory>
    ensures { IfOk result (λ list. type_rows list ≡ rows.now) }
{
    let mut list = List::new(alloc);
    for row in rows {
        list.add(NamedType {
            name: row.0.copy()?,
            entry: copy_type(alloc, &row.1)?,
        })?;
    }
    Ok(list)
}

/// Values with their names, as values in scope.
fn list_values<V: Copy + Drop>(
    alloc: Global,
    rows: &[(Text, ValueEntry)],
) -> Result<List<NamedInScope<V>>, NoMemory>
    ensures { IfOk result (λ list. (read : V → ValueEntry) → value_rows read list ≡ rows.now) }
{
    let mut list = List::new(alloc);
    for row in rows {
        list.add(NamedInScope {
            name: row.0.copy()?,
            entry: ValueInScope::Entry(copy_value(alloc, &row.1)?),
        })?;
    }
    Ok(list)
}

/// What was specified since a mark.
fn made_since<V: Copy + Drop>(
    alloc: Global,
    made: &Specified,
    since: SpecifiedMark,
) -> Result<Made<V>, NoMemory>
    ensures { IfOk result (IsMadeSince since made.now) }
{
    let structures = rows_since(made.structures.rows(), since.structures);
    let types = rows_since(made.types.rows(), since.types);
    let values = rows_since(made.values.rows(), since.values);
    Ok(Made {
        structures: list_structures(alloc, structures)?,
        types: list_types(alloc, types)?,
        values: list_values(alloc, values)?,
    })
}

/// Binds in a scope what was specified since a mark, in as many steps as there are entries: where the scope had what was
/// specified before over an environment, it has all that is specified over it. Want of memory leaves the scope as it
/// was. The Definition of Standard ML (Revised), rule 77.
pub fn bind_since<V: Copy + Drop>(
    alloc: Global,
    scope: &mut Scope<V>,
    made: &Specified,
    since: SpecifiedMark,
) -> Result<(), NoMemory>
    ensures ok { OnOk result ((g : Graph) (past : SoFar) → since ≡ mark_of past → IsFrontOf past made.now
        → AreEnvs g made.now.structures → IsScopeOf g scope.old → IsBound g g past made.now scope.old scope.new) }
    ensures err { OnErr result (scope.new ≡ scope.old) }
{
    let part = made_since(alloc, made, since)?;
    scope.bind_made(part)?;
    scope.mark();
    Ok(())
}
