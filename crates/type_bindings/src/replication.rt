//! The replication of a datatype.

ghost use Rattle.std.specs.Prelude.{◌≡◌, [], IfOk};
ghost use Rattle.semantic_objects.specs.declared.entry.ValueEntry.{ValueEntry};
ghost use Rattle.type_nodes.specs.Tables.{Table};
ghost use Rattle.static_semantics.specs.DatatypeInference.{infer_replication};
ghost use Rattle.core_scopes.specs.Scopes.{IsScopeOf};
ghost use Rattle.core_scopes.specs.Listed.{scope_rows};
ghost use Rattle.core_scopes.specs.Marks.{env_of_made};
ghost use Rattle.type_phrases.specs.Inferred.{Answers, scope_in};
ghost use Rattle.type_bindings.specs.Replicas.{con_rows, IsReplica};

use cm_base::{Fault, List, NoMemory, Text};
use core_scopes::{Made, NamedInScope, Scope, ValueInScope};
use env_parts::copy_type;
use semantic_objects::{ConEntry, TypeStr, ValueEntry, VidStatus};
use sml_modules::{EnvGraph, NamedType};
use sml_trees::{LongName, Name};
use std::alloc::Global;
use type_phrases::unknown;

/// Constructors as values.
fn con_values<V: Copy + Drop>(
    alloc: Global,
    cons: List<ConEntry>,
) -> Result<List<NamedInScope<V>>, NoMemory>
    ensures { IfOk result (λ values. scope_rows values ≡ con_rows cons) }
{
    let mut values = List::new(alloc);
    for con in cons.into_vec() {
        let ConEntry { name, scheme } = con;
        let status = VidStatus::Constructor;
        values.add(NamedInScope {
            name,
            entry: ValueInScope::Entry(ValueEntry { status, scheme }),
        })?;
    }
    Ok(values)
}

/// A type structure under a name, and its constructors as values.
fn replica<V: Copy + Drop>(alloc: Global, name: Text, found: TypeStr) -> Result<Made<V>, NoMemory>
    ensures { IfOk result (IsReplica name found) }
{
    let TypeStr { cons, .. } = copy_type(alloc, &found)?;
    let values = con_values(alloc, cons)?;
    let mut types = List::new(alloc);
    types.add(NamedType { name, entry: found })?;
    Ok(Made {
        structures: List::new(alloc),
        types,
        values,
    })
}

/// What the replication of a datatype binds: the type structure that the copied name stands for, as it is, and its
/// constructors as values: 30 at a name that stands for no type. The Definition of Standard ML (Revised), rule 18.
pub fn replicate<V: Copy + Drop>(
    alloc: Global,
    g: &EnvGraph,
    scope: &Scope<V>,
    name: &Name,
    long: &LongName,
) -> Result<Made<V>, Fault>
    requires { IsScopeOf g.now scope.now }
    ensures infers { (t : Table) (read : V → ValueEntry)
        → Answers (infer_replication (scope_in g.now t read scope.now) name.now long.now) (env_of_made g.now read) result }
    ensures structures { IfOk result (λ made. made.structures ≡ []) }
{
    match scope.find_long_type(g, long.parts.as_slice())? {
        Some(found) => Ok(replica(alloc, name.text.copy()?, found)?),
        None => Err(unknown(alloc, g, long)),
    }
}
