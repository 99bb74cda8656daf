//! Entries that are looked for among others, and put behind others.

ghost use Rattle.std.specs.Prelude.{◌≡◌, ◌++◌, OnOk};
ghost use Rattle.std.specs.List.{list_any};
ghost use Rattle.std.specs.Option.{is_some};
ghost use Rattle.semantic_objects.specs.declared.entry.ValueEntry.{ValueEntry};
ghost use Rattle.sml_modules.specs.Graphs.{type_rows};
ghost use Rattle.name_trails.specs.Trails.{last_entry};
ghost use Rattle.core_scopes.specs.Listed.{env_rows};
ghost use Rattle.core_scopes.specs.Marks.{value_rows};
ghost use Rattle.sml_modules.specs.declared.parts.NamedEnv.{NamedEnv};
ghost use Rattle.sml_modules.specs.declared.parts.NamedType.{NamedType};
ghost use Rattle.core_scopes.specs.declared.made.NamedInScope.{NamedInScope};

use cm_base::{List, NoMemory, Text};
use core_scopes::{NamedInScope, ValueInScope};
use name_trails::NameTrail;
use semantic_objects::{TypeStr, ValueEntry};
use sml_modules::{EnvId, NamedEnv, NamedType};

/// Whether a name is bound.
fn is_bound<T>(rows: &NameTrail<T>, name: &Text) -> bool
    ensures { result ≡ is_some (last_entry rows.now name.now) }
{
    match rows.find(name) {
        Some(_) => true,
        None => false,
    }
}

/// Whether a structure of a list has a name that is bound.
pub(crate) fn any_structure(rows: &NameTrail<EnvId>, part: &[NamedEnv]) -> bool
    ensures { result ≡ list_any (λ (e : NamedEnv). is_some (last_entry rows.now e.name)) part.now }
{
    for entry in part {
        if is_bound(rows, &entry.name) {
            return true;
        }
    }
    false
}

/// Whether a type of a list has a name that is bound.
pub(crate) fn any_type(rows: &NameTrail<TypeStr>, part: &[NamedType]) -> bool
    ensures { result ≡ list_any (λ (e : NamedType). is_some (last_entry rows.now e.name)) part.now }
{
    for entry in part {
        if is_bound(rows, &entry.name) {
            return true;
        }
    }
    false
}

/// Whether a value of a list has a name that is bound.
pub(crate) fn any_value<V>(rows: &NameTrail<ValueEntry>, part: &[NamedInScope<V>]) -> bool
    ensures { result ≡ list_any (λ (e : NamedInScope V). is_some (last_entry rows.now e.name)) part.now }
{
    for entry in part {
        if is_bound(rows, &entry.name) {
            return true;
        }
    }
    false
}

/// Binds structures behind others, in their order.
pub(crate) fn add_structures(
    rows: &mut NameTrail<EnvId>,
    part: List<NamedEnv>,
) -> Result<(), NoMemory>
    ensures { OnOk result (rows.new ≡ rows.old ++ env_rows part) }
{
    for entry in part.into_vec() {
        let NamedEnv { name, env } = entry;
        rows.bind(name, env)?;
    }
    Ok(())
}

/// Binds type structures behind others, in their order.
pub(crate) fn add_types(
    rows: &mut NameTrail<TypeStr>,
    part: List<NamedType>,
) -> Result<(), NoMemory>
    ensures { OnOk result (rows.new ≡ rows.old ++ type_rows part) }
{
    for named in part.into_vec() {
        let NamedType { name, entry } = named;
        rows.bind(name, entry)?;
    }
    Ok(())
}

/// Binds values behind others, in their order. One of the unit's own, whose type isn't closed, is refused as want of
/// memory is.
pub(crate) fn add_values<V: Drop>(
    rows: &mut NameTrail<ValueEntry>,
    part: List<NamedInScope<V>>,
) -> Result<(), NoMemory>
    ensures { OnOk result ((read : V → ValueEntry) → rows.new ≡ rows.old ++ value_rows read part) }
{
    for named in part.into_vec() {
        let NamedInScope { name, entry } = named;
        match entry {
            ValueInScope::Entry(entry) => rows.bind(name, entry)?,
            ValueInScope::Own(_) => return Err(NoMemory),
        }
    }
    Ok(())
}
