//! What a declaration of datatypes binds.

ghost use Rattle.std.specs.Prelude.{◌≡◌, ◌++◌, [], length, map, IfOk, OnOk};
ghost use Rattle.semantic_objects.specs.declared.entry.ValueEntry.{ValueEntry};
ghost use Rattle.semantic_objects.specs.Environments.{empty_env};
ghost use Rattle.type_nodes.specs.Tables.{Table};
ghost use Rattle.sml_modules.specs.Graphs.{Graph};
ghost use Rattle.static_semantics.specs.DatatypeInference.{made_types};
ghost use Rattle.core_scopes.specs.Listed.{scope_rows};
ghost use Rattle.core_scopes.specs.Marks.{env_of_made};
ghost use Rattle.datatype_elab.specs.Listing.{dat_of, AreDats};
ghost use Rattle.datatype_elab.specs.Binding.{con_values, AddsType, AllBound};

use crate::dats::DatRead;
use crate::making::make_type;
use crate::needs::NewNames;
use cm_base::{List, NoMemory, Text};
use core_scopes::{Made, NamedInScope, ValueInScope};
use env_parts::copy_type;
use semantic_objects::{ConEntry, TypeStr, ValueEntry, VidStatus};
use sml_modules::{EnvGraph, NamedType};
use std::alloc::Global;

/// Adds constructors as values.
fn add_values<V: Copy + Drop>(
    cons: List<ConEntry>,
    values: &mut List<NamedInScope<V>>,
) -> Result<(), NoMemory>
    ensures { OnOk result (scope_rows values.new ≡ scope_rows values.old ++ con_values cons) }
{
    for con in cons.into_vec() {
        let ConEntry { name, scheme } = con;
        let status = VidStatus::Constructor;
        values.add(NamedInScope {
            name,
            entry: ValueInScope::Entry(ValueEntry { status, scheme }),
        })?;
    }
    Ok(())
}

/// Adds a type structure under a name, and its constructors as values.
fn add_type<V: Copy + Drop>(
    alloc: Global,
    name: Text,
    entry: TypeStr,
    made: Made<V>,
) -> Result<Made<V>, NoMemory>
    ensures { IfOk result (AddsType made name entry) }
{
    let TypeStr { cons, .. } = copy_type(alloc, &entry)?;
    let Made {
        structures,
        mut types,
        mut values,
    } = made;
    add_values(cons, &mut values)?;
    types.add(NamedType { name, entry })?;
    Ok(Made {
        structures,
        types,
        values,
    })
}

/// All datatypes of a declaration, whose names have numbers from a first one on.
pub(crate) fn make_all<V: Copy + Drop>(
    alloc: Global,
    g: &EnvGraph,
    new: &NewNames,
    choice: &List<bool>,
    dats: &[DatRead],
) -> Result<Made<V>, NoMemory>
    requires home { new.now.home ≡ g.now.home }
    requires counted { new.now.count ≡ length choice.now }
    requires bound { AllBound dats.now }
    ensures made { IfOk result (λ made. (h : Graph) (read : V → ValueEntry) (t : Table) → AreDats t dats.now
        → env_of_made h read made
        ≡ made_types new.now.home new.now.first choice.now new.now.first (map (dat_of t) dats.now) empty_env) }
    ensures structures { IfOk result (λ made. made.structures ≡ []) }
{
    let mut made = Made {
        structures: List::new(alloc),
        types: List::new(alloc),
        values: List::new(alloc),
    };
    for at in 0..dats.len() {
        let dat = &dats[at];
        let entry = make_type(alloc, g, new, choice, at, dat)?;
        let name = dat.name.copy()?;
        made = add_type(alloc, name, entry, made)?;
    }
    Ok(made)
}
