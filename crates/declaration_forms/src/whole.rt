//! The environment of what a whole declaration made.

ghost use Rattle.std.specs.Prelude.{◌≡◌, IfOk, OnErr};
ghost use Rattle.sml_modules.specs.Graphs.{GivesEnv, HasEnvs, value_rows};
ghost use Rattle.core_scopes.specs.Marks.{env_of_made, value_rows as rows_read};
ghost use Rattle.pattern_elab.specs.Scopes.{own_entry};

use cm_base::{List, NoMemory};
use core_scopes::{Made, NamedInScope, ValueInScope};
use pattern_elab::OwnVariable;
use sml_modules::{EnvGraph, EnvId, NamedValue};
use std::alloc::Global;

/// Values in scope as entries of an environment. A declaration makes no variable whose type is open, so one is answered
/// as want of memory is.
fn values_of(
    alloc: Global,
    entries: List<NamedInScope<OwnVariable>>,
) -> Result<List<NamedValue>, NoMemory>
    ensures { IfOk result (λ values. value_rows values ≡ rows_read own_entry entries) }
{
    let mut values = List::new(alloc);
    for named in entries.into_vec() {
        let NamedInScope { name, entry } = named;
        match entry {
            ValueInScope::Entry(entry) => values.add(NamedValue { name, entry })?,
            ValueInScope::Own(_) => return Err(NoMemory),
        }
    }
    Ok(values)
}

/// The environment of what a declaration made, made at once. Want of memory leaves the graph as it was.
pub fn make_declared(
    alloc: Global,
    g: &mut EnvGraph,
    made: Made<OwnVariable>,
) -> Result<EnvId, NoMemory>
    requires { HasEnvs g.old made.structures }
    ensures ok { IfOk result (GivesEnv g.old g.new (env_of_made g.old own_entry made)) }
    ensures err { OnErr result (g.new ≡ g.old) }
{
    let Made {
        structures,
        types,
        values,
    } = made;
    let entries = values_of(alloc, values)?;
    g.make_env(&structures, types, entries)
}
