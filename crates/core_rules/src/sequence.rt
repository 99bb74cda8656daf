//! What declarations make, one after another.

ghost use Rattle.std.specs.Prelude.{◌≡◌, ◌++◌, IsTrue, OnOk, OnErr};
ghost use Rattle.sml_modules.specs.Graphs.{Graph, HasEnvs};
ghost use Rattle.type_nodes.specs.Tables.{state};
ghost use Rattle.core_scopes.specs.Marks.{env_of_made};
ghost use Rattle.type_phrases.specs.Inferred.{KeepsTypes};
ghost use Rattle.pattern_elab.specs.Scopes.{own_entry};
ghost use Rattle.value_closing.specs.Under.{BindsGiven, IsUnder};
ghost use Rattle.core_rules.specs.Joined.{IsNothing, joined, made_where};

use cm_base::{Fault, List, NoMemory};
use core_scopes::{Made, NamedInScope};
use env_parts::copy_type;
use pattern_elab::{CoreScope, OwnVariable};
use sml_modules::{NamedEnv, NamedType};
use sml_types::TypeTable;
use std::alloc::Global;
use value_closing::enter_made;

/// What is made before the first declaration.
pub fn nothing_made(alloc: Global) -> Made<OwnVariable>
    ensures { IsNothing result }
{
    Made {
        structures: List::new(alloc),
        types: List::new(alloc),
        values: List::new(alloc),
    }
}

/// Adds copies of structures.
fn add_structures(all: &mut List<NamedEnv>, more: &[NamedEnv]) -> Result<(), NoMemory>
    ensures { OnOk result (all.new ≡ all.old ++ more.now) }
{
    for row in more {
        all.add(NamedEnv {
            name: row.name.copy()?,
            env: row.env,
        })?;
    }
    Ok(())
}

/// Adds copies of types.
fn add_types(alloc: Global, all: &mut List<NamedType>, more: &[NamedType]) -> Result<(), NoMemory>
    ensures { OnOk result (all.new ≡ all.old ++ more.now) }
{
    for row in more {
        all.add(NamedType {
            name: row.name.copy()?,
            entry: copy_type(alloc, &row.entry)?,
        })?;
    }
    Ok(())
}

/// Adds copies of values.
fn add_values(
    alloc: Global,
    all: &mut List<NamedInScope<OwnVariable>>,
    more: &[NamedInScope<OwnVariable>],
) -> Result<(), NoMemory>
    ensures { OnOk result (all.new ≡ all.old ++ more.now) }
{
    for row in more {
        all.add(NamedInScope {
            name: row.name.copy()?,
            entry: row.entry.copy(alloc)?,
        })?;
    }
    Ok(())
}

/// Adds a copy of what a declaration makes to what those before it make. After want of memory some of it may be added.
pub fn add_made(
    alloc: Global,
    all: &mut Made<OwnVariable>,
    made: &Made<OwnVariable>,
) -> Result<(), NoMemory>
    ensures { OnOk result (all.new ≡ joined all.old made.now) }
{
    add_structures(&mut all.structures, made.structures.as_slice())?;
    add_types(alloc, &mut all.types, made.types.as_slice())?;
    add_values(alloc, &mut all.values, made.values.as_slice())
}

/// Enters what a declaration makes into the scope in which the next one stands, and adds it to what those before it make.
/// The schemes of its values go into the table where that is asked for. One in which a variable is free that the table
/// doesn't have is refused as want of memory is, and that leaves the scope as it was; what is added then may stay. The
/// Definition of Standard ML (Revised), rule 24.
pub fn enter_behind(
    alloc: Global,
    t: &mut TypeTable,
    scope: &mut CoreScope,
    all: &mut Made<OwnVariable>,
    made: Made<OwnVariable>,
    with_schemes: bool,
) -> Result<(), NoMemory>
    ensures all { OnOk result (all.new ≡ joined all.old made) }
    ensures scope { OnOk result ((g : Graph) → HasEnvs g made.structures
        → IsUnder g t.new (env_of_made g own_entry made) scope.old scope.new) }
    ensures given { IsTrue with_schemes → OnOk result (BindsGiven made.values scope.old scope.new) }
    ensures state { OnOk result (state t.new ≡ state t.old) }
    ensures kept { KeepsTypes t.old t.new }
    ensures err { OnErr result (scope.new ≡ scope.old) }
{
    add_made(alloc, all, &made)?;
    enter_made(alloc, t, scope, made, with_schemes)
}

/// All that declarations make, where none of them was refused.
pub fn made_where(
    outcome: Result<(), Fault>,
    all: Made<OwnVariable>,
) -> Result<Made<OwnVariable>, Fault>
    ensures { result ≡ made_where all outcome }
{
    match outcome {
        Ok(()) => Ok(all),
        Err(fault) => Err(fault),
    }
}
