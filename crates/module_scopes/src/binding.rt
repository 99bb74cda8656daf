//! Structures that declarations bind, and the parameters of functors, in scope.

ghost use Rattle.std.specs.Prelude.{◌≡◌, IfOk, OnOk, OnErr};
ghost use Rattle.semantic_objects.specs.Environments.{empty_env, with_structure};
ghost use Rattle.sml_modules.specs.Graphs.{Graph, env_at, HasEnv, HasEnvs};
ghost use Rattle.core_scopes.specs.Scopes.{AreEnvs};
ghost use Rattle.core_scopes.specs.Listed.{env_rows};
ghost use Rattle.core_scopes.specs.Marks.{env_of_made};
ghost use Rattle.pattern_elab.specs.Scopes.{own_entry};
ghost use Rattle.module_scopes.specs.Tops.{structures_env};
ghost use Rattle.module_scopes.specs.Stays.{GoesUnder};

use cm_base::{List, NoMemory, Text};
use core_scopes::Made;
use name_trails::NameTrail;
use pattern_elab::{CoreScope, OwnVariable};
use sml_modules::{EnvId, NamedEnv};
use std::alloc::Global;

/// Binds a structure behind those that a declaration binds before it. Want of memory leaves these as they were.
/// The Definition of Standard ML (Revised), rule 61.
pub fn bind_structure(made: &mut NameTrail<EnvId>, name: &Text, env: EnvId) -> Result<(), NoMemory>
    ensures ok { OnOk result ((g : Graph) → structures_env g made.new
        ≡ with_structure name.now (env_at g env) (structures_env g made.old)) }
    ensures there { OnOk result ((g : Graph) → HasEnv g env → AreEnvs g made.old → AreEnvs g made.new) }
    ensures err { OnErr result (made.new ≡ made.old) }
{
    let name = name.copy()?;
    made.bind(name, env)?;
    Ok(())
}

/// Structures with their names.
pub(crate) fn list_structures(
    alloc: Global,
    rows: &[(Text, EnvId)],
) -> Result<List<NamedEnv>, NoMemory>
    ensures { IfOk result (λ list. env_rows list ≡ rows.now) }
{
    let mut list = List::new(alloc);
    for row in rows {
        list.add(NamedEnv {
            name: row.0.copy()?,
            env: row.1,
        })?;
    }
    Ok(list)
}

/// What a declaration of structures makes. The Definition of Standard ML (Revised), rule 57.
pub fn made_of_structures(
    alloc: Global,
    made: &NameTrail<EnvId>,
) -> Result<Made<OwnVariable>, NoMemory>
    ensures is { IfOk result (λ all. (g : Graph) → env_of_made g own_entry all ≡ structures_env g made.now) }
    ensures there { IfOk result (λ all. (g : Graph) → AreEnvs g made.now → HasEnvs g all.structures) }
{
    Ok(Made {
        structures: list_structures(alloc, made.rows())?,
        types: List::new(alloc),
        values: List::new(alloc),
    })
}

/// Enters the structures that a declaration makes. Want of memory leaves the scope as it was.
/// The Definition of Standard ML (Revised), rules 57 and 60.
pub fn enter_structures(
    alloc: Global,
    scope: &mut CoreScope,
    made: &NameTrail<EnvId>,
) -> Result<(), NoMemory>
    ensures ok { OnOk result ((g : Graph) → AreEnvs g made.now
        → GoesUnder g (structures_env g made.now) scope.old scope.new) }
    ensures err { OnErr result (scope.new ≡ scope.old) }
{
    let all = made_of_structures(alloc, made)?;
    scope.bind_made(all)
}

/// Enters a functor's parameter: a structure with the environment of its signature. Want of memory leaves the scope as
/// it was. The Definition of Standard ML (Revised), rule 86.
pub fn enter_parameter(scope: &mut CoreScope, name: &Text, env: EnvId) -> Result<(), NoMemory>
    ensures ok { OnOk result ((g : Graph) → HasEnv g env
        → GoesUnder g (with_structure name.now (env_at g env) empty_env) scope.old scope.new) }
    ensures err { OnErr result (scope.new ≡ scope.old) }
{
    let name = name.copy()?;
    scope.bind_structure(name, env)
}
