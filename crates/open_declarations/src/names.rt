//! The structures that are opened.

ghost use Rattle.std.specs.Prelude.{◌≡◌, IfOk};
ghost use Rattle.semantic_objects.specs.declared.entry.ValueEntry.{ValueEntry};
ghost use Rattle.semantic_objects.specs.Environments.{structures, empty_env};
ghost use Rattle.sml_modules.specs.Graphs.{env_at, HasEnv, HasEnvs};
ghost use Rattle.type_nodes.specs.Tables.{Table};
ghost use Rattle.static_semantics.specs.Inferring.{known, found_at};
ghost use Rattle.static_semantics.specs.CoreInference.{infer_open};
ghost use Rattle.core_scopes.specs.Scopes.{IsScopeOf};
ghost use Rattle.core_scopes.specs.Marks.{env_of_made};
ghost use Rattle.type_phrases.specs.Inferred.{Answers, scope_in};
ghost use Rattle.open_declarations.specs.Opened.{AllEnvs, opened_env, IsOpened};

use crate::entries::add_env;
use cm_base::{Fault, List, NoMemory};
use core_scopes::{Made, Scope};
use sml_modules::{EnvGraph, EnvId};
use sml_trees::LongName;
use std::alloc::Global;
use type_phrases::unknown;

/// The structure that a long name stands for: 30 at it where it stands for none.
fn found_env<V: Copy + Drop>(
    alloc: Global,
    g: &EnvGraph,
    scope: &Scope<V>,
    long: &LongName,
) -> Result<EnvId, Fault>
    requires { IsScopeOf g.now scope.now }
    ensures infers { (t : Table) (read : V → ValueEntry) → Answers
        (known (scope_in g.now t read scope.now) long.now
        (found_at structures long.now.parts (scope_in g.now t read scope.now).env)) (env_at g.now) result }
    ensures there { IfOk result (HasEnv g.now) }
{
    match scope.find_long_structure(g, long.parts.as_slice())? {
        Some(env) => Ok(env),
        None => Err(unknown(alloc, g, long)),
    }
}

/// The structures that long names stand for, all in the same scope.
fn found_envs<V: Copy + Drop>(
    alloc: Global,
    g: &EnvGraph,
    scope: &Scope<V>,
    longs: &[LongName],
) -> Result<List<EnvId>, Fault>
    requires { IsScopeOf g.now scope.now }
    ensures infers { (t : Table) (read : V → ValueEntry) → Answers
        (infer_open (scope_in g.now t read scope.now) longs.now empty_env) (opened_env g.now) result }
    ensures there { IfOk result (AllEnvs g.now) }
{
    let mut envs = List::new(alloc);
    for long in longs {
        let env = found_env(alloc, g, scope, long)?;
        envs.add(env)?;
    }
    Ok(envs)
}

/// All that environments have, one after the other.
fn entries_of<V: Copy + Drop>(
    alloc: Global,
    g: &EnvGraph,
    envs: &List<EnvId>,
) -> Result<Made<V>, NoMemory>
    requires { AllEnvs g.now envs.now }
    ensures { IfOk result (IsOpened g.now envs.now) }
{
    let mut made = Made {
        structures: List::new(alloc),
        types: List::new(alloc),
        values: List::new(alloc),
    };
    for env in envs.as_slice() {
        add_env(g, *env, &mut made)?;
    }
    Ok(made)
}

/// What an `open` declaration binds: all that the structures of some long names have, one after the other; 30 at the
/// first name that stands for no structure. Each name is looked up in the scope as it is. `bind_made` of the scope puts
/// it under what was opened. The Definition of Standard ML (Revised), rule 22.
pub fn elab_open<V: Copy + Drop>(
    alloc: Global,
    g: &EnvGraph,
    scope: &Scope<V>,
    longs: &[LongName],
) -> Result<Made<V>, Fault>
    requires { IsScopeOf g.now scope.now }
    ensures infers { (t : Table) (read : V → ValueEntry) → Answers
        (infer_open (scope_in g.now t read scope.now) longs.now empty_env) (env_of_made g.now read) result }
    ensures there { IfOk result (λ made. HasEnvs g.now made.structures) }
{
    let envs = found_envs(alloc, g, scope, longs)?;
    let made = entries_of(alloc, g, &envs)?;
    Ok(made)
}
