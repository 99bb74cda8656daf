//! Structures and functors by their names in the source.

ghost use Rattle.std.specs.Prelude.{◌≡◌, IfOk};
ghost use Rattle.semantic_objects.specs.Tables.{entry};
ghost use Rattle.semantic_objects.specs.Environments.{structures};
ghost use Rattle.sml_modules.specs.Graphs.{env_at, functor_at, HasEnv, HasFunctor};
ghost use Rattle.static_semantics.specs.Inferring.{Scope, known, found_at};
ghost use Rattle.module_semantics.specs.SignatureInference.{single};
ghost use Rattle.core_scopes.specs.Scopes.{IsScopeOf};
ghost use Rattle.type_phrases.specs.Inferred.{Answers};
ghost use Rattle.pattern_elab.specs.Scopes.{scope_of};
ghost use Rattle.module_scopes.specs.Tops.{top_seen, IsTopScope};

use crate::top::TopScope;
use cm_base::Fault;
use pattern_elab::CoreScope;
use sml_modules::{EnvGraph, EnvId, FunId};
use sml_trees::{LongName, Name};
use std::alloc::Global;
use type_phrases::{unknown, unknown_name};

/// The structure that a long name stands for: 30 at it where it stands for none.
/// The Definition of Standard ML (Revised), rule 51.
pub fn named_structure(
    alloc: Global,
    g: &EnvGraph,
    scope: &CoreScope,
    long: &LongName,
) -> Result<EnvId, Fault>
    requires { IsScopeOf g.now scope.now }
    ensures answers { (inner : Scope) → inner.home ≡ g.now.home → Answers
        (known inner long.now (found_at structures long.now.parts (scope_of g.now scope.now).env)) (env_at g.now)
        result }
    ensures there { IfOk result (HasEnv g.now) }
{
    match scope.find_long_structure(g, long.parts.as_slice())? {
        Some(env) => Ok(env),
        None => Err(unknown(alloc, g, long)),
    }
}

/// The functor that a name stands for: 30 at it where it stands for none.
/// The Definition of Standard ML (Revised), rule 54.
pub fn named_functor(
    alloc: Global,
    g: &EnvGraph,
    top: &TopScope,
    name: &Name,
) -> Result<FunId, Fault>
    requires { IsTopScope g.now top.now }
    ensures answers { (inner : Scope) → inner.home ≡ g.now.home → Answers
        (known inner (single name.now) (entry name.now.text (top_seen g.now top.now).functors)) (functor_at g.now)
        result }
    ensures there { IfOk result (HasFunctor g.now) }
{
    match top.find_functor(g, &name.text)? {
        Some(fun) => Ok(fun),
        None => Err(unknown_name(alloc, g, name)),
    }
}
