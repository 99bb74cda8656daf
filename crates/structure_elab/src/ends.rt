//! The end of a declaration of structures.

ghost use Rattle.std.specs.Prelude.{◌≡◌, IfOk};
ghost use Rattle.sml_modules.specs.Graphs.{HasEnvs};
ghost use Rattle.static_semantics.specs.Inferring.{sized_dec};
ghost use Rattle.core_scopes.specs.Marks.{env_of_made};
ghost use Rattle.core_scopes.specs.Scopes.{AreEnvs};
ghost use Rattle.type_phrases.specs.Inferred.{Answers, home_scope, progress};
ghost use Rattle.pattern_elab.specs.Scopes.{own_entry};
ghost use Rattle.module_scopes.specs.Tops.{structures_env};

use cm_base::Fault;
use core_scopes::Made;
use declaration_forms::check_made;
use module_scopes::made_of_structures;
use name_trails::NameTrail;
use pattern_elab::OwnVariable;
use sml_modules::{EnvGraph, EnvId};
use sml_trees::At;
use sml_types::TypeTable;
use std::alloc::Global;

/// What a declaration of structures makes: 38 at it where a type in it is too large.
/// The Definition of Standard ML (Revised), rule 57.
pub(crate) fn end_structures(
    alloc: Global,
    g: &EnvGraph,
    t: &mut TypeTable,
    at: At,
    made: &NameTrail<EnvId>,
) -> Result<Made<OwnVariable>, Fault>
    requires { AreEnvs g.now made.now }
    ensures answer { Answers (sized_dec (home_scope g.now) at (structures_env g.now made.now, progress t.old g.now))
        (λ all. (env_of_made g.now own_entry all, progress t.old g.now)) result }
    ensures envs { IfOk result (λ all. HasEnvs g.now all.structures) }
    ensures same { t.new ≡ t.old }
{
    let all = made_of_structures(alloc, made)?;
    check_made(alloc, g, t, at, all)
}
