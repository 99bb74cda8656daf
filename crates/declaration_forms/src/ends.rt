//! The ends of declarations and of `let`: the checks of what was made.

ghost use Rattle.std.specs.Prelude.{◌≡◌, IfOk};
ghost use Rattle.type_nodes.specs.Tables.{Has, type_of};
ghost use Rattle.sml_modules.specs.Graphs.{HasEnvs};
ghost use Rattle.static_semantics.specs.Inferring.{sized_dec};
ghost use Rattle.static_semantics.specs.CoreInference as inference;
ghost use Rattle.core_scopes.specs.Marks.{env_of_made};
ghost use Rattle.type_phrases.specs.Inferred.{Answers, home_scope, progress};
ghost use Rattle.pattern_elab.specs.Scopes.{own_entry};
ghost use Rattle.core_rules.specs.Rules.{IsRule};
ghost use Rattle.core_rules.specs.Expressions.{ends_sized};

use cm_base::Fault;
use core_scopes::Made;
use declaration_ends::{sized_made, within_let};
use pattern_elab::{OwnVariable, sized};
use semantic_objects::TyId;
use sml_modules::EnvGraph;
use sml_trees::At;
use sml_types::TypeTable;
use std::alloc::Global;

/// What a declaration made, where no type of it is too large: 38 at the declaration.
pub fn check_made(
    alloc: Global,
    g: &EnvGraph,
    t: &mut TypeTable,
    at: At,
    made: Made<OwnVariable>,
) -> Result<Made<OwnVariable>, Fault>
    requires { HasEnvs g.now made.structures }
    ensures answer { Answers
        (sized_dec (home_scope g.now) at (env_of_made g.now own_entry made, progress t.old g.now))
        (λ made. (env_of_made g.now own_entry made, progress t.old g.now)) result }
    ensures it { IfOk result (λ same. same ≡ made) }
    ensures same { t.new ≡ t.old }
{
    sized_made(alloc, g, t, at, &made)?;
    Ok(made)
}

/// The end of a `let`, whose declaration made the names of the unit from one number up to below another: 41 where one of
/// them stands in its type, then 38. The Definition of Standard ML (Revised), rule 4.
pub fn end_let(
    alloc: Global,
    g: &EnvGraph,
    t: &mut TypeTable,
    at: At,
    from: u64,
    to: u64,
    id: TyId,
) -> Result<TyId, Fault>
    requires { Has t.old id }
    ensures { IsRule g.now t.old t.new (λ sc. ends_sized sc at (inference.within_let sc at from to
        (type_of t.old id, progress t.old g.now))) result }
{
    let id = within_let(alloc, g, t, at, from, to, id)?;
    sized(alloc, g, t, at, id)
}
