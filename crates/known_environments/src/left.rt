//! Variables that are left in what is bound at the top level.

ghost use Rattle.std.specs.Prelude.{◌≡◌, IfOk};
ghost use Rattle.sml_modules.specs.Graphs.{env_at, HasEnv};
ghost use Rattle.static_semantics.specs.Inferring.{Scope};
ghost use Rattle.type_phrases.specs.Inferred.{Answers, progress};
ghost use Rattle.unit_semantics.specs.UnitInference.{without_variables};
ghost use Rattle.known_environments.specs.Grows.{GrowsByNodes};

use crate::putting::known_env;
use cm_base::{Fault, List};
use sml_modules::{EnvGraph, EnvId};
use sml_trees::Name;
use sml_types::TypeTable;
use std::alloc::Global;
use type_phrases::{place_of, refusal};

/// What a binding at the top level makes, with what is known of variables put in for them: 42 at the binding's name where
/// a variable is left. Parts in which no variable stood when they were made aren't gone through, and keep their ids.
/// The table is as before. After a refusal the graph may have nodes more.
/// The Definition of Standard ML (Revised), rules 87 and 89.
pub fn without_variables(
    alloc: Global,
    g: &mut EnvGraph,
    t: &mut TypeTable,
    name: &Name,
    env: EnvId,
) -> Result<EnvId, Fault>
    requires { HasEnv g.old env }
    ensures answers { (inner : Scope) → inner.home ≡ g.old.home
        → Answers (without_variables inner name.now (env_at g.old env, progress t.old g.old))
        (λ made. (env_at g.new made, progress t.new g.new)) result }
    ensures there { IfOk result (HasEnv g.new) }
    ensures graph { GrowsByNodes g.old g.new }
    ensures table { t.new ≡ t.old }
{
    let known = known_env(g, t, env)?;
    let facts = g.facts(known);
    if facts.has_free {
        return Err(refusal(g, 42, place_of(name), List::new(alloc)));
    }
    Ok(known)
}
