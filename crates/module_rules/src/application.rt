//! Functors that are applied.

ghost use Rattle.std.specs.Prelude.{◌≡◌, IfOk};
ghost use Rattle.realisation.specs.Realised.{realised};
ghost use Rattle.sml_modules.specs.Graphs.{env_at, functor_at, functor_of, HasEnv, HasFunctor, HasFunParts};
ghost use Rattle.type_nodes.specs.Tables.{state};
ghost use Rattle.type_walks.specs.Replaced.{rows_of};
ghost use Rattle.static_semantics.specs.Inferring.{Scope};
ghost use Rattle.static_semantics.specs.EnvironmentsPut.{put_env};
ghost use Rattle.module_semantics.specs.Matching.{matching};
ghost use Rattle.type_phrases.specs.Inferred.{Answers, progress};
ghost use Rattle.structure_matching.specs.Matches.{StaysGraph};
ghost use Rattle.unit_semantics.specs.StructureInference.{functor_applied, param_of};
ghost use Rattle.module_rules.specs.Results.{Grows};

use crate::place::place_of;
use crate::results::renewed_result;
use cm_base::Fault;
use env_parts::copy_names;
use environment_walks::Realisation;
use sml_modules::{EnvGraph, EnvId, FunId, FunParts, SigParts};
use sml_trees::At;
use sml_types::TypeTable;
use structure_matching::match_signature;

/// The realisation by which an environment, as it is known, matches a functor's parameter.
#[tactic(auto, using(crate::proofs::Growing::stays_none, crate::proofs::Growing::stays_same))]
fn match_parameter(
    g: &mut EnvGraph,
    t: &mut TypeTable,
    at: At,
    parts: &FunParts,
    env: EnvId,
) -> Result<Realisation, Fault>
    requires parts { HasFunParts g.old parts.now }
    requires env { HasEnv g.old env }
    ensures answers { (inner : Scope) → inner.home ≡ g.old.home
        → Answers (matching inner at (state t.old) (put_env (state t.old).stands (env_at g.old env))
        (param_of (functor_of g.old parts.now))) (λ by. rows_of by.list) result }
    ensures graph { StaysGraph g.old g.new }
    ensures table { t.new ≡ t.old }
{
    let place = place_of(g, at)?;
    let bound = copy_names(g.alloc(), &parts.bound)?;
    let param = g.make_sig(&SigParts {
        bound,
        env: parts.param,
    })?;
    let matched = match_signature(g, t, &place, env, param)?;
    Ok(matched.by)
}

/// What a functor is for an argument, which matches its parameter as it is known, at a place: the functor's result,
/// realised by the argument's type functions, with new names of the unit for its further names in their order. The body
/// isn't elaborated again. It is refused as matching is. The table is as before. After want of memory names may have been
/// made. The Definition of Standard ML (Revised), rule 54.
#[tactic(auto, using(crate::proofs::Growing::grows_none, crate::proofs::Growing::grows_stays))]
pub fn apply_functor(
    g: &mut EnvGraph,
    t: &mut TypeTable,
    at: At,
    fun: FunId,
    env: EnvId,
) -> Result<EnvId, Fault>
    requires fun { HasFunctor g.old fun }
    requires env { HasEnv g.old env }
    ensures answers { (inner : Scope) → inner.home ≡ g.old.home
        → Answers (functor_applied inner at (functor_at g.old fun) (env_at g.old env, progress t.old g.old))
        (λ made. (env_at g.new made, progress t.new g.new)) result }
    ensures there { IfOk result (HasEnv g.new) }
    ensures graph { Grows g.old g.new }
    ensures table { t.new ≡ t.old }
{
    let parts = g.read_fun(fun)?;
    let by = match_parameter(g, t, at, &parts, env)?;
    let made = renewed_result(g, &parts.further, by, parts.result)?;
    Ok(made)
}
