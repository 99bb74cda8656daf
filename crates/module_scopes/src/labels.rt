//! Names that an earlier binding of a declaration has.

ghost use Rattle.std.specs.Prelude.{◌≡◌, [], IfOk};
ghost use Rattle.std.specs.Option.{is_some};
ghost use Rattle.semantic_objects.specs.Environments.{structures};
ghost use Rattle.name_trails.specs.Trails.{last_entry};
ghost use Rattle.static_semantics.specs.Inferring.{Scope, refuses_where, name_at};
ghost use Rattle.static_semantics.specs.TypeInference.{new_label};
ghost use Rattle.type_phrases.specs.Inferred.{Answers};
ghost use Rattle.module_scopes.specs.Tops.{structures_env, signatures_over, functors_over};

use cm_base::{Fault, List};
use name_trails::NameTrail;
use sml_modules::{EnvGraph, EnvId, FunId, SigId};
use sml_trees::Name;
use std::alloc::Global;
use type_phrases::{place_of, refusal};

/// 40 at a name that rows have.
fn check_new<T>(alloc: Global, g: &EnvGraph, rows: &NameTrail<T>, name: &Name) -> Result<(), Fault>
    ensures { (inner : Scope) → inner.home ≡ g.now.home
        → Answers (refuses_where (is_some (last_entry rows.now name.now.text)) 40 inner (name_at name.now)) (λ u. tt)
        result }
{
    match rows.find(&name.text) {
        None => Ok(()),
        Some(_) => Err(refusal(g, 40, place_of(name), List::new(alloc))),
    }
}

/// 40 at the name of a structure that an earlier binding has.
/// The Definition of Standard ML (Revised), section 3.5.
pub fn check_structure(
    alloc: Global,
    g: &EnvGraph,
    made: &NameTrail<EnvId>,
    name: &Name,
) -> Result<(), Fault>
    ensures { (inner : Scope) → inner.home ≡ g.now.home
        → Answers (new_label inner name.now (structures (structures_env g.now made.now))) (λ u. tt) result }
{
    check_new(alloc, g, made, name)
}

/// 40 at the name of a signature that an earlier binding has.
/// The Definition of Standard ML (Revised), section 3.5.
pub fn check_signature(
    alloc: Global,
    g: &EnvGraph,
    made: &NameTrail<SigId>,
    name: &Name,
) -> Result<(), Fault>
    ensures { (inner : Scope) → inner.home ≡ g.now.home
        → Answers (new_label inner name.now (signatures_over g.now made.now [])) (λ u. tt) result }
{
    check_new(alloc, g, made, name)
}

/// 40 at the name of a functor, or of a signature of functors, that an earlier binding has.
/// The Definition of Standard ML (Revised), section 3.5.
pub fn check_functor(
    alloc: Global,
    g: &EnvGraph,
    made: &NameTrail<FunId>,
    name: &Name,
) -> Result<(), Fault>
    ensures { (inner : Scope) → inner.home ≡ g.now.home
        → Answers (new_label inner name.now (functors_over g.now made.now [])) (λ u. tt) result }
{
    check_new(alloc, g, made, name)
}
