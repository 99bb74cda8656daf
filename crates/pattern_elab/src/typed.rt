//! Types that are written in patterns and in expressions.

ghost use Rattle.std.specs.Prelude.{◌≡◌, IfOk};
ghost use Rattle.std.specs.Option.{option_map};
ghost use Rattle.unification.specs.Unification.{depth};
ghost use Rattle.type_nodes.specs.Tables.{Has, state, type_of};
ghost use Rattle.bare_phrases.specs.PhraseOf.{ty_phrase};
ghost use Rattle.static_semantics.specs.TypeInference.{infer_ty};
ghost use Rattle.static_semantics.specs.PatternInference as inference;
ghost use Rattle.type_phrases.specs.Inferred.{Answers, KeepsTypes, progress};
ghost use Rattle.pattern_elab.specs.Scopes.{IsCoreScope, scope_of};

use crate::own::CoreScope;
use crate::steps::unify_at;
use cm_base::Fault;
use semantic_objects::TyId;
use sml_modules::EnvGraph;
use sml_trees::{At, Ty};
use sml_types::TypeTable;
use std::alloc::Global;
use type_phrases::elab_ty;

/// The type that a phrase stands for.
#[tactic(auto, using(crate::proofs::Scoping::over_core))]
pub fn written_type(
    alloc: Global,
    g: &EnvGraph,
    t: &mut TypeTable,
    scope: &CoreScope,
    ty: &Ty,
) -> Result<TyId, Fault>
    requires { IsCoreScope g.now t.old scope.now }
    ensures infers { Answers (infer_ty (scope_of g.now scope.now) (ty_phrase ty.now)) (type_of t.new) result }
    ensures has { IfOk result (Has t.new) }
    ensures state { state t.new ≡ state t.old }
    ensures ids { KeepsTypes t.old t.new }
{
    elab_ty(alloc, g, t, scope, ty)
}

/// The type that is written at a variable, if there is one, is made one with the variable's at a place.
#[tactic(auto, using(type_phrases::proofs::Keeping::keeps_all))]
pub(crate) fn type_variable(
    alloc: Global,
    g: &EnvGraph,
    t: &mut TypeTable,
    scope: &CoreScope,
    at: At,
    variable: TyId,
    ty: &Option<Ty>,
) -> Result<(), Fault>
    requires scope { IsCoreScope g.now t.old scope.now }
    requires has { Has t.old variable }
    ensures infers { Answers (inference.typed_variable depth (scope_of g.now scope.now) at (type_of t.old variable)
        (option_map ty_phrase ty.now) (progress t.old g.now)) (λ u. progress t.new g.now) result }
    ensures ids { KeepsTypes t.old t.new }
    ensures core { IsCoreScope g.now t.new scope.now }
{
    match ty {
        None => Ok(()),
        Some(ty) => {
            let written = written_type(alloc, g, t, scope, ty)?;
            unify_at(alloc, g, t, at, variable, written)
        }
    }
}
