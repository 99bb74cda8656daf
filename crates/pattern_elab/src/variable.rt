//! Variables that patterns bind.

ghost use Rattle.std.specs.Prelude.{◌≡◌, ◌∷◌, ◌++◌, [], false, IfOk};
ghost use Rattle.unification.specs.Types.{Ty};
ghost use Rattle.unification.specs.Instances.{with_variable};
ghost use Rattle.type_nodes.specs.Tables.{Has, state, type_of};
ghost use Rattle.static_semantics.specs.BasicTypes.{reserved_names, is_one_of};
ghost use Rattle.semantic_objects.specs.Tables.{entry};
ghost use Rattle.semantic_objects.specs.Environments.{values};
ghost use Rattle.static_semantics.specs.Inferring as inferring;
ghost use Rattle.static_semantics.specs.Inferring.{is_named, refuses_where};
ghost use Rattle.static_semantics.specs.PatternInference as inference;
ghost use Rattle.type_phrases.specs.Inferred.{Answers, progress, home_scope};
ghost use Rattle.core_scopes.specs.Scopes.{IsScopeOf};
ghost use Rattle.pattern_elab.specs.Scopes.{bound_of, scope_of};
ghost use Rattle.pattern_elab.specs.Steps.{InferredPat, BindsOn};

use crate::own::{CoreScope, OwnVariable};
use crate::steps::refuse;
use crate::value::stands_for_con;
use cm_base::{Fault, NoMemory, Text};
use name_trails::NameTrail;
use semantic_objects::TyId;
use sml_modules::EnvGraph;
use sml_trees::At;
use sml_types::TypeTable;
use std::alloc::Global;

/// Whether no pattern binds this name: `true`, `false`, `nil`, `::` and `ref`.
pub fn is_reserved(name: &Text) -> bool
    ensures { result ≡ is_one_of reserved_names name.now }
{
    let bytes = name.as_bytes();
    bytes == b"true".as_slice()
        || bytes == b"false".as_slice()
        || bytes == b"nil".as_slice()
        || bytes == b"::".as_slice()
        || bytes == b"ref".as_slice()
}

/// Whether a name is bound already.
fn is_bound(bound: &NameTrail<OwnVariable>, name: &Text) -> bool
    ensures { result ≡ is_named name.now (bound_of bound.now) }
{
    match bound.find(name) {
        Some(_) => true,
        None => false,
    }
}

/// Binds a name to a new variable behind those that are bound already.
fn bind_fresh(
    t: &mut TypeTable,
    name: &Text,
    bound: &mut NameTrail<OwnVariable>,
) -> Result<TyId, NoMemory>
    ensures made { IfOk result (λ id. type_of t.new id ≡ Ty.Var (state t.old).next) }
    ensures state { IfOk result (λ id. state t.new ≡ with_variable false false (state t.old)) }
    ensures bound { IfOk result (λ id.
        bound_of bound.new ≡ bound_of bound.old ++ (name.now, Ty.Var (state t.old).next) ∷ []) }
    ensures has { IfOk result (Has t.new) }
    ensures goes { BindsOn t.old t.new bound.old bound.new }
{
    t.is_kept();
    let name = name.copy()?;
    match t.fresh(false)? {
        TyId::Variable(number) => {
            bound.bind(name, OwnVariable { number })?;
            Ok(TyId::Variable(number))
        }
        TyId::Made(_) => Err(NoMemory),
    }
}

/// A variable of a pattern after those bound before: 34 at a place for a name that no pattern binds, 40 there for one
/// that is bound already.
pub fn bind_variable(
    alloc: Global,
    g: &EnvGraph,
    t: &mut TypeTable,
    at: At,
    name: &Text,
    bound: &mut NameTrail<OwnVariable>,
) -> Result<TyId, Fault>
    ensures infers { InferredPat
        (inference.bind_variable (home_scope g.now) at name.now (bound_of bound.old) (progress t.old g.now))
        result t.new bound.new g.now }
    ensures has { IfOk result (Has t.new) }
    ensures goes { BindsOn t.old t.new bound.old bound.new }
{
    if is_reserved(name) {
        return Err(refuse(alloc, g, 34, at));
    }
    if is_bound(bound, name) {
        return Err(refuse(alloc, g, 40, at));
    }
    Ok(bind_fresh(t, name, bound)?)
}

/// 34 at a place where a name stands for a constructor or an exception.
pub(crate) fn check_variable(
    alloc: Global,
    g: &EnvGraph,
    scope: &CoreScope,
    at: At,
    name: &Text,
) -> Result<(), Fault>
    requires { IsScopeOf g.now scope.now }
    ensures { Answers (refuses_where
        (inferring.stands_for_con (entry name.now (values (scope_of g.now scope.now).env))) 34 (home_scope g.now) at)
        (λ u. tt) result }
{
    if stands_for_con(g, scope, name)? {
        return Err(refuse(alloc, g, 34, at));
    }
    Ok(())
}
