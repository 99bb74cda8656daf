//! Names in patterns.

ghost use Rattle.std.specs.Prelude.{IfOk};
ghost use Rattle.semantic_objects.specs.Tables.{entry};
ghost use Rattle.semantic_objects.specs.Environments.{values};
ghost use Rattle.unification.specs.Unification.{depth};
ghost use Rattle.type_nodes.specs.Tables.{Has};
ghost use Rattle.bare_phrases.specs.Phrases.{PatPhrase};
ghost use Rattle.static_semantics.specs.Inferring as inferring;
ghost use Rattle.static_semantics.specs.PatternInference as inference;
ghost use Rattle.type_phrases.specs.Inferred.{KeepsTypes, progress};
ghost use Rattle.pattern_elab.specs.Scopes.{scope_of, bound_of, IsCoreScope};
ghost use Rattle.pattern_elab.specs.Steps.{InferredPlain, InferredPat, BindsOn};

use crate::constructor::{check_con, check_none};
use crate::own::{CoreScope, OwnVariable};
use crate::steps::sized;
use crate::value::{instance, known_value, stands_for_con};
use crate::variable::bind_variable;
use cm_base::{Fault, Text};
use name_trails::NameTrail;
use semantic_objects::TyId;
use sml_modules::EnvGraph;
use sml_trees::{At, LongName};
use sml_types::TypeTable;
use std::alloc::Global;

/// A constructor or an exception alone: 30 at the name, 34 at a place where it is a variable or takes an argument.
#[tactic(auto, using(crate::proofs::Forms::con_done))]
fn elab_con(
    alloc: Global,
    g: &EnvGraph,
    t: &mut TypeTable,
    scope: &CoreScope,
    long: &LongName,
    at: At,
) -> Result<TyId, Fault>
    requires { IsCoreScope g.now t.old scope.now }
    ensures infers { InferredPlain
        (λ bound. inference.known_pat (scope_of g.now scope.now) long.now at bound (progress t.old g.now))
        result t.new g.now }
    ensures has { IfOk result (Has t.new) }
    ensures ids { KeepsTypes t.old t.new }
{
    let value = known_value(alloc, g, scope, long)?;
    check_con(alloc, g, at, &value)?;
    check_none(alloc, g, at, &value)?;
    Ok(instance(t, scope, long, &value)?)
}

/// A name of one part: a variable where it doesn't stand for a constructor or an exception.
#[tactic(auto, using(crate::proofs::Binding::binds_only))]
fn elab_lone(
    alloc: Global,
    g: &EnvGraph,
    t: &mut TypeTable,
    scope: &CoreScope,
    long: &LongName,
    name: &Text,
    at: At,
    bound: &mut NameTrail<OwnVariable>,
) -> Result<TyId, Fault>
    requires { IsCoreScope g.now t.old scope.now }
    ensures infers { InferredPat (inference.name_by (scope_of g.now scope.now) at
        (inferring.stands_for_con (entry name.now (values (scope_of g.now scope.now).env))) name.now long.now
        (bound_of bound.old) (progress t.old g.now)) result t.new bound.new g.now }
    ensures has { IfOk result (Has t.new) }
    ensures goes { BindsOn t.old t.new bound.old bound.new }
{
    if stands_for_con(g, scope, name)? {
        elab_con(alloc, g, t, scope, long, at)
    } else {
        bind_variable(alloc, g, t, at, name, bound)
    }
}

/// A name: a variable, a constructor or an exception.
#[tactic(auto, using(crate::proofs::Forms::name_alone, crate::proofs::Binding::binds_only))]
fn elab_name(
    alloc: Global,
    g: &EnvGraph,
    t: &mut TypeTable,
    scope: &CoreScope,
    long: &LongName,
    at: At,
    bound: &mut NameTrail<OwnVariable>,
) -> Result<TyId, Fault>
    requires { IsCoreScope g.now t.old scope.now }
    ensures infers { InferredPat (inference.name_pat (scope_of g.now scope.now) long.now at long.now.parts
        (bound_of bound.old) (progress t.old g.now)) result t.new bound.new g.now }
    ensures has { IfOk result (Has t.new) }
    ensures goes { BindsOn t.old t.new bound.old bound.new }
{
    if long.parts.len() != 1 {
        return elab_con(alloc, g, t, scope, long, at);
    }
    match long.parts.get(0) {
        Some(name) => elab_lone(alloc, g, t, scope, long, name, at, bound),
        None => Err(Fault::NoMemory),
    }
}

/// The type of a name, and its size.
#[tactic(auto, using(crate::proofs::Forms::long_failed))]
pub(crate) fn elab_long(
    alloc: Global,
    g: &EnvGraph,
    t: &mut TypeTable,
    scope: &CoreScope,
    long: &LongName,
    at: At,
    bound: &mut NameTrail<OwnVariable>,
) -> Result<TyId, Fault>
    requires { IsCoreScope g.now t.old scope.now }
    ensures infers { InferredPat (inference.infer_pat depth (scope_of g.now scope.now) (PatPhrase.Long long.now at)
        (bound_of bound.old) (progress t.old g.now)) result t.new bound.new g.now }
    ensures has { IfOk result (Has t.new) }
    ensures goes { BindsOn t.old t.new bound.old bound.new }
{
    let id = elab_name(alloc, g, t, scope, long, at, bound)?;
    sized(alloc, g, t, at, id)
}
