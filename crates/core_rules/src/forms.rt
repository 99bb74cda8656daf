//! Forms of expressions after their parts, each with the check of its size.

ghost use Rattle.unification.specs.Unification.{depth};
ghost use Rattle.type_nodes.specs.Tables.{Has, type_of};
ghost use Rattle.bare_phrases.specs.PhraseOf.{ty_phrase};
ghost use Rattle.static_semantics.specs.BasicTypes.{record_ty};
ghost use Rattle.static_semantics.specs.Inferring.{sized_exp};
ghost use Rattle.static_semantics.specs.CoreInference as inference;
ghost use Rattle.type_phrases.specs.Inferred.{made_fields, progress};
ghost use Rattle.pattern_elab.specs.Scopes.{IsCoreScope};
ghost use Rattle.core_rules.specs.Rules.{IsRule};
ghost use Rattle.core_rules.specs.Moments.{moment};
ghost use Rattle.core_rules.specs.Expressions.{AreLabelled, IsConstrained, ends_sized};

use crate::rules::{applied, handled, joined, raised};
use cm_base::Fault;
use name_trails::NameTrail;
use pattern_elab::{CoreScope, sized, written_type};
use semantic_objects::TyId;
use sml_modules::EnvGraph;
use sml_trees::{At, Ty};
use sml_types::TypeTable;
use std::alloc::Global;
use type_phrases::record_of;

/// `function argument`
pub fn apply(
    alloc: Global,
    g: &EnvGraph,
    t: &mut TypeTable,
    at: At,
    function: TyId,
    argument: TyId,
) -> Result<TyId, Fault>
    requires function { Has t.old function }
    requires argument { Has t.old argument }
    ensures { IsRule g.now t.old t.new (λ sc. ends_sized sc at (inference.applied depth sc at (type_of t.old function)
        (type_of t.old argument) (progress t.old g.now))) result }
{
    let id = applied(alloc, g, t, at, function, argument)?;
    sized(alloc, g, t, at, id)
}

/// `exp : ty`, behind the expression.
pub fn constrain(
    alloc: Global,
    g: &EnvGraph,
    t: &mut TypeTable,
    scope: &CoreScope,
    at: At,
    id: TyId,
    ty: &Ty,
) -> Result<TyId, Fault>
    requires scope { IsCoreScope g.now t.old scope.now }
    requires id { Has t.old id }
    ensures { IsConstrained (moment g.now t.old scope.now) at id (ty_phrase ty.now) (moment g.now t.new scope.now)
        result }
{
    let written = written_type(alloc, g, t, scope, ty)?;
    let id = joined(alloc, g, t, at, id, written)?;
    sized(alloc, g, t, at, id)
}

/// `exp handle rules`
pub fn handle(
    alloc: Global,
    g: &EnvGraph,
    t: &mut TypeTable,
    at: At,
    id: TyId,
    handler: TyId,
) -> Result<TyId, Fault>
    requires id { Has t.old id }
    requires handler { Has t.old handler }
    ensures { IsRule g.now t.old t.new (λ sc. ends_sized sc at (inference.handled depth sc at (type_of t.old id)
        (type_of t.old handler) (progress t.old g.now))) result }
{
    let id = handled(alloc, g, t, at, id, handler)?;
    sized(alloc, g, t, at, id)
}

/// `raise exp`
pub fn raise(
    alloc: Global,
    g: &EnvGraph,
    t: &mut TypeTable,
    at: At,
    id: TyId,
) -> Result<TyId, Fault>
    requires { Has t.old id }
    ensures { IsRule g.now t.old t.new (λ sc. ends_sized sc at (inference.raised depth sc at (type_of t.old id)
        (progress t.old g.now))) result }
{
    let id = raised(alloc, g, t, at, id)?;
    sized(alloc, g, t, at, id)
}

/// A record with these fields.
pub fn make_record(
    alloc: Global,
    g: &EnvGraph,
    t: &mut TypeTable,
    at: At,
    rows: &NameTrail<TyId>,
) -> Result<TyId, Fault>
    requires { AreLabelled t.old rows.now }
    ensures { IsRule g.now t.old t.new
        (λ sc. sized_exp sc at (record_ty (made_fields t.old rows.now), progress t.old g.now)) result }
{
    let id = record_of(alloc, t, rows)?;
    sized(alloc, g, t, at, id)
}
