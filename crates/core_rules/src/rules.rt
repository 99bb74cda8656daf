//! The rules of expressions that make variables and make types one, each after the parts of its phrase.
//! The Definition of Standard ML (Revised), rules 8 to 11 and 14.

ghost use Rattle.unification.specs.Unification.{depth};
ghost use Rattle.type_nodes.specs.Tables.{Has, type_of};
ghost use Rattle.sml_modules.specs.Graphs.{Graph};
ghost use Rattle.bare_phrases.specs.Phrases.{Rules};
ghost use Rattle.static_semantics.specs.CoreInference as inference;
ghost use Rattle.type_phrases.specs.Inferred.{progress};
ghost use Rattle.core_rules.specs.Rules.{IsRule};

use cm_base::Fault;
use pattern_elab::{exn_type, unify_at};
use semantic_objects::TyId;
use sml_modules::EnvGraph;
use sml_trees::At;
use sml_types::TypeTable;
use std::alloc::Global;

/// An application: a function's type is an arrow from the argument's to a new variable, which is the type of the whole.
pub fn applied(
    alloc: Global,
    g: &EnvGraph,
    t: &mut TypeTable,
    at: At,
    function: TyId,
    argument: TyId,
) -> Result<TyId, Fault>
    requires function { Has t.old function }
    requires argument { Has t.old argument }
    ensures { IsRule g.now t.old t.new (λ sc. inference.applied depth sc at (type_of t.old function)
        (type_of t.old argument) (progress t.old g.now)) result }
{
    t.is_kept();
    let to = t.fresh(false)?;
    let arrow = t.arrow(argument, to)?;
    unify_at(alloc, g, t, at, function, arrow)?;
    Ok(to)
}

/// A constraint, or what else has to be another type: it is the type of the whole.
pub fn joined(
    alloc: Global,
    g: &EnvGraph,
    t: &mut TypeTable,
    at: At,
    ty: TyId,
    other: TyId,
) -> Result<TyId, Fault>
    requires ty { Has t.old ty }
    requires other { Has t.old other }
    ensures { IsRule g.now t.old t.new (λ sc. inference.joined depth sc at (type_of t.old ty) (type_of t.old other)
        (progress t.old g.now)) result }
{
    unify_at(alloc, g, t, at, ty, other)?;
    Ok(ty)
}

/// A handler: it takes `exn` to the type of what it handles, which is the type of the whole.
pub fn handled(
    alloc: Global,
    g: &EnvGraph,
    t: &mut TypeTable,
    at: At,
    ty: TyId,
    handler: TyId,
) -> Result<TyId, Fault>
    requires ty { Has t.old ty }
    requires handler { Has t.old handler }
    ensures { IsRule g.now t.old t.new (λ sc. inference.handled depth sc at (type_of t.old ty) (type_of t.old handler)
        (progress t.old g.now)) result }
{
    let exn = exn_type(alloc, t)?;
    let arrow = t.arrow(exn, ty)?;
    unify_at(alloc, g, t, at, handler, arrow)?;
    Ok(ty)
}

/// `raise`: what is raised is an `exn`, and the type of the whole is a new variable.
pub fn raised(
    alloc: Global,
    g: &EnvGraph,
    t: &mut TypeTable,
    at: At,
    ty: TyId,
) -> Result<TyId, Fault>
    requires { Has t.old ty }
    ensures { IsRule g.now t.old t.new
        (λ sc. inference.raised depth sc at (type_of t.old ty) (progress t.old g.now)) result }
{
    let exn = exn_type(alloc, t)?;
    unify_at(alloc, g, t, at, ty, exn)?;
    t.is_kept();
    Ok(t.fresh(false)?)
}

/// A match without rules: it takes a new variable to another.
pub fn no_rules(t: &mut TypeTable) -> Result<TyId, Fault>
    ensures { (g : Graph) → IsRule g t.old t.new
        (λ sc. inference.infer_match depth sc Rules.EndOfRules (progress t.old g)) result }
{
    t.is_kept();
    let from = t.fresh(false)?;
    t.is_kept();
    let to = t.fresh(false)?;
    Ok(t.arrow(from, to)?)
}
