//! Steps that all phrases share.

ghost use Rattle.std.specs.Prelude.{◌≡◌, [], IfOk};
ghost use Rattle.unification.specs.Unification.{unify_in, depth};
ghost use Rattle.type_nodes.specs.Tables.{Has, state, type_of};
ghost use Rattle.static_semantics.specs.Inferring as inferring;
ghost use Rattle.type_phrases.specs.Inferred.{Answers, KeepsTypes, Refuses, progress, home_scope};
ghost use Rattle.pattern_elab.specs.Steps.{Unified};

use cm_base::{Fault, List};
use semantic_objects::TyId;
use sml_modules::EnvGraph;
use sml_trees::At;
use sml_types::{TypeFault, TypeTable};
use std::alloc::Global;
use type_phrases::refusal;

/// The answer of a check that failed at a place of the unit, where the diagnostic shows no names.
pub fn refuse(alloc: Global, g: &EnvGraph, number: u8, at: At) -> Fault
    ensures { Refuses g.now number at [] result }
{
    refusal(g, number, at, List::new(alloc))
}

/// Makes two types one, or refuses it at a place: 31, 32 or 33. A refusal leaves the table as it was.
pub fn unify_at(
    alloc: Global,
    g: &EnvGraph,
    t: &mut TypeTable,
    at: At,
    first: TyId,
    second: TyId,
) -> Result<(), Fault>
    requires first { Has t.old first }
    requires second { Has t.old second }
    ensures answer { Unified g.now at
        (unify_in depth (type_of t.old first) (type_of t.old second) (state t.old)) result (state t.new) }
    ensures ids { KeepsTypes t.old t.new }
{
    t.is_kept();
    match t.unify(first, second) {
        Ok(()) => Ok(()),
        Err(TypeFault::Clash(_, _)) => Err(refuse(alloc, g, 31, at)),
        Err(TypeFault::Circular(_, _)) => Err(refuse(alloc, g, 32, at)),
        Err(TypeFault::NotEquality(_)) => Err(refuse(alloc, g, 33, at)),
        Err(TypeFault::NoMemory) => Err(Fault::NoMemory),
    }
}

/// Answers the type of a phrase, or 38 at it where it has more than 65,536 nodes by now. The table stands for what it did;
/// the next look at the type needs no walk until something is put in for a variable of it.
pub fn sized(
    alloc: Global,
    g: &EnvGraph,
    t: &mut TypeTable,
    at: At,
    id: TyId,
) -> Result<TyId, Fault>
    requires { Has t.old id }
    ensures answer { Answers
        (inferring.sized (home_scope g.now) at (type_of t.old id) (progress t.old g.now)) (λ (same : TyId). tt) result }
    ensures same { IfOk result (λ same. same ≡ id) }
    ensures table { t.new ≡ t.old }
{
    if t.sized(id)? > 65_536 {
        return Err(refuse(alloc, g, 38, at));
    }
    Ok(id)
}
