//! Written type variables of a `val` that it can't close.

ghost use Rattle.std.specs.Prelude.{◌≡◌, ℕ, Bool, [], ◌∷◌, Some, None, IfOk, slice_get};
ghost use Rattle.type_nodes.specs.Tables.{Table, IsFrontOf, state};
ghost use Rattle.type_schemes.specs.Schemes.{HaveAll, stays_since};
ghost use Rattle.static_semantics.specs.Inferring.{Scope};
ghost use Rattle.static_semantics.specs.CoreInference.{none_left};
ghost use Rattle.type_phrases.specs.Inferred.{Answers, Refuses};
ghost use Rattle.closing_laws.specs.Variables.{first_left};
ghost use Rattle.value_closing.specs.Closings.{ids_of, NamesAt};

use cm_base::{Fault, List, NoMemory, Text};
use name_trails::NameTrail;
use semantic_objects::TyId;
use sml_modules::EnvGraph;
use sml_trees::At;
use sml_types::TypeTable;
use std::alloc::Global;
use type_nodes::Mark;
use type_phrases::refusal_of;

/// The ids of variables.
fn ids_of(alloc: Global, rows: &[(Text, usize)]) -> Result<List<TyId>, NoMemory>
    ensures { IfOk result (λ ids. ids ≡ ids_of rows.now) }
{
    let mut ids = List::new(alloc);
    for row in rows {
        ids.add(TyId::Variable(row.1))?;
    }
    Ok(ids)
}

/// 37 that shows the name at a place.
fn left_at(alloc: Global, g: &EnvGraph, at: At, rows: &[(Text, usize)], place: usize) -> Fault
    ensures { NamesAt g.now at rows.now place result }
{
    match rows.get(place) {
        Some(row) => match row.0.copy() {
            Ok(name) => refusal_of(alloc, g, 37, at, name),
            Err(_) => Fault::NoMemory,
        },
        None => Fault::NoMemory,
    }
}

/// 37 at a `val` where one of its own written type variables stays open: it is there since before a mark, or stands in
/// what stands for one that is, or in a type that isn't closed. The first of them in their order is named.
pub(crate) fn check_left(
    alloc: Global,
    g: &EnvGraph,
    t: &mut TypeTable,
    at: At,
    own: &NameTrail<usize>,
    unclosed: &List<TyId>,
    since: &Mark,
) -> Result<(), Fault>
    requires has { HaveAll t.old unclosed.now }
    requires front { IsFrontOf since.now t.old }
    ensures answer { (inner : Scope) → inner.home ≡ g.now.home → Answers (none_left inner at (tt {0})
        (first_left (stays_since t.old (state since.now).next unclosed.now) own.now)) (λ u. tt) result }
    ensures same { t.new ≡ t.old }
{
    let ids = ids_of(alloc, own.rows())?;
    match t.left_since(&ids, unclosed, since)? {
        None => Ok(()),
        Some(place) => Err(left_at(alloc, g, at, own.rows(), place)),
    }
}
