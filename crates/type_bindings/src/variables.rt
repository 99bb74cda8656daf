//! The type variables of a list.

ghost use Rattle.std.specs.Prelude.{◌≡◌, ◌+◌, [], length, true, IfOk, OnErr};
ghost use Rattle.unification.specs.Instances.{with_variable};
ghost use Rattle.type_nodes.specs.Tables.{state};
ghost use Rattle.type_schemes.specs.Instances.{Extends};
ghost use Rattle.static_semantics.specs.BasicTypes.{is_equality_variable as ranges_over_equality_types};
ghost use Rattle.static_semantics.specs.Inferring.{Scope, refuses_where, is_named, name_at};
ghost use Rattle.static_semantics.specs.TypeInference.{listed};
ghost use Rattle.type_phrases.specs.Inferred.{Answers, KeepsTypes, progress};
ghost use Rattle.type_bindings.specs.Listing.{AreMade};

use cm_base::{Fault, List, NoMemory, Text};
use name_trails::NameTrail;
use semantic_objects::TyId;
use sml_modules::EnvGraph;
use sml_trees::Name;
use sml_types::TypeTable;
use std::alloc::Global;
use type_phrases::{place_of, refusal};

/// Whether a type variable ranges over equality types: whether it begins with two apostrophes.
fn is_equality_variable(text: &Text) -> bool
    ensures { result ≡ ranges_over_equality_types text.now }
{
    match text.as_bytes() {
        [first, second, ..] => *first == b'\'' && *second == b'\'',
        _ => false,
    }
}

/// A new variable that stands for itself alone, by its number.
fn new_variable(t: &mut TypeTable, text: &Text) -> Result<usize, NoMemory>
    ensures number { IfOk result (λ number. number ≡ length t.old.births) }
    ensures births { IfOk result (λ number. length t.new.births ≡ length t.old.births + 1) }
    ensures state { IfOk result (λ number.
        state t.new ≡ with_variable true (ranges_over_equality_types text.now) (state t.old)) }
    ensures extends { IfOk result (λ number. Extends t.old t.new) }
    ensures refused { OnErr result (t.new ≡ t.old) }
{
    match t.rigid(is_equality_variable(text))? {
        TyId::Variable(number) => Ok(number),
        TyId::Made(_) => Err(NoMemory),
    }
}

/// 40 at a type variable that stands before.
fn check_new(alloc: Global, g: &EnvGraph, rows: &NameTrail<usize>, name: &Name) -> Result<(), Fault>
    ensures { (inner : Scope) → inner.home ≡ g.now.home
        → Answers (refuses_where (is_named name.now.text rows.now) 40 inner (name_at name.now)) (λ u. tt) result }
{
    match rows.find(&name.text) {
        None => Ok(()),
        Some(_) => Err(refusal(g, 40, place_of(name), List::new(alloc))),
    }
}

/// The type variables of a list by their texts, each with the number of a new variable that stands for itself alone and
/// is an equality variable where its text begins with two apostrophes: 40 at one that stands in the list before. After
/// a refusal the table may have variables more. The Definition of Standard ML (Revised), sections 2.9 and 4.1.
pub fn list_variables(
    alloc: Global,
    g: &EnvGraph,
    t: &mut TypeTable,
    names: &[Name],
) -> Result<NameTrail<usize>, Fault>
    ensures listed { (inner : Scope) → inner.home ≡ g.now.home
        → Answers (listed inner names.now [] (progress t.old g.now)) (λ rows. (rows, progress t.new g.now)) result }
    ensures made { IfOk result (AreMade t.new) }
    ensures ids { KeepsTypes t.old t.new }
{
    let mut rows = NameTrail::new(alloc);
    for name in names {
        check_new(alloc, g, &rows, name)?;
        let number = new_variable(t, &name.text)?;
        rows.bind(name.text.copy()?, number)?;
    }
    Ok(rows)
}
