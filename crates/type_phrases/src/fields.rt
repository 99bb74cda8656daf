//! The fields of records.

ghost use Rattle.std.specs.Prelude.{◌≡◌, None, map, IfOk, OnOk, OnErr};
ghost use Rattle.semantic_objects.specs.Symbols.{AreDiffering};
ghost use Rattle.semantic_objects.specs.Tables.{names_of};
ghost use Rattle.type_nodes.specs.Tables.{Table, Has, state, type_of};
ghost use Rattle.type_schemes.specs.Instances.{Extends};
ghost use Rattle.name_trails.specs.Trails.{last_entry};
ghost use Rattle.static_semantics.specs.BasicTypes.{record_ty};
ghost use Rattle.static_semantics.specs.Inferring.{Scope};
ghost use Rattle.static_semantics.specs.TypeInference.{new_label};
ghost use Rattle.type_phrases.specs.Inferred.{Answers, HaveRows, made_fields};
ghost use Rattle.type_phrases.specs.Steps.{ids_in};

use crate::diagnostics::{place_of, refusal};
use cm_base::{Fault, List, NoMemory, Text};
use name_trails::NameTrail;
use semantic_objects::TyId;
use sml_modules::EnvGraph;
use sml_trees::Name;
use sml_types::TypeTable;
use std::alloc::Global;

/// 40 at a label that an earlier field has.
pub fn check_label(
    alloc: Global,
    g: &EnvGraph,
    fields: &NameTrail<TyId>,
    label: &Name,
) -> Result<(), Fault>
    ensures check { (t : Table) (inner : Scope) → inner.home ≡ g.now.home
        → Answers (new_label inner label.now (made_fields t fields.now)) (λ u. tt) result }
    ensures free { OnOk result (last_entry fields.now label.now.text ≡ None) }
{
    match fields.find(&label.text) {
        None => Ok(()),
        Some(_) => Err(refusal(g, 40, place_of(label), List::new(alloc))),
    }
}

/// The labels of fields.
fn labels_of(alloc: Global, rows: &[(Text, TyId)]) -> Result<List<Text>, NoMemory>
    ensures { IfOk result (λ labels. labels ≡ names_of rows.now) }
{
    let mut labels = List::new(alloc);
    for row in rows {
        labels.add(row.0.copy()?)?;
    }
    Ok(labels)
}

/// The types of fields.
fn parts_of(alloc: Global, rows: &[(Text, TyId)]) -> Result<List<TyId>, NoMemory>
    ensures { IfOk result (λ parts. parts ≡ ids_in rows.now) }
{
    let mut parts = List::new(alloc);
    for row in rows {
        parts.add(row.1)?;
    }
    Ok(parts)
}

/// The record type of fields whose labels differ. The Definition of Standard ML (Revised), rule 45.
pub fn record_of(
    alloc: Global,
    t: &mut TypeTable,
    fields: &NameTrail<TyId>,
) -> Result<TyId, NoMemory>
    requires have { HaveRows t.old fields.now }
    requires differing { AreDiffering (names_of fields.now) }
    ensures made { IfOk result (λ id. type_of t.new id ≡ record_ty (made_fields t.old fields.now)) }
    ensures has { IfOk result (Has t.new) }
    ensures state { IfOk result (λ id. state t.new ≡ state t.old) }
    ensures extends { IfOk result (λ id. Extends t.old t.new) }
    ensures refused { OnErr result (t.new ≡ t.old) }
{
    let labels = labels_of(alloc, fields.rows())?;
    let parts = parts_of(alloc, fields.rows())?;
    t.record_type(&labels, &parts)
}
