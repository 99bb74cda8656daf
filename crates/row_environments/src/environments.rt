//! Type structures and environments.

ghost use Rattle.std.specs.Prelude.{ℕ, List, ◌↔◌, IsTrue, IfOk, OnOk};
ghost use Rattle.sml_modules.specs.Adding.{Extends};
ghost use Rattle.row_environments.specs.Placed.{AreValues, HavePlaces};
ghost use Rattle.row_environments.specs.Answers.{PlacesType, PlacesEnv, AreNamed, FindsTables, FindsEnv};

use crate::rows::ToldRows;
use crate::tables::{names_of, place_rows, value_names};
use crate::values::{ValuePlaces, value_rows};
use cm_base::NoMemory;
use env_parts::{EnvTables, type_facts};
use interface_conditions::are_names;
use node_bytes::Row;
use row_entries::{EntryRows, structure_row};
use row_forms::{EnvForm, env_form};
use sml_modules::{EnvGraph, KeptType, Node};
use std::alloc::Global;

/// The place of the type structure that a row is.
pub(crate) fn type_row(
    graph: &mut EnvGraph,
    entries: &EntryRows,
    row: &Row,
) -> Result<Option<usize>, NoMemory>
    ensures extends { Extends graph.old graph.new }
    ensures is { IfOk result (PlacesType entries.now row.now graph.new.items) }
{
    let alloc = graph.alloc();
    let Some(entry) = structure_row(alloc, entries, row)? else {
        return Ok(None);
    };
    let facts = type_facts(alloc, &entry)?;
    let place = graph.add(Node::TypeStr(KeptType { entry, facts }))?;
    Ok(Some(place))
}

/// Whether the names of each table are as the rules ask.
fn are_named(alloc: Global, form: &EnvForm) -> Result<bool, NoMemory>
    ensures { IfOk result (λ are. IsTrue are ↔ AreNamed form.now) }
{
    let structures = names_of(alloc, form.structures.as_slice())?;
    let types = names_of(alloc, form.types.as_slice())?;
    let values = value_names(alloc, form.values.as_slice())?;
    Ok(
        are_names(structures.as_slice())
            && are_names(types.as_slice())
            && are_names(values.as_slice()),
    )
}

/// The tables of an environment, if each row of them is what it has to be.
fn tables_of(
    graph: &mut EnvGraph,
    told: &ToldRows,
    places: &mut ValuePlaces,
    form: &EnvForm,
) -> Result<Option<EnvTables>, NoMemory>
    requires values { AreValues told.now.entries.schemes graph.old.items places.old }
    requires named { AreNamed form.now }
    ensures extends { Extends graph.old graph.new }
    ensures values { OnOk result (AreValues told.now.entries.schemes graph.new.items places.new) }
    ensures tables { IfOk result (FindsTables told.now graph.new.items form.now) }
{
    let alloc = graph.alloc();
    let Some(structures) = place_rows(alloc, &told.envs, form.structures.as_slice())? else {
        return Ok(None);
    };
    let Some(types) = place_rows(alloc, &told.types, form.types.as_slice())? else {
        return Ok(None);
    };
    let Some(values) = value_rows(graph, &told.entries, places, form.values.as_slice())? else {
        return Ok(None);
    };
    Ok(Some(EnvTables {
        structures,
        types,
        values,
    }))
}

/// The place of the environment of some tables, if these are as the rules ask.
fn env_over(
    graph: &mut EnvGraph,
    told: &ToldRows,
    places: &mut ValuePlaces,
    form: &EnvForm,
) -> Result<Option<usize>, NoMemory>
    requires { (home : List ℕ) × HavePlaces home graph.old.items told.now places.old }
    ensures extends { Extends graph.old graph.new }
    ensures values { OnOk result (AreValues told.now.entries.schemes graph.new.items places.new) }
    ensures is { IfOk result (FindsEnv told.now graph.old.items form.now graph.new.items) }
{
    if !are_named(graph.alloc(), form)? {
        return Ok(None);
    }
    let Some(tables) = tables_of(graph, told, places, form)? else {
        return Ok(None);
    };
    let env = graph.add_env(tables)?;
    Ok(Some(env.place))
}

/// The place of the environment that a row is.
pub(crate) fn env_row(
    graph: &mut EnvGraph,
    told: &ToldRows,
    places: &mut ValuePlaces,
    row: &Row,
) -> Result<Option<usize>, NoMemory>
    requires { (home : List ℕ) × HavePlaces home graph.old.items told.now places.old }
    ensures extends { Extends graph.old graph.new }
    ensures values { OnOk result (AreValues told.now.entries.schemes graph.new.items places.new) }
    ensures is { IfOk result (PlacesEnv told.now graph.old.items row.now graph.new.items) }
{
    match row.tag {
        8 => match env_form(graph.alloc(), row.items.as_slice())? {
            Some(form) => env_over(graph, told, places, &form),
            None => Ok(None),
        },
        _ => Ok(None),
    }
}
