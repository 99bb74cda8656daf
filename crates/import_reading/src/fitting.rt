//! Whether an interface can be used.

ghost use Rattle.std.specs.Prelude.{◌≡◌, IfOk, OnOk};
ghost use Rattle.sml_modules.specs.Graphs.{top_at};
ghost use Rattle.sml_modules.specs.Nodes.{AreTopTables, top_of_tables};
ghost use Rattle.realisation.specs.Names.{names_in_top, once};
ghost use Rattle.imported_interfaces.specs.Known.{AreKept};
ghost use Rattle.import_reading.specs.Reading.{NotesNames, FindsUsable};
ghost use Rattle.import_reading.specs.Restored.{IsRestored};

use crate::looking::place_of;
use crate::restored::RestoredInterface;
use canonical_walks::envs_of;
use cm_base::{Given, List, NoMemory, Text};
use env_parts::TopTables;
use imported_interfaces::{KnownNames, all_fit, note_all};
use name_walks::names_of_all;
use semantic_objects::TyName;
use sml_modules::EnvGraph;

/// The type names that occur in a top of these tables, each once.
pub(crate) fn names_in(graph: &EnvGraph, tables: &TopTables) -> Result<List<TyName>, NoMemory>
    requires { AreTopTables graph.now.items tables.now }
    ensures { IfOk result (λ names. names ≡ once (names_in_top (top_of_tables graph.now.items tables.now))) }
{
    let envs = envs_of(graph, tables)?;
    names_of_all(graph, &envs)
}

/// Whether type names fit to those that are known; they are known then.
fn note_names(known: &mut KnownNames, unit: &Text, names: &List<TyName>) -> Result<bool, NoMemory>
    requires known { AreKept known.old }
    ensures kept { OnOk result (AreKept known.new) }
    ensures notes { IfOk result (NotesNames unit.now names.now known.old.names known.new.names) }
{
    if !all_fit(known, unit, names)? {
        return Ok(false);
    }
    note_all(known, names)?;
    Ok(true)
}

/// The place of what has the wanted name in an interface, if that can be used after those whose names are known; its
/// names are known then.
pub(crate) fn usable_place(
    graph: &EnvGraph,
    known: &mut KnownNames,
    unit: &Text,
    given: &Given,
    found: &RestoredInterface,
) -> Result<Option<usize>, NoMemory>
    requires restored { IsRestored graph.now.items given.now.import.provider found.now }
    requires known { AreKept known.old }
    ensures kept { OnOk result (AreKept known.new) }
    ensures finds { IfOk result (FindsUsable graph.now.items unit.now given.now.import.name (top_at graph.now
        found.now.top) known.old.names known.new.names) }
{
    let tables = graph.top_tables(found.top)?;
    let Some(place) = place_of(graph, tables, &given.import.name)? else {
        return Ok(None);
    };
    if !note_names(known, unit, &found.names)? {
        return Ok(None);
    }
    Ok(Some(place))
}
