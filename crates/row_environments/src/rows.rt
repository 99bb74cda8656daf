//! What the first rows of a table are, in a graph.

ghost use Rattle.std.specs.Prelude.{ℕ, List, [], OnOk};
ghost use Rattle.sml_modules.specs.Items.{Item};
ghost use Rattle.sml_modules.specs.Adding.{Extends};
ghost use Rattle.row_environments.specs.Placed.{AreValues, ArePlaced, HavePlaces};
ghost use Rattle.row_environments.specs.Answers.{PlacesRow};

use crate::environments::{env_row, type_row};
use crate::values::ValuePlaces;
use cm_base::{List, NoMemory, Text};
use node_bytes::Row;
use row_entries::{EntryRows, note_entry};
use sml_modules::EnvGraph;
use std::alloc::Global;

/// Of each of the first rows which type, type function or scheme it is, and where the type structure or the environment
/// stands in a graph that it is.
#[derive(Drop)]
pub struct ToldRows {
    pub entries: EntryRows,
    pub types: List<Option<usize>>,
    pub envs: List<Option<usize>>,
}

/// What is told of the first rows, and where the values stand that were made of them.
#[derive(Drop)]
pub struct EnvRows {
    pub told: ToldRows,
    pub values: ValuePlaces,
}

impl ToldRows {
    /// No rows.
    fn new(alloc: Global) -> ToldRows
        ensures { (home : List ℕ) (items : List Item) → ArePlaced home items [] result }
    {
        ToldRows {
            entries: EntryRows::new(alloc),
            types: List::new(alloc),
            envs: List::new(alloc),
        }
    }
}

impl EnvRows {
    /// No rows.
    pub fn new(alloc: Global) -> EnvRows
        ensures placed { (home : List ℕ) (items : List Item) → ArePlaced home items [] result.told }
        ensures values { (items : List Item) → AreValues result.told.entries.schemes items result.values }
    {
        EnvRows {
            told: ToldRows::new(alloc),
            values: ValuePlaces::new(alloc),
        }
    }
}

/// Tells what the next row is in the interface of `home`, and adds it to the graph where it is a type structure or an
/// environment. After want of memory the rows are of no use.
pub fn note_env(
    graph: &mut EnvGraph,
    home: &Text,
    rows: &mut EnvRows,
    row: &Row,
) -> Result<(), NoMemory>
    requires { HavePlaces home.now graph.old.items rows.old.told rows.old.values }
    ensures extends { Extends graph.old graph.new }
    ensures values { OnOk result (AreValues rows.new.told.entries.schemes graph.new.items rows.new.values) }
    ensures placed { OnOk result
        (PlacesRow home.now graph.old.items graph.new.items rows.old.told row.now rows.new.told) }
{
    let alloc = graph.alloc();
    let type_place = type_row(graph, &rows.told.entries, row)?;
    let env_place = env_row(graph, &rows.told, &mut rows.values, row)?;
    note_entry(alloc, home, &mut rows.told.entries, row)?;
    rows.told.types.add(type_place)?;
    rows.told.envs.add(env_place)?;
    Ok(())
}
