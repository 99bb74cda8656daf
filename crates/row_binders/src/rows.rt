//! What the first rows of a table are, in a graph.

ghost use Rattle.std.specs.Prelude.{ℕ, List, [], OnOk};
ghost use Rattle.sml_modules.specs.Items.{Item};
ghost use Rattle.sml_modules.specs.Adding.{Extends};
ghost use Rattle.row_environments.specs.Placed.{AreValues};
ghost use Rattle.row_binders.specs.Binders.{AreBound, HaveBound, PlacesBinder};

use crate::binders::{functor_row, signature_row};
use cm_base::{List, NoMemory, Text};
use node_bytes::Row;
use row_environments::{EnvRows, note_env};
use sml_modules::EnvGraph;
use std::alloc::Global;

/// Of each of the first rows what it is, and where the signature or the functor stands in a graph that it is.
#[derive(Drop)]
pub struct BinderRows {
    pub envs: EnvRows,
    pub signatures: List<Option<usize>>,
    pub functors: List<Option<usize>>,
}

impl BinderRows {
    /// No rows.
    pub fn new(alloc: Global) -> BinderRows
        ensures bound { (home : List ℕ) (items : List Item) → AreBound home items [] result }
        ensures values { (items : List Item) → AreValues result.envs.told.entries.schemes items result.envs.values }
    {
        BinderRows {
            envs: EnvRows::new(alloc),
            signatures: List::new(alloc),
            functors: List::new(alloc),
        }
    }
}

/// Tells what the next row is in the interface of `home`, and adds it to the graph where it is anything but a part of
/// an entry. After want of memory the rows are of no use.
pub fn note_row(
    graph: &mut EnvGraph,
    home: &Text,
    rows: &mut BinderRows,
    row: &Row,
) -> Result<(), NoMemory>
    requires { HaveBound home.now graph.old.items rows.old }
    ensures extends { Extends graph.old graph.new }
    ensures values { OnOk result (AreValues rows.new.envs.told.entries.schemes graph.new.items rows.new.envs.values) }
    ensures bound { OnOk result (PlacesBinder home.now graph.old.items graph.new.items rows.old row.now rows.new) }
{
    let signature = signature_row(graph, &rows.envs.told.envs, row)?;
    let functor = functor_row(graph, &rows.envs.told.envs, row)?;
    note_env(graph, home, &mut rows.envs, row)?;
    rows.signatures.add(signature)?;
    rows.functors.add(functor)?;
    Ok(())
}
