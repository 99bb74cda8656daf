//! Values in a graph: one for each scheme and each status that it is met with.

ghost use Rattle.std.specs.Prelude.{◌≡◌, ℕ, None, IfOk, OnOk};
ghost use Rattle.semantic_objects.specs.declared.entry.VidStatus.{VidStatus};
ghost use Rattle.semantic_objects.specs.Symbols.{AreRising};
ghost use Rattle.environment_walks.specs.Changing.{image_in};
ghost use Rattle.sml_modules.specs.Items.{Item, at};
ghost use Rattle.sml_modules.specs.Adding.{Extends};
ghost use Rattle.row_environments.specs.Placed.{images_for, AreValues, SetsValue};
ghost use Rattle.row_environments.specs.Answers.{PlacesValue, PlacesValues, value_names_of};

use cm_base::NoMemory;
use env_parts::{Rows, value_facts};
use environment_walks::Images;
use interface_nodes::ValuePlace;
use row_entries::EntryRows;
use semantic_objects::{Scheme, ValueEntry, VidStatus};
use sml_modules::{EnvGraph, KeptValue, Node};
use std::alloc::Global;

/// The places of values by the rows of their schemes, for each status.
#[derive(Drop)]
pub struct ValuePlaces {
    pub(crate) variables: Images,
    pub(crate) constructors: Images,
    pub(crate) exceptions: Images,
}

impl ValuePlaces {
    /// No value has a place.
    pub(crate) fn new(alloc: Global) -> ValuePlaces
        ensures { (s : VidStatus) (p : ℕ) → image_in (images_for result s) p ≡ None }
    {
        ValuePlaces {
            variables: Images::new(alloc),
            constructors: Images::new(alloc),
            exceptions: Images::new(alloc),
        }
    }

    /// The place of a value.
    fn of(&self, status: VidStatus, row: usize) -> Option<usize>
        ensures { result ≡ image_in (images_for self.now status) row }
    {
        match status {
            VidStatus::Variable => self.variables.of(row),
            VidStatus::Constructor => self.constructors.of(row),
            VidStatus::Exception => self.exceptions.of(row),
        }
    }

    /// A place for a value.
    fn set(&mut self, status: VidStatus, row: usize, place: usize) -> Result<(), NoMemory>
        ensures { OnOk result (SetsValue self.old self.new status row place) }
    {
        match status {
            VidStatus::Variable => self.variables.set(row, place),
            VidStatus::Constructor => self.constructors.set(row, place),
            VidStatus::Exception => self.exceptions.set(row, place),
        }
    }
}

/// Adds the value of a scheme.
fn add_value(graph: &mut EnvGraph, status: VidStatus, scheme: &Scheme) -> Result<usize, NoMemory>
    ensures extends { Extends graph.old graph.new }
    ensures is { IfOk result (λ place.
        at graph.new.items place ≡ Item.ValueItem (record { status = status; scheme = scheme.now })) }
{
    let alloc = graph.alloc();
    let parts = scheme.parts(alloc)?;
    let scheme = Scheme::make(parts.marks, parts.body)?;
    let entry = ValueEntry { status, scheme };
    let facts = value_facts(alloc, &entry)?;
    graph.add(Node::Value(KeptValue { entry, facts }))
}

/// The place of the value of a row, if its scheme is one. It is added where it has no place yet.
fn value_place(
    graph: &mut EnvGraph,
    entries: &EntryRows,
    places: &mut ValuePlaces,
    row: &ValuePlace,
) -> Result<Option<usize>, NoMemory>
    requires { AreValues entries.now.schemes graph.old.items places.old }
    ensures extends { Extends graph.old graph.new }
    ensures values { OnOk result (AreValues entries.now.schemes graph.new.items places.new) }
    ensures is { IfOk result (PlacesValue entries.now graph.new.items row.now) }
{
    match places.of(row.status, row.place) {
        Some(place) => Ok(Some(place)),
        None => match entries.scheme_at(row.place)? {
            Some(scheme) => {
                let place = add_value(graph, row.status, scheme)?;
                places.set(row.status, row.place, place)?;
                Ok(Some(place))
            }
            None => Ok(None),
        },
    }
}

/// The rows of values by their places, if each has a scheme.
pub(crate) fn value_rows(
    graph: &mut EnvGraph,
    entries: &EntryRows,
    places: &mut ValuePlaces,
    table: &[ValuePlace],
) -> Result<Option<Rows>, NoMemory>
    requires values { AreValues entries.now.schemes graph.old.items places.old }
    requires rising { AreRising (value_names_of table.now) }
    ensures extends { Extends graph.old graph.new }
    ensures values { OnOk result (AreValues entries.now.schemes graph.new.items places.new) }
    ensures rows { IfOk result (PlacesValues entries.now graph.new.items table.now) }
{
    let mut rows = Rows::new(graph.alloc());
    for row in table {
        match value_place(graph, entries, places, row)? {
            Some(place) => rows.set(row.name.copy()?, place)?,
            None => return Ok(None),
        }
    }
    Ok(Some(rows))
}
