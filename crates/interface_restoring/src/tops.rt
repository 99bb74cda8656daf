//! The unit that a row is.

ghost use Rattle.std.specs.Prelude.{ℕ, List, IfOk};
ghost use Rattle.sml_modules.specs.Adding.{Extends, Adds};
ghost use Rattle.row_binders.specs.Binders.{AreBound, HaveBound};
ghost use Rattle.interface_restoring.specs.Tops.{FindsTable, FindsUnit, AreUnitTables, FormsTop, PlacesTop, unit_item};

use cm_base::{List, NoMemory};
use env_parts::{EnvTables, Rows, TopTables};
use interface_conditions::are_names;
use interface_nodes::NamedPlace;
use node_bytes::Row;
use row_binders::BinderRows;
use row_environments::{names_of, place_rows};
use row_forms::{UnitForm, unit_form};
use sml_modules::{EnvGraph, Node};
use std::alloc::Global;

/// The tables of a unit by places: under each name what stands in a graph.
#[derive(Drop)]
pub struct UnitTables {
    pub structures: Rows,
    pub signatures: Rows,
    pub functors: Rows,
    pub funsigs: Rows,
}

/// A table of a unit by places, if its names are as the rules ask and each row of it is what it has to be.
fn table_of(
    alloc: Global,
    told: &List<Option<usize>>,
    table: &[NamedPlace],
) -> Result<Option<Rows>, NoMemory>
    ensures { IfOk result (FindsTable told.now table.now) }
{
    let names = names_of(alloc, table)?;
    if !are_names(names.as_slice()) {
        return Ok(None);
    }
    place_rows(alloc, told, table)
}

/// The tables of a unit, if each of them is as the rules ask.
fn tables_of(
    alloc: Global,
    rows: &BinderRows,
    form: &UnitForm,
) -> Result<Option<UnitTables>, NoMemory>
    ensures { IfOk result (FindsUnit rows.now form.now) }
{
    let envs = &rows.envs.told.envs;
    let Some(structures) = table_of(alloc, envs, form.structures.as_slice())? else {
        return Ok(None);
    };
    let Some(signatures) = table_of(alloc, &rows.signatures, form.signatures.as_slice())? else {
        return Ok(None);
    };
    let Some(functors) = table_of(alloc, &rows.functors, form.functors.as_slice())? else {
        return Ok(None);
    };
    let Some(funsigs) = table_of(alloc, &rows.functors, form.funsigs.as_slice())? else {
        return Ok(None);
    };
    Ok(Some(UnitTables {
        structures,
        signatures,
        functors,
        funsigs,
    }))
}

/// Adds the unit of these tables, and before it the environment that has its structures alone. Want of memory may leave
/// that one behind.
pub fn add_unit(graph: &mut EnvGraph, tables: UnitTables) -> Result<usize, NoMemory>
    requires { AreUnitTables graph.old.items tables }
    ensures extends { Extends graph.old graph.new }
    ensures adds { IfOk result (Adds graph.old graph.new (unit_item graph.old.items tables)) }
{
    let alloc = graph.alloc();
    let env = graph.add_env(EnvTables {
        structures: tables.structures,
        types: Rows::new(alloc),
        values: Rows::new(alloc),
    })?;
    graph.add(Node::Top(TopTables {
        env: env.place,
        signatures: tables.signatures,
        functors: tables.functors,
        funsigs: tables.funsigs,
    }))
}

/// The place of the unit that has these fields.
fn top_over(
    graph: &mut EnvGraph,
    rows: &BinderRows,
    form: &UnitForm,
) -> Result<Option<usize>, NoMemory>
    requires { (home : List ℕ) × HaveBound home graph.old.items rows.now }
    ensures extends { Extends graph.old graph.new }
    ensures is { IfOk result (FormsTop rows.now graph.old.items form.now graph.new.items) }
{
    let Some(tables) = tables_of(graph.alloc(), rows, form)? else {
        return Ok(None);
    };
    let place = add_unit(graph, tables)?;
    Ok(Some(place))
}

/// The place of the unit that a row is.
pub(crate) fn top_row(
    graph: &mut EnvGraph,
    rows: &BinderRows,
    row: &Row,
) -> Result<Option<usize>, NoMemory>
    requires { (home : List ℕ) × HaveBound home graph.old.items rows.now }
    ensures extends { Extends graph.old graph.new }
    ensures is { IfOk result (PlacesTop rows.now graph.old.items row.now graph.new.items) }
{
    match row.tag {
        11 => match unit_form(graph.alloc(), row.items.as_slice())? {
            Some(form) => top_over(graph, rows, &form),
            None => Ok(None),
        },
        _ => Ok(None),
    }
}
