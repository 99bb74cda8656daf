//! The names that occur in environments.

ghost use Rattle.std.specs.Prelude.{◌≡◌, map, IfOk, OnOk};
ghost use Rattle.sml_modules.specs.declared.id.EnvId.{EnvId};
ghost use Rattle.std.specs.List.{flat_map};
ghost use Rattle.env_parts.specs.Types.{con_types, type_types, value_types};
ghost use Rattle.realisation.specs.Names.{is_listed, names_in_list, names_of, once};
ghost use Rattle.sml_modules.specs.Items.{at, IsEnv};
ghost use Rattle.sml_modules.specs.Graphs.{env_at, HasEnv};
ghost use Rattle.type_walks.specs.Tables.{AreTold};
ghost use Rattle.environment_walks.specs.declared.steps.Step.TheVariants as step;
ghost use Rattle.name_walks.specs.Noting.{noted_all, Goes};
ghost use Rattle.name_walks.specs.Places.{place_names, Opens, HasAll, names_in_all};

use crate::noting::note_tree;
use cm_base::{List, NoMemory};
use environment_walks::{Images, Step, enter_all, enter_rows};
use semantic_objects::{ConEntry, TyName, TypeStr, ValueEntry};
use sml_modules::{EnvGraph, EnvId, Node};
use std::alloc::Global;
use type_walks::NameTable;

/// Notes the names of constructors.
fn note_cons(alloc: Global, table: &mut NameTable, cons: &List<ConEntry>) -> Result<(), NoMemory>
    requires { AreTold table.old }
    ensures told { OnOk result (AreTold table.new) }
    ensures names { OnOk result
        (table.new.names ≡ noted_all is_listed table.old.names (names_in_list (con_types cons.now))) }
{
    for con in cons.as_slice() {
        note_tree(alloc, table, con.scheme.body())?;
    }
    Ok(())
}

/// Notes the names of a type structure: those of its function before those of its constructors.
fn note_type(alloc: Global, table: &mut NameTable, entry: &TypeStr) -> Result<(), NoMemory>
    requires { AreTold table.old }
    ensures told { OnOk result (AreTold table.new) }
    ensures names { OnOk result
        (table.new.names ≡ noted_all is_listed table.old.names (names_in_list (type_types entry.now))) }
{
    note_tree(alloc, table, &entry.function.body)?;
    note_cons(alloc, table, &entry.cons)
}

/// Notes the names of a value.
fn note_value(alloc: Global, table: &mut NameTable, entry: &ValueEntry) -> Result<(), NoMemory>
    requires { AreTold table.old }
    ensures told { OnOk result (AreTold table.new) }
    ensures names { OnOk result
        (table.new.names ≡ noted_all is_listed table.old.names (names_in_list (value_types entry.now))) }
{
    note_tree(alloc, table, entry.scheme.body())
}

/// Notes the names of the type structure or the value at a place.
fn note_entry(graph: &EnvGraph, table: &mut NameTable, place: usize) -> Result<(), NoMemory>
    requires { AreTold table.old }
    ensures told { OnOk result (AreTold table.new) }
    ensures names { OnOk result
        (table.new.names ≡ noted_all is_listed table.old.names (place_names graph.now.items place)) }
{
    let alloc = graph.alloc();
    match graph.node_at(place) {
        Some(node) => match node {
            Node::TypeStr(kept) => note_type(alloc, table, &kept.entry),
            Node::Value(kept) => note_value(alloc, table, &kept.entry),
            _ => Err(NoMemory),
        },
        None => Err(NoMemory),
    }
}

/// An environment is met for the first time: its structures come before its types, and these before its values.
fn open_env(graph: &EnvGraph, place: usize, steps: &mut List<Step>) -> Result<(), NoMemory>
    requires { IsEnv (at graph.now.items place) }
    ensures { OnOk result (Opens (place_names graph.now.items) place steps.old steps.new) }
{
    let alloc = graph.alloc();
    let tables = graph.env_tables(EnvId { place })?;
    steps.add(Step::Leave(place))?;
    enter_rows(alloc, &tables.values, steps)?;
    enter_rows(alloc, &tables.types, steps)?;
    enter_rows(alloc, &tables.structures, steps)
}

/// A node is met that isn't done. A type structure or a value is done at once.
fn open(
    graph: &EnvGraph,
    table: &mut NameTable,
    place: usize,
    done: &mut Images,
    steps: &mut List<Step>,
) -> Result<(), NoMemory>
    requires { AreTold table.old }
    ensures told { OnOk result (AreTold table.new) }
    ensures goes { OnOk result (Goes is_listed (place_names graph.now.items) (step.Enter place)
        table.old.names table.new.names done.old done.new steps.old steps.new) }
{
    if graph.has_env(EnvId { place }) {
        open_env(graph, place, steps)
    } else {
        note_entry(graph, table, place)?;
        done.set(place, place)
    }
}

/// One step.
fn take(
    graph: &EnvGraph,
    table: &mut NameTable,
    step: Step,
    done: &mut Images,
    steps: &mut List<Step>,
) -> Result<(), NoMemory>
    requires { AreTold table.old }
    ensures told { OnOk result (AreTold table.new) }
    ensures goes { OnOk result (Goes is_listed (place_names graph.now.items) step
        table.old.names table.new.names done.old done.new steps.old steps.new) }
{
    match step {
        Step::Enter(place) => match done.of(place) {
            Some(_) => Ok(()),
            None => open(graph, table, place, done, steps),
        },
        Step::Leave(place) => done.set(place, place),
    }
}

/// Notes the names of what stands at some places. Each node is gone through once. What isn't done after 2^64 - 1 steps
/// is refused as want of memory is.
fn note_all(graph: &EnvGraph, table: &mut NameTable, places: &List<usize>) -> Result<(), NoMemory>
    requires { AreTold table.old }
    ensures { OnOk result (table.new.names
        ≡ noted_all is_listed table.old.names (flat_map (place_names graph.now.items) places.now)) }
{
    let alloc = graph.alloc();
    let mut done = Images::new(alloc);
    let mut steps = List::new(alloc);
    enter_all(places, &mut steps)?;
    for _ in 0..u64::MAX {
        match steps.pop() {
            Some(step) => take(graph, table, step, &mut done, &mut steps)?,
            None => return Ok(()),
        }
    }
    Err(NoMemory)
}

/// The places of environments.
fn places_of(alloc: Global, envs: &List<EnvId>) -> Result<List<usize>, NoMemory>
    ensures { IfOk result (λ places. places ≡ map (λ (id : EnvId). id.place) envs.now) }
{
    let mut places = List::new(alloc);
    for env in envs.as_slice() {
        places.add(env.place)?;
    }
    Ok(places)
}

/// The type names that occur in some environments, each once, in the order of the walk of one after the other.
pub fn names_of_all(graph: &EnvGraph, envs: &List<EnvId>) -> Result<List<TyName>, NoMemory>
    requires { HasAll graph.now envs.now }
    ensures { IfOk result (λ names. names ≡ once (names_in_all graph.now envs.now)) }
{
    let alloc = graph.alloc();
    let places = places_of(alloc, envs)?;
    let mut table = NameTable::new(alloc);
    note_all(graph, &mut table, &places)?;
    Ok(table.names)
}

/// The type names that occur in an environment, each once, in the order of the walk: structures before types, types
/// before values, each by the byte order of their names, and a name before its arguments.
pub fn names_of(graph: &EnvGraph, env: EnvId) -> Result<List<TyName>, NoMemory>
    requires { HasEnv graph.now env }
    ensures { IfOk result (λ names. names ≡ names_of (env_at graph.now env)) }
{
    let mut envs = List::new(graph.alloc());
    envs.add(env)?;
    names_of_all(graph, &envs)
}
