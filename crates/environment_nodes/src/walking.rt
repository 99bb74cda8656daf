//! A walk over all that stands below a place of a graph.

ghost use Rattle.std.specs.Prelude.{length, IfOk, OnOk};
ghost use Rattle.node_tables.specs.Tables.{Adds};
ghost use Rattle.interface_format.specs.Trees.{env_node, node_of_signature, node_of_functor, top_node};
ghost use Rattle.sml_modules.specs.Items.{at};
ghost use Rattle.sml_modules.specs.Graphs.{env_at, signature_at, functor_at, top_at, HasEnv, HasSignature, HasFunctor, HasTop};
ghost use Rattle.environment_nodes.specs.Written.{item_node, AreWithin, AreWritten, Grows};

use crate::adding::add_item;
use crate::places::NodePlaces;
use cm_base::{List, NoMemory, Text};
use env_parts::{EnvTables, Rows, TopTables};
use node_tables::NodeTable;
use sml_modules::{EnvGraph, EnvId, FunId, Node, SigId, TopId};
use std::alloc::Global;

/// A step of a walk: a node is met, or the parts of a node are done.
#[derive(Clone, Copy)]
enum Step {
    Enter(usize),
    Leave(usize),
}

/// All places of rows are still to be met.
fn enter_rows(alloc: Global, rows: &Rows, steps: &mut List<Step>) -> Result<(), NoMemory> {
    let places = rows.places(alloc)?;
    for place in places.as_slice() {
        steps.add(Step::Enter(*place))?;
    }
    Ok(())
}

/// The parts of an environment are still to be met.
fn enter_env(alloc: Global, tables: &EnvTables, steps: &mut List<Step>) -> Result<(), NoMemory> {
    enter_rows(alloc, &tables.structures, steps)?;
    enter_rows(alloc, &tables.types, steps)?;
    enter_rows(alloc, &tables.values, steps)
}

/// The parts of a unit are still to be met. Of its environment these are the structures.
fn enter_top(graph: &EnvGraph, tables: &TopTables, steps: &mut List<Step>) -> Result<(), NoMemory> {
    let alloc = graph.alloc();
    if let Some(Node::Env(kept)) = graph.node_at(tables.env) {
        enter_rows(alloc, &kept.tables.structures, steps)?;
    }
    enter_rows(alloc, &tables.signatures, steps)?;
    enter_rows(alloc, &tables.functors, steps)?;
    enter_rows(alloc, &tables.funsigs, steps)
}

/// The parts of what stands at a place are still to be met.
fn enter_parts(graph: &EnvGraph, place: usize, steps: &mut List<Step>) -> Result<(), NoMemory> {
    match graph.node_at(place) {
        Some(Node::Env(kept)) => enter_env(graph.alloc(), &kept.tables, steps),
        Some(Node::Signature(sig)) => steps.add(Step::Enter(sig.env)),
        Some(Node::Functor(fun)) => {
            steps.add(Step::Enter(fun.param))?;
            steps.add(Step::Enter(fun.result))
        }
        Some(Node::Top(tables)) => enter_top(graph, tables, steps),
        _ => Ok(()),
    }
}

/// A place is met. Its parts are done before it is left; one that has a node is done.
fn enter(
    graph: &EnvGraph,
    place: usize,
    places: &NodePlaces,
    steps: &mut List<Step>,
) -> Result<(), NoMemory> {
    if places.has(place) {
        return Ok(());
    }
    steps.add(Step::Leave(place))?;
    enter_parts(graph, place, steps)
}

/// Gives the place whose parts have nodes its own.
fn leave(
    graph: &EnvGraph,
    table: &mut NodeTable,
    home: &Text,
    places: &mut NodePlaces,
    place: usize,
) -> Result<(), NoMemory>
    requires within { AreWithin (length table.old) places.old }
    requires written { AreWritten home.now graph.now.items table.old places.old }
    ensures grows { OnOk result (Grows table.old table.new) }
    ensures within { OnOk result (AreWithin (length table.new) places.new) }
    ensures written { OnOk result (AreWritten home.now graph.now.items table.new places.new) }
{
    let node = add_item(graph, table, home, places, place)?;
    places.set(place, node)
}

/// One step.
fn take(
    graph: &EnvGraph,
    table: &mut NodeTable,
    home: &Text,
    places: &mut NodePlaces,
    step: Step,
    steps: &mut List<Step>,
) -> Result<(), NoMemory>
    requires within { AreWithin (length table.old) places.old }
    requires written { AreWritten home.now graph.now.items table.old places.old }
    ensures grows { OnOk result (Grows table.old table.new) }
    ensures within { OnOk result (AreWithin (length table.new) places.new) }
    ensures written { OnOk result (AreWritten home.now graph.now.items table.new places.new) }
{
    match step {
        Step::Enter(place) => enter(graph, place, places, steps),
        Step::Leave(place) => leave(graph, table, home, places, place),
    }
}

/// Gives what stands at a place its node, and what stands below it. Each is done once. What isn't done after 2^64 - 1
/// steps is refused as want of memory is.
fn walk(
    graph: &EnvGraph,
    table: &mut NodeTable,
    home: &Text,
    places: &mut NodePlaces,
    place: usize,
) -> Result<(), NoMemory>
    requires within { AreWithin (length table.old) places.old }
    requires written { AreWritten home.now graph.now.items table.old places.old }
    ensures grows { OnOk result (Grows table.old table.new) }
    ensures within { OnOk result (AreWithin (length table.new) places.new) }
    ensures written { OnOk result (AreWritten home.now graph.now.items table.new places.new) }
{
    let mut steps = List::new(graph.alloc());
    steps.add(Step::Enter(place))?;
    for _ in 0..u64::MAX {
        match steps.pop() {
            Some(step) => take(graph, table, home, places, step, &mut steps)?,
            None => return Ok(()),
        }
    }
    Err(NoMemory)
}

/// Adds the node of what stands at a place, and of all that stands below it.
fn add_place(
    graph: &EnvGraph,
    table: &mut NodeTable,
    home: &Text,
    place: usize,
) -> Result<usize, NoMemory>
    ensures { IfOk result (Adds table.old table.new (item_node home.now (at graph.now.items place))) }
{
    let mut places = NodePlaces::new(graph.alloc());
    walk(graph, table, home, &mut places, place)?;
    places.node_of(place)
}

/// Adds an environment with all that stands in it, in the interface of `home`. Each environment, type structure and
/// value of the graph that stands in it is gone through once.
pub fn add_env(
    graph: &EnvGraph,
    table: &mut NodeTable,
    home: &Text,
    env: EnvId,
) -> Result<usize, NoMemory>
    requires { HasEnv graph.now env }
    ensures { IfOk result (Adds table.old table.new (env_node home.now (env_at graph.now env))) }
{
    add_place(graph, table, home, env.place)
}

/// Adds a signature with its environment, in the interface of `home`.
pub fn add_signature(
    graph: &EnvGraph,
    table: &mut NodeTable,
    home: &Text,
    sig: SigId,
) -> Result<usize, NoMemory>
    requires { HasSignature graph.now sig }
    ensures { IfOk result (Adds table.old table.new (node_of_signature home.now (signature_at graph.now sig))) }
{
    add_place(graph, table, home, sig.place)
}

/// Adds a functor or a signature of functors with its environments, in the interface of `home`.
pub fn add_functor(
    graph: &EnvGraph,
    table: &mut NodeTable,
    home: &Text,
    fun: FunId,
) -> Result<usize, NoMemory>
    requires { HasFunctor graph.now fun }
    ensures { IfOk result (Adds table.old table.new (node_of_functor home.now (functor_at graph.now fun))) }
{
    add_place(graph, table, home, fun.place)
}

/// Adds a unit with all that it defines, in the interface of `home`: its structures, signatures, functors and
/// signatures of functors. What of the graph stands in several of them is gone through once.
pub fn add_top(
    graph: &EnvGraph,
    table: &mut NodeTable,
    home: &Text,
    top: TopId,
) -> Result<usize, NoMemory>
    requires { HasTop graph.now top }
    ensures { IfOk result (Adds table.old table.new (top_node home.now (top_at graph.now top))) }
{
    add_place(graph, table, home, top.place)
}
