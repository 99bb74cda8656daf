//! A node of an interface is added for a node of a graph whose parts have theirs.

ghost use Rattle.std.specs.Prelude.{length, IfOk};
ghost use Rattle.node_tables.specs.Tables.{Adds};
ghost use Rattle.interface_format.specs.Trees.{env_node, node_of_signature, node_of_functor, top_node};
ghost use Rattle.sml_modules.specs.Items.{at, IsEnv};
ghost use Rattle.sml_modules.specs.Nodes.{AreEnvTables, AreTopTables, env_of_tables, signature_of_node, functor_of_node, top_of_tables};
ghost use Rattle.environment_nodes.specs.Written.{item_node, AreWithin, AreWritten, AddsOver};

use crate::places::NodePlaces;
use crate::rows::{placed_rows, placed_values};
use cm_base::{NoMemory, Text};
use env_parts::{EnvTables, TopTables};
use interface_nodes::{
    EnvPlaces, add_environment, add_functor, add_signature, add_unit, add_whole_scheme,
    add_whole_type,
};
use node_tables::NodeTable;
use sml_modules::{EnvGraph, EnvId, FunNode, Node, SigNode};

/// Adds an environment of these tables.
fn add_env_node(
    graph: &EnvGraph,
    table: &mut NodeTable,
    places: &NodePlaces,
    tables: &EnvTables,
) -> Result<usize, NoMemory>
    requires tables { AreEnvTables graph.now.items tables.now }
    requires within { AreWithin (length table.old) places.now }
    ensures { IfOk result (AddsOver graph.now.items places.now table.old table.new
        (λ home. env_node home (env_of_tables graph.now.items tables.now))) }
{
    let alloc = graph.alloc();
    let rows = EnvPlaces {
        structures: placed_rows(alloc, places, &tables.structures)?,
        types: placed_rows(alloc, places, &tables.types)?,
        values: placed_values(graph, places, &tables.values)?,
    };
    add_environment(alloc, table, &rows)
}

/// Adds a signature.
fn add_signature_node(
    graph: &EnvGraph,
    table: &mut NodeTable,
    places: &NodePlaces,
    sig: &SigNode,
) -> Result<usize, NoMemory>
    requires env { IsEnv (at graph.now.items sig.now.env) }
    requires within { AreWithin (length table.old) places.now }
    ensures { IfOk result (AddsOver graph.now.items places.now table.old table.new
        (λ home. node_of_signature home (signature_of_node graph.now.items sig.now))) }
{
    let env = places.node_of(sig.env)?;
    add_signature(graph.alloc(), table, sig.bound.len(), env)
}

/// Adds a functor or a signature of functors.
fn add_functor_node(
    graph: &EnvGraph,
    table: &mut NodeTable,
    places: &NodePlaces,
    fun: &FunNode,
) -> Result<usize, NoMemory>
    requires param { IsEnv (at graph.now.items fun.now.param) }
    requires body { IsEnv (at graph.now.items fun.now.result) }
    requires within { AreWithin (length table.old) places.now }
    ensures { IfOk result (AddsOver graph.now.items places.now table.old table.new
        (λ home. node_of_functor home (functor_of_node graph.now.items fun.now))) }
{
    let param = places.node_of(fun.param)?;
    let body = places.node_of(fun.result)?;
    add_functor(
        graph.alloc(),
        table,
        fun.bound.len(),
        param,
        fun.further.len(),
        body,
    )
}

/// Adds a unit. Of its environment the structures alone are written.
fn add_top_node(
    graph: &EnvGraph,
    table: &mut NodeTable,
    places: &NodePlaces,
    tables: &TopTables,
) -> Result<usize, NoMemory>
    requires tables { AreTopTables graph.now.items tables.now }
    requires within { AreWithin (length table.old) places.now }
    ensures { IfOk result (AddsOver graph.now.items places.now table.old table.new
        (λ home. top_node home (top_of_tables graph.now.items tables.now))) }
{
    let alloc = graph.alloc();
    let env = graph.env_tables(EnvId { place: tables.env })?;
    let structures = placed_rows(alloc, places, &env.structures)?;
    let signatures = placed_rows(alloc, places, &tables.signatures)?;
    let functors = placed_rows(alloc, places, &tables.functors)?;
    let funsigs = placed_rows(alloc, places, &tables.funsigs)?;
    add_unit(
        alloc,
        table,
        structures.as_slice(),
        signatures.as_slice(),
        functors.as_slice(),
        funsigs.as_slice(),
    )
}

/// Adds the node of what stands at a place, whose parts have theirs.
pub(crate) fn add_item(
    graph: &EnvGraph,
    table: &mut NodeTable,
    home: &Text,
    places: &NodePlaces,
    place: usize,
) -> Result<usize, NoMemory>
    requires within { AreWithin (length table.old) places.now }
    requires written { AreWritten home.now graph.now.items table.old places.now }
    ensures { IfOk result (Adds table.old table.new (item_node home.now (at graph.now.items place))) }
{
    let alloc = graph.alloc();
    match graph.node_at(place) {
        Some(node) => match node {
            Node::TypeStr(kept) => add_whole_type(alloc, table, home, &kept.entry),
            Node::Value(kept) => add_whole_scheme(alloc, table, home, &kept.entry.scheme),
            Node::Env(kept) => add_env_node(graph, table, places, &kept.tables),
            Node::Signature(sig) => add_signature_node(graph, table, places, sig),
            Node::Functor(fun) => add_functor_node(graph, table, places, fun),
            Node::Top(tables) => add_top_node(graph, table, places, tables),
        },
        None => Err(NoMemory),
    }
}
