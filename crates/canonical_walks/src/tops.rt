//! The canonical form of all that a unit defines.

ghost use Rattle.std.specs.Prelude.{◌≡◌, map, IfOk, OnOk, OnErr};
ghost use Rattle.std.specs.List.{flat_map};
ghost use Rattle.sml_modules.specs.Items.{Item, at};
ghost use Rattle.sml_modules.specs.Graphs.{top_at, HasTop, GivesTop};
ghost use Rattle.sml_modules.specs.Nodes.{AreTopTables, top_of_tables};
ghost use Rattle.sml_modules.specs.Adding.{Extends};
ghost use Rattle.realisation.specs.Names.{names_in_top};
ghost use Rattle.realisation.specs.Canonical.{met, is_own, canonical};
ghost use Rattle.name_walks.specs.Places.{HasAll, names_in_all};
ghost use Rattle.canonical_types.specs.Orders.{by_order};
ghost use Rattle.canonical_walks.specs.Binders.{NoneBound, binder_names, canonical_by, AddsEnvs, MakesTop};

use crate::binders::canon_rows;
use canonical_types::{Numbering, own_names};
use cm_base::{List, NoMemory};
use env_parts::{Rows, TopTables};
use environment_walks::{Images, change_env};
use name_walks::names_of_all;
use sml_modules::{EnvGraph, EnvId, Node, TopId};

/// Adds the environments of the signature or the functor at a place.
fn add_envs(graph: &EnvGraph, place: usize, envs: &mut List<EnvId>) -> Result<(), NoMemory>
    ensures { OnOk result (AddsEnvs graph.now (binder_names (at graph.now.items place)) envs.old envs.new) }
{
    match graph.node_at(place) {
        Some(Node::Signature(kept)) => envs.add(EnvId { place: kept.env }),
        Some(Node::Functor(kept)) => {
            envs.add(EnvId { place: kept.param })?;
            envs.add(EnvId { place: kept.result })
        }
        _ => Err(NoMemory),
    }
}

/// Adds the environments of rows of signatures or functors.
fn add_rows(graph: &EnvGraph, rows: &Rows, envs: &mut List<EnvId>) -> Result<(), NoMemory>
    ensures { OnOk result (AddsEnvs graph.now
        (flat_map (λ p. binder_names (at graph.now.items p)) (map (λ row. row.1) rows.now)) envs.old envs.new) }
{
    let places = rows.places(graph.alloc())?;
    for place in places.as_slice() {
        add_envs(graph, *place, envs)?;
    }
    Ok(())
}

/// The environments of a top and of its signatures and functors, in the order of the walk.
pub fn envs_of(graph: &EnvGraph, tables: &TopTables) -> Result<List<EnvId>, NoMemory>
    requires { AreTopTables graph.now.items tables.now }
    ensures there { IfOk result (HasAll graph.now) }
    ensures names { IfOk result (λ envs.
        names_in_all graph.now envs ≡ names_in_top (top_of_tables graph.now.items tables.now)) }
{
    let mut envs = List::new(graph.alloc());
    envs.add(EnvId { place: tables.env })?;
    add_rows(graph, &tables.signatures, &mut envs)?;
    add_rows(graph, &tables.functors, &mut envs)?;
    add_rows(graph, &tables.funsigs, &mut envs)?;
    Ok(envs)
}

/// The names of the unit that occur in a top, by first occurrence.
fn own_order(graph: &EnvGraph, tables: &TopTables) -> Result<Numbering, NoMemory>
    requires { AreTopTables graph.now.items tables.now }
    ensures { IfOk result (λ order.
        order ≡ met (is_own graph.now.home) (names_in_top (top_of_tables graph.now.items tables.now))) }
{
    let alloc = graph.alloc();
    let envs = envs_of(graph, tables)?;
    let names = names_of_all(graph, &envs)?;
    let home = graph.home()?;
    let own = own_names(alloc, &names, &home)?;
    Numbering::new(alloc, &own)
}

/// The tables of a top in its canonical form, where these are the unit's own names.
fn canon_tables(
    graph: &mut EnvGraph,
    own: &Numbering,
    tables: &TopTables,
) -> Result<TopTables, NoMemory>
    requires own { NoneBound own.now }
    requires tables { AreTopTables graph.old.items tables.now }
    ensures extends { Extends graph.old graph.new }
    ensures made { IfOk result (MakesTop graph.new.items
        (canonical_by (by_order own.now) (top_of_tables graph.old.items tables.now))) }
{
    let mut images = Images::new(graph.alloc());
    let env = change_env(graph, own, EnvId { place: tables.env }, &mut images)?;
    let signatures = canon_rows(graph, own, &tables.signatures, &mut images)?;
    let functors = canon_rows(graph, own, &tables.functors, &mut images)?;
    let funsigs = canon_rows(graph, own, &tables.funsigs, &mut images)?;
    Ok(TopTables {
        env: env.place,
        signatures,
        functors,
        funsigs,
    })
}

/// The canonical form of a top. Want of memory may leave nodes behind.
fn canon_top(graph: &mut EnvGraph, top: TopId) -> Result<TopId, NoMemory>
    requires { HasTop graph.old top }
    ensures extends { Extends graph.old graph.new }
    ensures gives { IfOk result (GivesTop graph.old graph.new (canonical graph.old.home (top_at graph.old top))) }
{
    let tables = graph.top_tables(top)?.copy()?;
    let own = own_order(graph, &tables)?;
    let made = canon_tables(graph, &own, &tables)?;
    let place = graph.add(Node::Top(made))?;
    Ok(TopId { place })
}

/// The canonical form of a top: the names of the unit that owns the graph are numbered by first occurrence, the names
/// that a signature or a functor binds likewise in it, and the variables of each scheme in its type. Names and
/// variables that don't occur are gone. What is shared is gone through once for the unit's names, and once for each
/// signature and functor in which it stands. It refuses for want of memory alone, as which 2^64 - 1 steps count too.
/// The Definition of Standard ML (Revised), sections 4.2 and 5.1: bound names are no more than their places.
pub fn canon(graph: &mut EnvGraph, top: TopId) -> Result<TopId, NoMemory>
    requires { HasTop graph.old top }
    ensures ok { IfOk result (GivesTop graph.old graph.new (canonical graph.old.home (top_at graph.old top))) }
    ensures err { OnErr result (graph.new ≡ graph.old) }
{
    let before = graph.len();
    match canon_top(graph, top) {
        Ok(id) => Ok(id),
        Err(NoMemory) => {
            graph.cut(before);
            Err(NoMemory)
        }
    }
}
