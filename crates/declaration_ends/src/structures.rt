//! The sizes of types in structures. What is shared is gone through once.

ghost use Rattle.std.specs.Prelude.{◌≡◌, [], IfOk, OnOk};
ghost use Rattle.std.specs.List.{list_any};
ghost use Rattle.semantic_objects.specs.Tables.{with_all};
ghost use Rattle.semantic_objects.specs.Environments.{structures_of};
ghost use Rattle.unification.specs.Types.{Substitution};
ghost use Rattle.type_nodes.specs.Tables.{state};
ghost use Rattle.sml_modules.specs.Items.{at, IsEnv};
ghost use Rattle.sml_modules.specs.Graphs.{HasEnvs, structure_rows};
ghost use Rattle.sml_modules.specs.Adding.{place_rows};
ghost use Rattle.static_semantics.specs.Inferring.{structure_bodies};
ghost use Rattle.environment_walks.specs.declared.steps.Step.TheVariants as step;
ghost use Rattle.declaration_ends.specs.Sizes.{any_large};
ghost use Rattle.declaration_ends.specs.Structures.{large_at, row_places, IsTaken, IsFinished, IsOpened};

use crate::sizes::{is_large, is_large_type};
use cm_base::{List, NoMemory};
use env_parts::Rows;
use environment_walks::{Images, Step, enter_all, enter_rows};
use sml_modules::{EnvGraph, EnvId, NamedEnv, Node};
use sml_types::TypeTable;
use std::alloc::Global;

/// Whether a type of the type structure or of the value at a place is too large.
fn is_large_entry(
    alloc: Global,
    g: &EnvGraph,
    t: &mut TypeTable,
    place: usize,
) -> Result<bool, NoMemory>
    ensures large { IfOk result (λ large. large ≡ large_at (state t.old).stands g.now.items place) }
    ensures same { t.new ≡ t.old }
{
    match g.node_at(place) {
        Some(node) => match node {
            Node::TypeStr(kept) => is_large_type(alloc, t, &kept.entry),
            Node::Value(kept) => {
                let scheme = &kept.entry.scheme;
                is_large(alloc, t, scheme.marks().len(), scheme.body())
            }
            _ => Err(NoMemory),
        },
        None => Err(NoMemory),
    }
}

/// A place is done, unless what stands there is too large.
fn finish(place: usize, large: bool, done: &mut Images) -> Result<bool, NoMemory>
    ensures { IfOk result (IsFinished done.old done.new place large) }
{
    if large {
        return Ok(true);
    }
    done.set(place, place)?;
    Ok(false)
}

/// The parts of an environment are to be met, and then it is done.
fn open_env(g: &EnvGraph, place: usize, steps: &mut List<Step>) -> Result<(), NoMemory>
    requires { IsEnv (at g.now.items place) }
    ensures { OnOk result ((s : Substitution) → IsOpened (large_at s g.now.items) place steps.old steps.new) }
{
    let alloc = g.alloc();
    let tables = g.env_tables(EnvId { place })?;
    steps.add(Step::Leave(place))?;
    enter_rows(alloc, &tables.values, steps)?;
    enter_rows(alloc, &tables.types, steps)?;
    enter_rows(alloc, &tables.structures, steps)
}

/// A place is met that isn't done and in which a variable of a table stands.
fn open(
    alloc: Global,
    g: &EnvGraph,
    t: &mut TypeTable,
    place: usize,
    done: &mut Images,
    steps: &mut List<Step>,
) -> Result<bool, NoMemory>
    ensures taken { IfOk result (IsTaken (large_at (state t.old).stands g.now.items) (step.Enter place)
        done.old done.new steps.old steps.new) }
    ensures same { t.new ≡ t.old }
{
    if g.has_env(EnvId { place }) {
        open_env(g, place, steps)?;
        Ok(false)
    } else {
        let large = is_large_entry(alloc, g, t, place)?;
        finish(place, large, done)
    }
}

/// A place is met that isn't done. Where no variable of a table stands, the size is kept in the graph.
fn enter(
    alloc: Global,
    g: &EnvGraph,
    t: &mut TypeTable,
    place: usize,
    done: &mut Images,
    steps: &mut List<Step>,
) -> Result<bool, NoMemory>
    ensures taken { IfOk result (IsTaken (large_at (state t.old).stands g.now.items) (step.Enter place)
        done.old done.new steps.old steps.new) }
    ensures same { t.new ≡ t.old }
{
    let facts = g.facts_at(place);
    if facts.has_free {
        open(alloc, g, t, place, done, steps)
    } else {
        finish(place, facts.largest > 65_536, done)
    }
}

/// One step: whether a type that is too large was found.
fn take(
    alloc: Global,
    g: &EnvGraph,
    t: &mut TypeTable,
    step: Step,
    done: &mut Images,
    steps: &mut List<Step>,
) -> Result<bool, NoMemory>
    ensures taken { IfOk result (IsTaken (large_at (state t.old).stands g.now.items) step
        done.old done.new steps.old steps.new) }
    ensures same { t.new ≡ t.old }
{
    match step {
        Step::Enter(place) => match done.of(place) {
            Some(_) => Ok(false),
            None => enter(alloc, g, t, place, done, steps),
        },
        Step::Leave(place) => {
            done.set(place, place)?;
            Ok(false)
        }
    }
}

/// Whether a type is too large at any of some places. Each node of the graph is gone through once. What isn't done after
/// 2^64 - 1 steps is refused as want of memory is.
fn any_place_large(
    alloc: Global,
    g: &EnvGraph,
    t: &mut TypeTable,
    places: &List<usize>,
) -> Result<bool, NoMemory>
    ensures large { IfOk result (λ large. large ≡ list_any (large_at (state t.old).stands g.now.items) places.now) }
    ensures same { t.new ≡ t.old }
{
    let mut done = Images::new(alloc);
    let mut steps = List::new(alloc);
    enter_all(places, &mut steps)?;
    for _ in 0..u64::MAX {
        match steps.pop() {
            Some(step) => {
                let found = take(alloc, g, t, step, &mut done, &mut steps)?;
                if found {
                    return Ok(true);
                }
            }
            None => return Ok(false),
        }
    }
    Err(NoMemory)
}

/// The places of the structures that stand under their names at last.
fn last_places(alloc: Global, structures: &List<NamedEnv>) -> Result<List<usize>, NoMemory>
    ensures { IfOk result (λ places. places ≡ row_places (with_all (place_rows structures.now) [])) }
{
    let mut rows = Rows::new(alloc);
    for named in structures.as_slice() {
        let name = named.name.copy()?;
        rows.set(name, named.env.place)?;
    }
    rows.places(alloc)
}

/// Whether a type in the structures is too large that stand under their names at last.
pub(crate) fn any_structure_large(
    alloc: Global,
    g: &EnvGraph,
    t: &mut TypeTable,
    structures: &List<NamedEnv>,
) -> Result<bool, NoMemory>
    requires { HasEnvs g.now structures.now }
    ensures large { IfOk result (λ large. large ≡ any_large (state t.old).stands
        (structure_bodies (structures_of (with_all (structure_rows g.now structures.now) [])))) }
    ensures same { t.new ≡ t.old }
{
    let places = last_places(alloc, structures)?;
    any_place_large(alloc, g, t, &places)
}
