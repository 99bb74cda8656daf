//! Whether the variables in an environment are among the first ones, by a walk that does each node once.

ghost use Rattle.std.specs.Prelude.{◌≡◌, ◌↔◌, ◌++◌, ℕ, [], map, true, IsTrue, IfOk, OnOk};
ghost use Rattle.sml_modules.specs.Items.{at};
ghost use Rattle.sml_modules.specs.Graphs.{env_at, HasEnv};
ghost use Rattle.environment_ages.specs.Below.{StandsBelow};
ghost use Rattle.environment_ages.specs.Walking.{ItemBelow, AreBelow, AreDone, AreAsked, Asked, GoesOn, step_place};

use crate::entries::{type_is_below, value_is_below};
use cm_base::{List, NoMemory};
use env_parts::{EnvTables, Rows};
use environment_walks::{Images, Step, enter_rows};
use sml_modules::{EnvGraph, EnvId, Node};
use std::alloc::Global;

/// Whether the variables in the type structure or the value at a place are among the first so many.
fn entry_is_below(g: &EnvGraph, count: usize, place: usize) -> Result<bool, NoMemory>
    ensures { IfOk result (λ below. IsTrue below ↔ ItemBelow count (at g.now.items place)) }
{
    let alloc = g.alloc();
    match g.node_at(place) {
        Some(node) => match node {
            Node::TypeStr(kept) => type_is_below(alloc, count, &kept.entry),
            Node::Value(kept) => value_is_below(alloc, count, &kept.entry),
            _ => Err(NoMemory),
        },
        None => Err(NoMemory),
    }
}

/// Whether each of some places is done.
fn are_done(done: &Images, places: &List<usize>) -> bool
    ensures { result ≡ true → AreDone done.now places.now }
{
    for place in places.as_slice() {
        if done.of(*place).is_none() {
            return false;
        }
    }
    true
}

/// Whether what stands in rows is done.
fn are_rows_done(alloc: Global, done: &Images, rows: &Rows) -> Result<bool, NoMemory>
    ensures { IfOk result (λ are. are ≡ true → AreDone done.now (map (λ row. row.1) rows.now)) }
{
    let places = rows.places(alloc)?;
    Ok(are_done(done, &places))
}

/// Whether what stands in the tables of an environment is done.
fn are_tables_done(alloc: Global, done: &Images, tables: &EnvTables) -> Result<bool, NoMemory>
    ensures structures { IfOk result (λ are. are ≡ true → AreDone done.now (map (λ row. row.1) tables.now.structures)) }
    ensures types { IfOk result (λ are. are ≡ true → AreDone done.now (map (λ row. row.1) tables.now.types)) }
    ensures values { IfOk result (λ are. are ≡ true → AreDone done.now (map (λ row. row.1) tables.now.values)) }
{
    let structures = are_rows_done(alloc, done, &tables.structures)?;
    let types = are_rows_done(alloc, done, &tables.types)?;
    let values = are_rows_done(alloc, done, &tables.values)?;
    Ok(structures && types && values)
}

/// The environment at a place is done, as all its parts are. Another one is refused as want of memory is.
fn leave(g: &EnvGraph, count: usize, place: usize, done: &mut Images) -> Result<(), NoMemory>
    requires { AreBelow count g.now.items done.old }
    ensures { OnOk result (AreBelow count g.now.items done.new) }
{
    match g.node_at(place) {
        Some(node) => match node {
            Node::Env(kept) => {
                if are_tables_done(g.alloc(), done, &kept.tables)? {
                    done.set(place, place)
                } else {
                    Err(NoMemory)
                }
            }
            _ => Err(NoMemory),
        },
        None => Err(NoMemory),
    }
}

/// The parts of an environment are to be done before it is left. Another place is refused as want of memory is.
fn open(
    g: &EnvGraph,
    count: usize,
    root: usize,
    place: usize,
    steps: &mut List<Step>,
) -> Result<(), NoMemory>
    requires asked { Asked count g.now.items root place }
    requires steps { AreAsked count g.now.items root steps.old }
    ensures { OnOk result (AreAsked count g.now.items root steps.new) }
{
    let alloc = g.alloc();
    match g.node_at(place) {
        Some(node) => match node {
            Node::Env(kept) => {
                steps.add(Step::Leave(place))?;
                enter_rows(alloc, &kept.tables.structures, steps)?;
                enter_rows(alloc, &kept.tables.types, steps)?;
                enter_rows(alloc, &kept.tables.values, steps)
            }
            _ => Err(NoMemory),
        },
        None => Err(NoMemory),
    }
}

/// A type structure or a value is met: whether the walk goes on.
fn meet_entry(g: &EnvGraph, count: usize, place: usize, done: &mut Images) -> Result<bool, NoMemory>
    requires { AreBelow count g.now.items done.old }
    ensures { IfOk result (λ goes. GoesOn (ItemBelow count (at g.now.items place))
        (AreBelow count g.now.items done.new) goes) }
{
    if entry_is_below(g, count, place)? {
        done.set(place, place)?;
        Ok(true)
    } else {
        Ok(false)
    }
}

/// A place is met: whether the walk goes on. One that is done isn't gone through again.
fn meet(
    g: &EnvGraph,
    count: usize,
    root: usize,
    place: usize,
    done: &mut Images,
    steps: &mut List<Step>,
) -> Result<bool, NoMemory>
    requires below { AreBelow count g.now.items done.old }
    requires asked { Asked count g.now.items root place }
    requires steps { AreAsked count g.now.items root steps.old }
    ensures below { IfOk result (λ goes. GoesOn (ItemBelow count (at g.now.items root))
        (AreBelow count g.now.items done.new) goes) }
    ensures steps { OnOk result (AreAsked count g.now.items root steps.new) }
{
    if done.of(place).is_some() {
        return Ok(true);
    }
    if g.has_env(EnvId { place }) {
        open(g, count, root, place, steps)?;
        Ok(true)
    } else {
        meet_entry(g, count, place, done)
    }
}

/// One step: whether the walk goes on.
fn take(
    g: &EnvGraph,
    count: usize,
    root: usize,
    step: Step,
    done: &mut Images,
    steps: &mut List<Step>,
) -> Result<bool, NoMemory>
    requires below { AreBelow count g.now.items done.old }
    requires asked { Asked count g.now.items root (step_place step) }
    requires steps { AreAsked count g.now.items root steps.old }
    ensures below { IfOk result (λ goes. GoesOn (ItemBelow count (at g.now.items root))
        (AreBelow count g.now.items done.new) goes) }
    ensures steps { OnOk result (AreAsked count g.now.items root steps.new) }
{
    match step {
        Step::Enter(place) => meet(g, count, root, place, done, steps),
        Step::Leave(place) => {
            leave(g, count, place, done)?;
            Ok(true)
        }
    }
}

/// The answer of a walk that is done. A place that isn't done then is refused as want of memory is.
fn whole(g: &EnvGraph, count: usize, root: usize, done: &Images) -> Result<bool, NoMemory>
    requires { AreBelow count g.now.items done.now }
    ensures { IfOk result (λ below. IsTrue below ↔ ItemBelow count (at g.now.items root)) }
{
    if done.of(root).is_some() {
        Ok(true)
    } else {
        Err(NoMemory)
    }
}

/// Whether the variables in what stands at a place are among the first so many. What isn't done after 2^64 - 1 steps is
/// refused as want of memory is.
fn walk(g: &EnvGraph, count: usize, root: usize) -> Result<bool, NoMemory>
    ensures { IfOk result (λ below. IsTrue below ↔ ItemBelow count (at g.now.items root)) }
{
    let alloc = g.alloc();
    let mut done = Images::new(alloc);
    let mut steps = List::new(alloc);
    steps.add(Step::Enter(root))?;
    for _ in 0..u64::MAX {
        match steps.pop() {
            Some(step) => {
                let goes = take(g, count, root, step, &mut done, &mut steps)?;
                if !goes {
                    return Ok(false);
                }
            }
            None => return whole(g, count, root, &done),
        }
    }
    Err(NoMemory)
}

/// Whether an environment is one of a table with so many variables: each variable of a table that stands in its types is
/// among the first so many. Each node of the graph is gone through once, and each node of a type that stands there.
pub fn is_below(g: &EnvGraph, env: EnvId, count: usize) -> Result<bool, NoMemory>
    requires { HasEnv g.now env }
    ensures { IfOk result (λ below. IsTrue below ↔ StandsBelow count (env_at g.now env)) }
{
    walk(g, count, env.place)
}
