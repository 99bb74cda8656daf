//! Whether an environment may be given, by a walk that does each node once.

ghost use Rattle.std.specs.Prelude.{◌≡◌, ◌↔◌, ◌++◌, ℕ, [], map, true, false, IsTrue, IfOk, OnOk};
ghost use Rattle.semantic_objects.specs.Tables.{IsTable};
ghost use Rattle.sml_modules.specs.Items.{at, as_env, IsEnv};
ghost use Rattle.given_tops.specs.Names.{nodes_of};
ghost use Rattle.given_tops.specs.Fitting.{EnvFits};
ghost use Rattle.given_tops.specs.Walking.{ItemFits, AreFit, AreDone, AreAsked, Asked, step_place};

use crate::entries::{type_fits, value_fits};
use crate::names::Limits;
use cm_base::{List, NoMemory};
use env_parts::{EnvTables, Rows};
use environment_walks::{Images, Step, enter_rows};
use sml_modules::{EnvGraph, EnvId, Node};
use std::alloc::Global;

/// Whether the type structure or the value at a place may be given.
fn entry_fits(g: &EnvGraph, limits: &Limits, place: usize) -> Result<bool, NoMemory>
    ensures { IfOk result (λ fits. IsTrue fits ↔ ItemFits (nodes_of limits.now) (at g.now.items place)) }
{
    let alloc = g.alloc();
    match g.node_at(place) {
        Some(node) => match node {
            Node::TypeStr(kept) => type_fits(alloc, limits, &kept.entry),
            Node::Value(kept) => value_fits(alloc, limits, &kept.entry),
            _ => Err(NoMemory),
        },
        None => Err(NoMemory),
    }
}

/// Whether each of some places is done.
fn are_done(done: &Images, places: &List<usize>) -> bool
    ensures { result ≡ true → AreDone done.now places.now }
{
    for place in places.as_slice() {
        if done.of(*place).is_none() {
            return false;
        }
    }
    true
}

/// Whether what stands in rows is done.
fn are_rows_done(alloc: Global, done: &Images, rows: &Rows) -> Result<bool, NoMemory>
    ensures { IfOk result (λ are. are ≡ true → AreDone done.now (map (λ row. row.1) rows.now)) }
{
    let places = rows.places(alloc)?;
    Ok(are_done(done, &places))
}

/// Whether what stands in the tables of an environment is done.
fn are_tables_done(alloc: Global, done: &Images, tables: &EnvTables) -> Result<bool, NoMemory>
    ensures structures { IfOk result (λ are. are ≡ true → AreDone done.now (map (λ row. row.1) tables.now.structures)) }
    ensures types { IfOk result (λ are. are ≡ true → AreDone done.now (map (λ row. row.1) tables.now.types)) }
    ensures values { IfOk result (λ are. are ≡ true → AreDone done.now (map (λ row. row.1) tables.now.values)) }
{
    let structures = are_rows_done(alloc, done, &tables.structures)?;
    let types = are_rows_done(alloc, done, &tables.types)?;
    let values = are_rows_done(alloc, done, &tables.values)?;
    Ok(structures && types && values)
}

/// Rows rise, as their names tell, which are read for this.
pub(crate) fn rise(alloc: Global, rows: &Rows) -> Result<(), NoMemory>
    ensures { OnOk result (IsTable rows.now) }
{
    rows.names(alloc)?;
    Ok(())
}

/// The tables of an environment rise.
fn tables_rise(alloc: Global, tables: &EnvTables) -> Result<(), NoMemory>
    ensures structures { OnOk result (IsTable tables.now.structures) }
    ensures types { OnOk result (IsTable tables.now.types) }
    ensures values { OnOk result (IsTable tables.now.values) }
{
    rise(alloc, &tables.structures)?;
    rise(alloc, &tables.types)?;
    rise(alloc, &tables.values)
}

/// The environment at a place is done, as all its parts are. Another one is refused as want of memory is.
fn leave(g: &EnvGraph, limits: &Limits, place: usize, done: &mut Images) -> Result<(), NoMemory>
    requires { AreFit (nodes_of limits.now) g.now.items done.old }
    ensures { OnOk result (AreFit (nodes_of limits.now) g.now.items done.new) }
{
    match g.node_at(place) {
        Some(node) => match node {
            Node::Env(kept) => {
                tables_rise(g.alloc(), &kept.tables)?;
                if are_tables_done(g.alloc(), done, &kept.tables)? {
                    done.set(place, place)
                } else {
                    Err(NoMemory)
                }
            }
            _ => Err(NoMemory),
        },
        None => Err(NoMemory),
    }
}

/// The parts of an environment are to be done before it is left. Another place is refused as want of memory is.
fn open(
    g: &EnvGraph,
    limits: &Limits,
    root: usize,
    place: usize,
    steps: &mut List<Step>,
) -> Result<(), NoMemory>
    requires asked { Asked (nodes_of limits.now) g.now.items root place }
    requires steps { AreAsked (nodes_of limits.now) g.now.items root steps.old }
    ensures { OnOk result (AreAsked (nodes_of limits.now) g.now.items root steps.new) }
{
    let alloc = g.alloc();
    match g.node_at(place) {
        Some(node) => match node {
            Node::Env(kept) => {
                steps.add(Step::Leave(place))?;
                enter_rows(alloc, &kept.tables.structures, steps)?;
                enter_rows(alloc, &kept.tables.types, steps)?;
                enter_rows(alloc, &kept.tables.values, steps)
            }
            _ => Err(NoMemory),
        },
        None => Err(NoMemory),
    }
}

/// A type structure or a value is met: whether the walk goes on.
fn meet_entry(
    g: &EnvGraph,
    limits: &Limits,
    place: usize,
    done: &mut Images,
) -> Result<bool, NoMemory>
    requires { AreFit (nodes_of limits.now) g.now.items done.old }
    ensures fit { OnOk result (AreFit (nodes_of limits.now) g.now.items done.new) }
    ensures ends { IfOk result (λ goes. goes ≡ false → ItemFits (nodes_of limits.now) (at g.now.items place) → ⊥) }
{
    if entry_fits(g, limits, place)? {
        done.set(place, place)?;
        Ok(true)
    } else {
        Ok(false)
    }
}

/// A place is met: whether the walk goes on. One that is done isn't gone through again.
fn meet(
    g: &EnvGraph,
    limits: &Limits,
    root: usize,
    place: usize,
    done: &mut Images,
    steps: &mut List<Step>,
) -> Result<bool, NoMemory>
    requires fit { AreFit (nodes_of limits.now) g.now.items done.old }
    requires asked { Asked (nodes_of limits.now) g.now.items root place }
    requires steps { AreAsked (nodes_of limits.now) g.now.items root steps.old }
    ensures fit { OnOk result (AreFit (nodes_of limits.now) g.now.items done.new) }
    ensures steps { OnOk result (AreAsked (nodes_of limits.now) g.now.items root steps.new) }
    ensures ends { IfOk result (λ goes. goes ≡ false → ItemFits (nodes_of limits.now) (at g.now.items root) → ⊥) }
{
    if done.of(place).is_some() {
        return Ok(true);
    }
    if g.has_env(EnvId { place }) {
        open(g, limits, root, place, steps)?;
        Ok(true)
    } else {
        meet_entry(g, limits, place, done)
    }
}

/// One step: whether the walk goes on.
fn take(
    g: &EnvGraph,
    limits: &Limits,
    root: usize,
    step: Step,
    done: &mut Images,
    steps: &mut List<Step>,
) -> Result<bool, NoMemory>
    requires fit { AreFit (nodes_of limits.now) g.now.items done.old }
    requires asked { Asked (nodes_of limits.now) g.now.items root (step_place step) }
    requires steps { AreAsked (nodes_of limits.now) g.now.items root steps.old }
    ensures fit { OnOk result (AreFit (nodes_of limits.now) g.now.items done.new) }
    ensures steps { OnOk result (AreAsked (nodes_of limits.now) g.now.items root steps.new) }
    ensures ends { IfOk result (λ goes. goes ≡ false → ItemFits (nodes_of limits.now) (at g.now.items root) → ⊥) }
{
    match step {
        Step::Enter(place) => meet(g, limits, root, place, done, steps),
        Step::Leave(place) => {
            leave(g, limits, place, done)?;
            Ok(true)
        }
    }
}

/// The answer of a walk that is done. A place that isn't done then is refused as want of memory is.
fn whole(g: &EnvGraph, limits: &Limits, root: usize, done: &Images) -> Result<bool, NoMemory>
    requires { AreFit (nodes_of limits.now) g.now.items done.now }
    ensures { IfOk result (λ fits. IsTrue fits ↔ ItemFits (nodes_of limits.now) (at g.now.items root)) }
{
    if done.of(root).is_some() {
        Ok(true)
    } else {
        Err(NoMemory)
    }
}

/// Whether what stands at a place may be given. What isn't done after 2^64 - 1 steps is refused as want of memory is.
fn walk(g: &EnvGraph, limits: &Limits, root: usize, done: &mut Images) -> Result<bool, NoMemory>
    requires { AreFit (nodes_of limits.now) g.now.items done.old }
    ensures fit { OnOk result (AreFit (nodes_of limits.now) g.now.items done.new) }
    ensures fits { IfOk result (λ fits. IsTrue fits ↔ ItemFits (nodes_of limits.now) (at g.now.items root)) }
{
    let mut steps = List::new(g.alloc());
    steps.add(Step::Enter(root))?;
    for _ in 0..u64::MAX {
        match steps.pop() {
            Some(step) => {
                let goes = take(g, limits, root, step, done, &mut steps)?;
                if !goes {
                    return Ok(false);
                }
            }
            None => return whole(g, limits, root, done),
        }
    }
    Err(NoMemory)
}

/// Whether the environment at a place may be given. What is done isn't gone through again.
pub(crate) fn env_fits(
    g: &EnvGraph,
    limits: &Limits,
    place: usize,
    done: &mut Images,
) -> Result<bool, NoMemory>
    requires env { IsEnv (at g.now.items place) }
    requires fit { AreFit (nodes_of limits.now) g.now.items done.old }
    ensures fit { OnOk result (AreFit (nodes_of limits.now) g.now.items done.new) }
    ensures fits { IfOk result (λ fits. IsTrue fits ↔ EnvFits (nodes_of limits.now) (as_env (at g.now.items place))) }
{
    walk(g, limits, place, done)
}
