//! The variables that stand in an environment become known. The parts of the graph in which no variable stood when they
//! were made aren't gone through, and each other one is gone through once.

ghost use Rattle.std.specs.Prelude.{◌≡◌, OnOk};
ghost use Rattle.type_nodes.specs.Tables.{state, Has};
ghost use Rattle.known_environments.specs.Known.{AreKnown};

use crate::known::Known;
use cm_base::{List, NoMemory};
use environment_walks::{Images, Step, enter_rows};
use firm_types::open_scheme;
use semantic_objects::{ConEntry, TyId, TypeNode, TypeStr};
use sml_modules::{EnvGraph, EnvId, Node};
use sml_types::TypeTable;
use std::alloc::Global;

/// What stands for a variable of the table becomes known.
fn open_variable(
    alloc: Global,
    t: &mut TypeTable,
    known: &mut Known,
    number: usize,
) -> Result<(), NoMemory>
    requires has { Has t.old (TyId.Variable number) }
    requires known { AreKnown (state t.old).stands known.old }
    ensures known { OnOk result (AreKnown (state t.new).stands known.new) }
    ensures same { t.new ≡ t.old }
{
    let open = open_scheme(alloc, t, TyId::Variable(number))?;
    let parts = open.parts(alloc)?;
    known.add(number, parts.body)
}

/// A variable becomes known, if it isn't yet. One that the table doesn't have is refused as want of memory is.
fn note_variable(
    alloc: Global,
    t: &mut TypeTable,
    known: &mut Known,
    number: usize,
) -> Result<(), NoMemory>
    requires { AreKnown (state t.old).stands known.old }
    ensures known { OnOk result (AreKnown (state t.new).stands known.new) }
    ensures same { t.new ≡ t.old }
{
    if known.of(number).is_some() {
        return Ok(());
    }
    if t.has(TyId::Variable(number)) {
        open_variable(alloc, t, known, number)
    } else {
        Err(NoMemory)
    }
}

/// The variable of a node becomes known, if it is one.
fn note_node(
    alloc: Global,
    t: &mut TypeTable,
    known: &mut Known,
    node: &TypeNode,
) -> Result<(), NoMemory>
    requires { AreKnown (state t.old).stands known.old }
    ensures known { OnOk result (AreKnown (state t.new).stands known.new) }
    ensures same { t.new ≡ t.old }
{
    match node {
        TypeNode::Bound(_) => Ok(()),
        TypeNode::Free(number) => note_variable(alloc, t, known, *number),
        TypeNode::Made(_, _) => Ok(()),
    }
}

/// The variables among the nodes of a type become known.
fn note_nodes(
    alloc: Global,
    t: &mut TypeTable,
    known: &mut Known,
    nodes: &[TypeNode],
) -> Result<(), NoMemory>
    requires { AreKnown (state t.old).stands known.old }
    ensures known { OnOk result (AreKnown (state t.new).stands known.new) }
    ensures same { t.new ≡ t.old }
{
    for node in nodes {
        note_node(alloc, t, known, node)?;
    }
    Ok(())
}

/// The variables in constructors become known.
fn note_cons(
    alloc: Global,
    t: &mut TypeTable,
    known: &mut Known,
    cons: &[ConEntry],
) -> Result<(), NoMemory>
    requires { AreKnown (state t.old).stands known.old }
    ensures known { OnOk result (AreKnown (state t.new).stands known.new) }
    ensures same { t.new ≡ t.old }
{
    for con in cons {
        note_nodes(alloc, t, known, con.scheme.body().nodes())?;
    }
    Ok(())
}

/// The variables in a type structure become known.
fn note_type(
    alloc: Global,
    t: &mut TypeTable,
    known: &mut Known,
    entry: &TypeStr,
) -> Result<(), NoMemory>
    requires { AreKnown (state t.old).stands known.old }
    ensures known { OnOk result (AreKnown (state t.new).stands known.new) }
    ensures same { t.new ≡ t.old }
{
    note_nodes(alloc, t, known, entry.function.body.nodes())?;
    note_cons(alloc, t, known, entry.cons.as_slice())
}

/// The variables in what stands at a place become known. The parts of an environment are to be met then.
fn note_place(
    g: &EnvGraph,
    t: &mut TypeTable,
    known: &mut Known,
    place: usize,
    steps: &mut List<Step>,
) -> Result<(), NoMemory>
    requires { AreKnown (state t.old).stands known.old }
    ensures known { OnOk result (AreKnown (state t.new).stands known.new) }
    ensures same { t.new ≡ t.old }
{
    let alloc = g.alloc();
    match g.node_at(place) {
        Some(Node::TypeStr(kept)) => note_type(alloc, t, known, &kept.entry),
        Some(Node::Value(kept)) => note_nodes(alloc, t, known, kept.entry.scheme.body().nodes()),
        Some(Node::Env(kept)) => {
            enter_rows(alloc, &kept.tables.structures, steps)?;
            enter_rows(alloc, &kept.tables.types, steps)?;
            enter_rows(alloc, &kept.tables.values, steps)
        }
        _ => Ok(()),
    }
}

/// A place is met. It is done once, and not at all where no variable stood when it was made.
fn meet(
    g: &EnvGraph,
    t: &mut TypeTable,
    known: &mut Known,
    place: usize,
    done: &mut Images,
    steps: &mut List<Step>,
) -> Result<(), NoMemory>
    requires { AreKnown (state t.old).stands known.old }
    ensures known { OnOk result (AreKnown (state t.new).stands known.new) }
    ensures same { t.new ≡ t.old }
{
    let facts = g.facts_at(place);
    if !facts.has_free || done.of(place).is_some() {
        return Ok(());
    }
    done.set(place, place)?;
    note_place(g, t, known, place, steps)
}

/// One step.
fn take(
    g: &EnvGraph,
    t: &mut TypeTable,
    known: &mut Known,
    step: Step,
    done: &mut Images,
    steps: &mut List<Step>,
) -> Result<(), NoMemory>
    requires { AreKnown (state t.old).stands known.old }
    ensures known { OnOk result (AreKnown (state t.new).stands known.new) }
    ensures same { t.new ≡ t.old }
{
    match step {
        Step::Enter(place) => meet(g, t, known, place, done, steps),
        Step::Leave(_) => Ok(()),
    }
}

/// The variables that stand in an environment become known. What isn't done after 2^64 - 1 steps is refused as want of
/// memory is.
pub(crate) fn collect(
    g: &EnvGraph,
    t: &mut TypeTable,
    env: EnvId,
    known: &mut Known,
) -> Result<(), NoMemory>
    requires { AreKnown (state t.old).stands known.old }
    ensures known { OnOk result (AreKnown (state t.new).stands known.new) }
    ensures same { t.new ≡ t.old }
{
    let alloc = g.alloc();
    let mut done = Images::new(alloc);
    let mut steps = List::new(alloc);
    steps.add(Step::Enter(env.place))?;
    for _ in 0..u64::MAX {
        match steps.pop() {
            Some(step) => take(g, t, known, step, &mut done, &mut steps)?,
            None => return Ok(()),
        }
    }
    Err(NoMemory)
}
