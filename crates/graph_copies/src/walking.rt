//! A walk over all that stands below a place of a graph.

ghost use Rattle.std.specs.Prelude.{◌≡◌, Some, IfOk, OnOk, OnErr};
ghost use Rattle.sml_modules.specs.Items.{at};
ghost use Rattle.sml_modules.specs.Graphs.{top_at, HasTop, GivesTop};
ghost use Rattle.sml_modules.specs.Adding.{Extends};
ghost use Rattle.graph_copies.specs.Copied.{AreCopied};

use crate::nodes::copied_node;
use cm_base::{List, NoMemory};
use env_parts::{EnvTables, TopTables};
use environment_walks::{Images, Step, enter_rows};
use sml_modules::{EnvGraph, Node, TopId};
use std::alloc::Global;

/// The parts of an environment are still to be met.
fn enter_env(alloc: Global, tables: &EnvTables, steps: &mut List<Step>) -> Result<(), NoMemory> {
    enter_rows(alloc, &tables.structures, steps)?;
    enter_rows(alloc, &tables.types, steps)?;
    enter_rows(alloc, &tables.values, steps)
}

/// The parts of a top are still to be met.
fn enter_top(alloc: Global, tables: &TopTables, steps: &mut List<Step>) -> Result<(), NoMemory> {
    steps.add(Step::Enter(tables.env))?;
    enter_rows(alloc, &tables.signatures, steps)?;
    enter_rows(alloc, &tables.functors, steps)?;
    enter_rows(alloc, &tables.funsigs, steps)
}

/// The parts of what stands at a place are still to be met.
fn enter_parts(graph: &EnvGraph, place: usize, steps: &mut List<Step>) -> Result<(), NoMemory> {
    match graph.node_at(place) {
        Some(Node::Env(kept)) => enter_env(graph.alloc(), &kept.tables, steps),
        Some(Node::Signature(sig)) => steps.add(Step::Enter(sig.env)),
        Some(Node::Functor(fun)) => {
            steps.add(Step::Enter(fun.param))?;
            steps.add(Step::Enter(fun.result))
        }
        Some(Node::Top(tables)) => enter_top(graph.alloc(), tables, steps),
        _ => Ok(()),
    }
}

/// A place is met. Its parts are done before it is left; one that has an image is done.
fn enter(
    graph: &EnvGraph,
    place: usize,
    images: &Images,
    steps: &mut List<Step>,
) -> Result<(), NoMemory> {
    if images.of(place).is_some() {
        return Ok(());
    }
    steps.add(Step::Leave(place))?;
    enter_parts(graph, place, steps)
}

/// Gives the place whose parts have images its own.
fn leave(
    graph: &EnvGraph,
    into: &mut EnvGraph,
    images: &mut Images,
    place: usize,
) -> Result<(), NoMemory>
    requires { AreCopied graph.now.items into.old.items images.old }
    ensures extends { Extends into.old into.new }
    ensures copied { OnOk result (AreCopied graph.now.items into.new.items images.new) }
{
    let node = copied_node(graph, images, place)?;
    let image = into.add(node)?;
    images.set(place, image)
}

/// One step.
fn take(
    graph: &EnvGraph,
    into: &mut EnvGraph,
    images: &mut Images,
    step: Step,
    steps: &mut List<Step>,
) -> Result<(), NoMemory>
    requires { AreCopied graph.now.items into.old.items images.old }
    ensures extends { Extends into.old into.new }
    ensures copied { OnOk result (AreCopied graph.now.items into.new.items images.new) }
{
    match step {
        Step::Enter(place) => enter(graph, place, images, steps),
        Step::Leave(place) => leave(graph, into, images, place),
    }
}

/// Gives what stands at a place its image, and what stands below it. Each is done once. What isn't done after 2^64 - 1
/// steps is refused as want of memory is.
fn walk(
    graph: &EnvGraph,
    into: &mut EnvGraph,
    images: &mut Images,
    place: usize,
) -> Result<(), NoMemory>
    requires { AreCopied graph.now.items into.old.items images.old }
    ensures extends { Extends into.old into.new }
    ensures copied { OnOk result (AreCopied graph.now.items into.new.items images.new) }
{
    let mut steps = List::new(graph.alloc());
    steps.add(Step::Enter(place))?;
    for _ in 0..u64::MAX {
        match steps.pop() {
            Some(step) => take(graph, into, images, step, &mut steps)?,
            None => return Ok(()),
        }
    }
    Err(NoMemory)
}

/// Copies a top. Want of memory may leave nodes behind.
fn copied(graph: &EnvGraph, into: &mut EnvGraph, top: TopId) -> Result<TopId, NoMemory>
    requires { HasTop graph.now top }
    ensures extends { Extends into.old into.new }
    ensures gives { IfOk result (GivesTop into.old into.new (top_at graph.now top)) }
{
    let mut images = Images::new(graph.alloc());
    walk(graph, into, &mut images, top.place)?;
    match images.of(top.place) {
        Some(place) => Ok(TopId { place }),
        None => Err(NoMemory),
    }
}

/// Copies what stands at the top of a graph to another graph. Each part is copied once, however often it stands there.
/// Names stay those that they are, whoever owns them.
pub fn copy_top(graph: &EnvGraph, into: &mut EnvGraph, top: TopId) -> Result<TopId, NoMemory>
    requires { HasTop graph.now top }
    ensures ok { IfOk result (GivesTop into.old into.new (top_at graph.now top)) }
    ensures err { OnErr result (into.new ≡ into.old) }
{
    let before = into.len();
    match copied(graph, into, top) {
        Ok(id) => Ok(id),
        Err(NoMemory) => {
            into.cut(before);
            Err(NoMemory)
        }
    }
}
