//! An environment with other types, by a walk that does each node once.

ghost use Rattle.std.specs.Prelude.{◌≡◌, true, IfOk, OnOk};
ghost use Rattle.sml_modules.specs.Items.{Item, at, IsEnv};
ghost use Rattle.sml_modules.specs.Graphs.{env_at, HasEnv};
ghost use Rattle.sml_modules.specs.Nodes.{node_item, IsNodeAfter};
ghost use Rattle.sml_modules.specs.Adding.{Extends};
ghost use Rattle.realisation.specs.Environments.{changed};
ghost use Rattle.environment_walks.specs.Changing.{IsChanged, AreChanged, MakesOf, MakesNode, MakesTables, IsChangedEnv};

use crate::places::Images;
use crate::rows::{are_tables_kept, mapped_rows};
use crate::steps::{Step, enter_rows};
use cm_base::{List, NoMemory};
use env_parts::{EnvTables, Facts, type_facts, value_facts};
use semantic_objects::{TypeStr, ValueEntry};
use sml_modules::{EnvGraph, EnvId, KeptType, KeptValue, Kind, Node};
use std::alloc::Global;

/// What becomes of the types that stand in an environment.
pub trait TypeChanges {
    ghost use Rattle.realisation.specs.Environments.{Change, changed_type, changed_value};
    ghost use Rattle.type_walks.specs.Replaced.{Becomes};
    ghost use Rattle.environment_walks.specs.Changing.{KeepsAllWith};

    ghost change: { Self → Change };

    /// What becomes of a type structure, and none where it stays.
    fn changed_type(&self, alloc: Global, entry: &TypeStr) -> Result<Option<TypeStr>, NoMemory>
        ensures { IfOk result (Becomes entry.now (changed_type (change self.now) entry.now)) };

    /// What becomes of a value, and none where it stays.
    fn changed_value(
        &self,
        alloc: Global,
        entry: &ValueEntry,
    ) -> Result<Option<ValueEntry>, NoMemory>
        ensures { IfOk result (Becomes entry.now (changed_value (change self.now) entry.now)) };

    /// Whether each environment of which these are the facts stays, as far as facts tell.
    fn keeps_all_with(&self, facts: Facts) -> bool
        ensures { result ≡ true → KeepsAllWith (change self.now) facts };
}

/// A node for what becomes of a type structure, and none where it stays.
fn made_type<C: TypeChanges>(
    alloc: Global,
    by: &C,
    kept: &KeptType,
) -> Result<Option<Node>, NoMemory>
    ensures { IfOk result (MakesOf (C.change by.now) (Item.TypeItem kept.now.entry)) }
{
    match by.changed_type(alloc, &kept.entry)? {
        Some(entry) => {
            let facts = type_facts(alloc, &entry)?;
            Ok(Some(Node::TypeStr(KeptType { entry, facts })))
        }
        None => Ok(None),
    }
}

/// A node for what becomes of a value, and none where it stays.
fn made_value<C: TypeChanges>(
    alloc: Global,
    by: &C,
    kept: &KeptValue,
) -> Result<Option<Node>, NoMemory>
    ensures { IfOk result (MakesOf (C.change by.now) (Item.ValueItem kept.now.entry)) }
{
    match by.changed_value(alloc, &kept.entry)? {
        Some(entry) => {
            let facts = value_facts(alloc, &entry)?;
            Ok(Some(Node::Value(KeptValue { entry, facts })))
        }
        None => Ok(None),
    }
}

/// A node for what becomes of the type structure or the value at a place, and none where it stays.
fn made_entry<C: TypeChanges>(
    graph: &EnvGraph,
    by: &C,
    place: usize,
) -> Result<Option<Node>, NoMemory>
    ensures { IfOk result (MakesNode (C.change by.now) graph.now.items place) }
{
    let alloc = graph.alloc();
    match graph.node_at(place) {
        Some(node) => match node {
            Node::TypeStr(kept) => made_type(alloc, by, kept),
            Node::Value(kept) => made_value(alloc, by, kept),
            _ => Err(NoMemory),
        },
        None => Err(NoMemory),
    }
}

/// The tables of what becomes of the environment at a place whose parts are done, and none where it stays.
fn made_tables<C: TypeChanges>(
    graph: &EnvGraph,
    by: &C,
    images: &Images,
    place: usize,
) -> Result<Option<EnvTables>, NoMemory>
    requires env { IsEnv (at graph.now.items place) }
    requires changed { AreChanged (C.change by.now) graph.now.items images.now }
    ensures { IfOk result (MakesTables (C.change by.now) graph.now.items place) }
{
    let alloc = graph.alloc();
    let tables = graph.env_tables(EnvId { place })?;
    if are_tables_kept(alloc, images, tables)? {
        return Ok(None);
    }
    Ok(Some(EnvTables {
        structures: mapped_rows(alloc, images, &tables.structures)?,
        types: mapped_rows(alloc, images, &tables.types)?,
        values: mapped_rows(alloc, images, &tables.values)?,
    }))
}

/// Gives the type structure or the value at a place its image.
fn finish_entry<C: TypeChanges>(
    graph: &mut EnvGraph,
    by: &C,
    place: usize,
    images: &mut Images,
) -> Result<(), NoMemory>
    requires { AreChanged (C.change by.now) graph.old.items images.old }
    ensures extends { Extends graph.old graph.new }
    ensures changed { OnOk result (AreChanged (C.change by.now) graph.new.items images.new) }
{
    match made_entry(graph, by, place)? {
        Some(node) => {
            let image = graph.add(node)?;
            images.set(place, image)
        }
        None => images.set(place, place),
    }
}

/// Gives the environment at a place whose parts have images its own.
fn finish_env<C: TypeChanges>(
    graph: &mut EnvGraph,
    by: &C,
    place: usize,
    images: &mut Images,
) -> Result<(), NoMemory>
    requires env { IsEnv (at graph.old.items place) }
    requires changed { AreChanged (C.change by.now) graph.old.items images.old }
    ensures extends { Extends graph.old graph.new }
    ensures changed { OnOk result (AreChanged (C.change by.now) graph.new.items images.new) }
{
    match made_tables(graph, by, images, place)? {
        Some(tables) => {
            let image = graph.add_env(tables)?;
            images.set(place, image.place)
        }
        None => images.set(place, place),
    }
}

/// Gives what stands at a place its image.
fn finish<C: TypeChanges>(
    graph: &mut EnvGraph,
    by: &C,
    place: usize,
    images: &mut Images,
) -> Result<(), NoMemory>
    requires { AreChanged (C.change by.now) graph.old.items images.old }
    ensures extends { Extends graph.old graph.new }
    ensures changed { OnOk result (AreChanged (C.change by.now) graph.new.items images.new) }
{
    if graph.has_env(EnvId { place }) {
        finish_env(graph, by, place, images)
    } else {
        finish_entry(graph, by, place, images)
    }
}

/// Whether an environment stands at a place that stays, as its facts tell.
fn is_env_kept<C: TypeChanges>(graph: &EnvGraph, by: &C, place: usize) -> bool
    ensures { result ≡ true → IsChanged (C.change by.now) (at graph.now.items place) (at graph.now.items place) }
{
    graph.has_env(EnvId { place }) && by.keeps_all_with(graph.facts_at(place))
}

/// A node is met. One that has an image is done, and so is an environment whose facts tell that it stays.
fn enter<C: TypeChanges>(
    graph: &EnvGraph,
    by: &C,
    place: usize,
    images: &mut Images,
    steps: &mut List<Step>,
) -> Result<(), NoMemory>
    requires { AreChanged (C.change by.now) graph.now.items images.old }
    ensures { OnOk result (AreChanged (C.change by.now) graph.now.items images.new) }
{
    if images.of(place).is_some() {
        return Ok(());
    }
    if is_env_kept(graph, by, place) {
        return images.set(place, place);
    }
    enter_parts(graph, place, steps)
}

/// The parts of a node are done before it is left.
fn enter_parts(graph: &EnvGraph, place: usize, steps: &mut List<Step>) -> Result<(), NoMemory> {
    steps.add(Step::Leave(place))?;
    let alloc = graph.alloc();
    match graph.node_at(place) {
        Some(Node::Env(kept)) => {
            enter_rows(alloc, &kept.tables.structures, steps)?;
            enter_rows(alloc, &kept.tables.types, steps)?;
            enter_rows(alloc, &kept.tables.values, steps)
        }
        _ => Ok(()),
    }
}

/// One step.
fn take<C: TypeChanges>(
    graph: &mut EnvGraph,
    by: &C,
    step: Step,
    images: &mut Images,
    steps: &mut List<Step>,
) -> Result<(), NoMemory>
    requires { AreChanged (C.change by.now) graph.old.items images.old }
    ensures extends { Extends graph.old graph.new }
    ensures changed { OnOk result (AreChanged (C.change by.now) graph.new.items images.new) }
{
    match step {
        Step::Enter(place) => enter(graph, by, place, images, steps),
        Step::Leave(place) => finish(graph, by, place, images),
    }
}

/// Gives what stands at a place its image, and what stands below it. Each node is done once. What isn't done after
/// 2^64 - 1 steps is refused as want of memory is.
fn walk<C: TypeChanges>(
    graph: &mut EnvGraph,
    by: &C,
    place: usize,
    images: &mut Images,
) -> Result<(), NoMemory>
    requires { AreChanged (C.change by.now) graph.old.items images.old }
    ensures extends { Extends graph.old graph.new }
    ensures changed { OnOk result (AreChanged (C.change by.now) graph.new.items images.new) }
{
    let mut steps = List::new(graph.alloc());
    steps.add(Step::Enter(place))?;
    for _ in 0..u64::MAX {
        match steps.pop() {
            Some(step) => take(graph, by, step, images, &mut steps)?,
            None => return Ok(()),
        }
    }
    Err(NoMemory)
}

/// What becomes of an environment, after a walk of which the images are. Parts that have an image aren't gone through
/// again, and a part that stays keeps its id. Want of memory may leave nodes behind.
pub fn change_env<C: TypeChanges>(
    graph: &mut EnvGraph,
    by: &C,
    env: EnvId,
    images: &mut Images,
) -> Result<EnvId, NoMemory>
    requires env { HasEnv graph.old env }
    requires changed { AreChanged (C.change by.now) graph.old.items images.old }
    ensures extends { Extends graph.old graph.new }
    ensures changed { OnOk result (AreChanged (C.change by.now) graph.new.items images.new) }
    ensures env { IfOk result (IsChangedEnv (C.change by.now) graph.old env graph.new) }
{
    walk(graph, by, env.place, images)?;
    match images.of(env.place) {
        Some(place) => Ok(EnvId { place }),
        None => Err(NoMemory),
    }
}
