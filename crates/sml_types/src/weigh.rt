//! How many nodes a type has as a tree, kept for the next look.

ghost use Rattle.std.specs.Prelude.{◌≡◌, ◌+◌, ◌<◌, ◌≤◌, max, length, IfOk, IfSome};
ghost use Rattle.unification.specs.Types.{size};
ghost use Rattle.type_nodes.specs.Facts.{capped};
ghost use Rattle.type_nodes.specs.Stamps.{Weighs};
ghost use Rattle.type_nodes.specs.Tables.{Has, IsEnd, whole};
ghost use Rattle.sml_types.specs.Sizing.{HaveAll};
ghost use Rattle.sml_types.specs.Weighing.{Weighed, IsUnder, IsWeightOf};

use crate::size::add_all;
use cm_base::{List, NoMemory};
use semantic_objects::TyId;
use std::alloc::Global;
use type_nodes::{LARGE, TypeBindings, Weight};

/// A weight with more to it, where a large size stays the same.
fn more(counted: Weight, by: Weight) -> Weight
    ensures size { result.size ≡ capped (counted.size + by.size) }
    ensures above { result.above ≡ max counted.above by.above }
{
    Weight {
        size: counted.size.saturating_add(by.size).min(LARGE),
        above: counted.above.max(by.above),
    }
}

/// One node, in which there are only variables below a number.
fn one_node(above: usize) -> Weight
    ensures size { result.size ≡ 1 }
    ensures above { result.above ≡ above }
{
    Weight { size: 1, above }
}

/// What is kept of a node's size, where it holds still. From now on it holds until something else is put in.
fn known(table: &mut TypeBindings, at: usize) -> Option<Weight>
    requires { at < length table.old.nodes }
    ensures weighs { IfSome result (Weighs table.old at) }
    ensures same { table.new ≡ table.old }
{
    match table.weight(at) {
        Some(weight) => {
            table.keep_weight(at, weight);
            Some(weight)
        }
        None => None,
    }
}

/// Counts a node in which a variable stands that isn't rigid: with all below it where that is known, and else by itself,
/// with its parts left to be counted.
fn weigh_open(
    table: &mut TypeBindings,
    at: usize,
    counted: Weight,
    left: &mut List<TyId>,
) -> Result<Weight, NoMemory>
    requires has { at < length table.old.nodes }
    requires all { HaveAll table.old left.old }
    requires within { counted.size ≤ 65537 }
    ensures weighed { IfOk result (Weighed table.old (TyId.Made at) counted left.old left.new) }
    ensures same { table.new ≡ table.old }
{
    table.is_kept();
    match known(table, at) {
        Some(weight) => Ok(more(counted, weight)),
        None => {
            add_all(left, &table.node(at).parts)?;
            Ok(more(counted, one_node(0)))
        }
    }
}

/// Counts a node.
fn weigh_node(
    table: &mut TypeBindings,
    at: usize,
    counted: Weight,
    left: &mut List<TyId>,
) -> Result<Weight, NoMemory>
    requires has { at < length table.old.nodes }
    requires all { HaveAll table.old left.old }
    requires within { counted.size ≤ 65537 }
    ensures weighed { IfOk result (Weighed table.old (TyId.Made at) counted left.old left.new) }
    ensures same { table.new ≡ table.old }
{
    table.is_kept();
    let facts = table.facts(at);
    if facts.flexible {
        return weigh_open(table, at, counted, left);
    }
    let size = facts.size;
    Ok(more(counted, Weight { size, above: 0 }))
}

/// Counts a variable for which nothing stands.
fn weigh_variable(
    table: &TypeBindings,
    variable: usize,
    counted: Weight,
    left: &List<TyId>,
) -> Result<Weight, NoMemory>
    requires end { IsEnd table.now (TyId.Variable variable) }
    requires all { HaveAll table.now left.now }
    requires within { counted.size ≤ 65537 }
    ensures { IfOk result (Weighed table.now (TyId.Variable variable) counted left.now left.now) }
{
    match variable.checked_add(1) {
        Some(above) => Ok(more(counted, one_node(above))),
        None => Err(NoMemory),
    }
}

/// Counts what stands at an id: what isn't counted of it is left to be.
fn weigh_one(
    table: &mut TypeBindings,
    id: TyId,
    counted: Weight,
    left: &mut List<TyId>,
) -> Result<Weight, NoMemory>
    requires has { Has table.old id }
    requires all { HaveAll table.old left.old }
    requires within { counted.size ≤ 65537 }
    ensures weighed { IfOk result (Weighed table.old id counted left.old left.new) }
    ensures same { table.new ≡ table.old }
{
    match table.head(id) {
        TyId::Variable(variable) => weigh_variable(table, variable, counted, left),
        TyId::Made(at) => weigh_node(table, at, counted, left),
    }
}

/// The number of nodes of the tree that an id stands for, or `LARGE` where there are so many or more; and a number above
/// its variables that aren't rigid, where it isn't large.
fn weight_of(table: &mut TypeBindings, alloc: Global, id: TyId) -> Result<Weight, NoMemory>
    requires { Has table.old id }
    ensures weight { IfOk result (IsWeightOf table.old id) }
    ensures same { table.new ≡ table.old }
{
    let mut left = List::new(alloc);
    left.add(id)?;
    let mut counted = Weight { size: 0, above: 0 };
    while let Some(id) = left.pop() {
        counted = weigh_one(table, id, counted, &mut left)?;
        if left.len() >= LARGE as usize || counted.size >= LARGE {
            return Ok(Weight {
                size: LARGE,
                above: 0,
            });
        }
    }
    Ok(counted)
}

/// Keeps the size of what an id stands for.
fn keep(table: &mut TypeBindings, id: TyId, weight: Weight)
    requires has { Has table.old id }
    requires size { weight.size ≡ capped (size (whole table.old id)) }
    requires under { IsUnder table.old id weight.above }
    ensures { table.new ≡ table.old }
{
    if let TyId::Made(at) = table.head(id) {
        table.keep_weight(at, weight);
    }
}

/// The number of nodes of the tree that an id stands for, or `LARGE` where there are so many or more. It is kept, so that
/// the next look at it needs no walk.
pub(crate) fn weigh(table: &mut TypeBindings, alloc: Global, id: TyId) -> Result<u32, NoMemory>
    requires { Has table.old id }
    ensures size { IfOk result (λ count. count ≡ capped (size (whole table.old id))) }
    ensures same { table.new ≡ table.old }
{
    let weight = weight_of(table, alloc, id)?;
    if weight.size < LARGE {
        keep(table, id, weight);
    }
    Ok(weight.size)
}
