//! The cycle that is reported: the least unit on any cycle, and its shortest way back to itself.

ghost use Rattle.std.specs.Prelude.{◌≡◌, ◌≢◌, ℕ, suc, None, ◌+◌, ◌^◌, ◌<◌, ◌++◌, ◌∷◌, [], List, length, All, Contains, IfOk, MatchBool, MatchOption, ⊤};
ghost use Rattle.std.specs.Cmp.Lexicographic.{slice_cmp};
ghost use Rattle.std.specs.Ordering.{is_gt, nat_cmp};
ghost use Rattle.dependency_graph.specs.Order.{AllAreUnits, Walk, name_of, providers};
ghost use Rattle.dependency_graph.specs.Cycle.{HasCycle, IsLeastOnCycle, IsNearest, IsNearestCycle, IsOnCycle};
ghost use Rattle.dependency_graph.specs.Distances.{AreDistances, AreUsers, IsBest, IsLoop, distance_of, is_nearer};
ghost use Rattle.dependency_graph.specs.OnCycles.{IsLeastFlag};

use crate::components::on_cycles;
use crate::distances::{distances_to, users_of};
use crate::ranks::providers_of;
use cm_base::{List, NoMemory, Text};
use std::alloc::Global;

/// The first unit is nearer, or as near and its name stands before the other's.
fn comes_first(names: &[Text], distances: &[Option<u32>], unit: u32, other: u32) -> bool
    requires named { unit < length names.now }
    requires known { other < length names.now }
    requires distances { length distances.now ≡ length names.now }
    ensures { result ≡ is_nearer names.now distances.now unit other }
{
    match (distances[unit as usize], distances[other as usize]) {
        (Some(near), Some(far)) => {
            near.cmp(&far)
                .then(names[unit as usize].cmp(&names[other as usize]))
                .is_lt()
        }
        (Some(_), None) => true,
        (None, _) => false,
    }
}

/// The better of the best so far and one more unit.
fn better(names: &[Text], distances: &[Option<u32>], best: Option<u32>, unit: u32) -> Option<u32>
    requires best { MatchOption best ⊤ (λ found. found < length names.now) }
    requires known { unit < length names.now }
    requires distances { length distances.now ≡ length names.now }
    ensures { (list : List ℕ) → IsBest names.now distances.now list best →
        IsBest names.now distances.now (list ++ unit ∷ []) result }
{
    match (distances[unit as usize], best) {
        (None, _) => best,
        (Some(_), None) => Some(unit),
        (Some(_), Some(found)) => {
            if comes_first(names, distances, unit, found) {
                Some(unit)
            } else {
                Some(found)
            }
        }
    }
}

/// Of a list the unit that is nearest to the goal of the distances, the least name among equals.
fn best_of(names: &[Text], distances: &[Option<u32>], list: &[u32]) -> Option<u32>
    requires units { All (λ unit. unit < length names.now) list.now }
    requires distances { length distances.now ≡ length names.now }
    ensures { IsBest names.now distances.now list.now result }
{
    let mut best = None;
    for unit in list {
        best = better(names, distances, best, *unit);
    }
    best
}

/// Of a unit's providers the one that is nearest to the goal, the least name among equals.
fn next_unit(
    names: &[Text],
    edges: &[List<u32>],
    distances: &[Option<u32>],
    goal: u32,
    unit: u32,
) -> u32
    requires units { AllAreUnits edges.now }
    requires named { length edges.now ≡ length names.now }
    requires known { unit < length edges.now }
    requires distances { AreDistances edges.now goal distances.now }
    requires way { (steps : ℕ) × Walk edges.now (suc steps) unit goal }
    ensures { IsNearest names.now edges.now goal unit result }
{
    match best_of(names, distances, providers_of(edges, unit)) {
        Some(next) => next,
        None => unreachable!(),
    }
}

/// The goal and its shortest way back to itself.
fn way_back(
    alloc: Global,
    names: &[Text],
    edges: &[List<u32>],
    distances: &[Option<u32>],
    goal: u32,
) -> Result<List<u32>, NoMemory>
    requires units { AllAreUnits edges.now }
    requires named { length edges.now ≡ length names.now }
    requires known { goal < length edges.now }
    requires distances { AreDistances edges.now goal distances.now }
    requires on { IsOnCycle edges.now goal }
    ensures { IfOk result (λ cycle. IsLoop names.now edges.now goal cycle) }
{
    let mut cycle = Vec::new(alloc);
    cycle.push(goal)?;
    let mut next = next_unit(names, edges, distances, goal, goal);
    'way: while next != goal {
        cycle.push(next)?;
        next = next_unit(names, edges, distances, goal, next);
    }
    Ok(List::from_vec(cycle))
}

/// The first unit's name stands after the other's in byte order.
fn is_after(names: &[Text], unit: u32, other: u32) -> bool
    requires named { unit < length names.now }
    requires known { other < length names.now }
    ensures { result ≡ is_gt (slice_cmp nat_cmp (name_of names.now unit) (name_of names.now other)) }
{
    names[unit as usize].cmp(&names[other as usize]).is_gt()
}

/// The lesser by name of the least unit so far and one more, where that has a flag.
fn lesser(names: &[Text], flags: &[bool], least: Option<u32>, unit: u32) -> Option<u32>
    requires known { unit < length names.now }
    requires flags { length flags.now ≡ length names.now }
    requires least { MatchOption least ⊤ (λ found. found < length names.now) }
    ensures { IsLeastFlag names.now flags.now unit least → IsLeastFlag names.now flags.now (unit + 1) result }
{
    match (flags[unit as usize], least) {
        (false, _) => least,
        (true, None) => Some(unit),
        (true, Some(found)) => {
            if is_after(names, found, unit) {
                Some(unit)
            } else {
                Some(found)
            }
        }
    }
}

/// The unit with the least name of those with a flag.
fn least_of(names: &[Text], flags: &[bool]) -> Option<u32>
    requires flags { length flags.now ≡ length names.now }
    requires few { length names.now < 2 ^ 32 }
    ensures { IsLeastFlag names.now flags.now (length names.now) result }
{
    let mut least = None;
    for unit in 0..names.len() {
        least = lesser(names, flags, least, unit as u32);
    }
    least
}

/// The least unit that lies on a cycle.
fn least_on_cycle(alloc: Global, names: &[Text], edges: &[List<u32>]) -> Result<u32, NoMemory>
    requires lists { length edges.now ≡ length names.now }
    requires few { length names.now < 2 ^ 32 }
    requires units { AllAreUnits edges.now }
    requires cycle { HasCycle edges.now }
    ensures { IfOk result (λ unit. IsLeastOnCycle names.now edges.now unit) }
{
    let flags = on_cycles(alloc, edges)?;
    match least_of(names, flags.as_slice()) {
        Some(unit) => Ok(unit),
        None => unreachable!(),
    }
}

/// The cycle of the least unit that lies on one.
pub(crate) fn nearest_cycle(
    alloc: Global,
    names: &[Text],
    edges: &[List<u32>],
) -> Result<List<u32>, NoMemory>
    requires lists { length edges.now ≡ length names.now }
    requires few { length names.now < 2 ^ 32 }
    requires units { AllAreUnits edges.now }
    requires cycle { HasCycle edges.now }
    ensures { IfOk result (λ cycle. IsNearestCycle names.now edges.now cycle) }
{
    let users = users_of(alloc, edges)?;
    let goal = least_on_cycle(alloc, names, edges)?;
    let distances = distances_to(alloc, edges, users.as_slice(), goal)?;
    Ok(way_back(alloc, names, edges, distances.as_slice(), goal)?)
}
