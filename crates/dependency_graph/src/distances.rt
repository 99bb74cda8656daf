//! Distances of all units to one of them, by a search from it over each unit's users, level by level.

ghost use Rattle.std.specs.Prelude.{◌≡◌, ℕ, ◌+◌, ◌^◌, ◌<◌, List, [], ◌∷◌, ◌++◌, length, replicate, slice_index_or, slice_set, All, Contains, IfOk, OnOk, Option};
ghost use Rattle.dependency_graph.specs.Order.{AllAreUnits, providers};
ghost use Rattle.dependency_graph.specs.Distances.{AddsUser, AreDistances, AreUsers, IsLevel, IsUserOf, Spreads};

use crate::ranks::providers_of;
use cm_base::{List, NoMemory};
use std::alloc::Global;

/// So many empty lists.
fn empty_lists(alloc: Global, count: usize) -> Result<Vec<List<u32>>, NoMemory>
    ensures { IfOk result (λ lists. lists.items ≡ replicate count []) }
{
    let mut lists = Vec::new(alloc);
    for _at in 0..count {
        lists.push(List::new(alloc))?;
    }
    Ok(lists)
}

/// Adds a user to a unit's list.
fn add_user(users: &mut [List<u32>], unit: u32, user: u32) -> Result<(), NoMemory>
    requires { unit < length users.old }
    ensures { OnOk result (users.new ≡ slice_set users.old unit (providers users.old unit ++ user ∷ [])) }
{
    match users[unit as usize].push(user) {
        Ok(()) => Ok(()),
        Err(_) => Err(NoMemory),
    }
}

/// Adds a user to the list of each of its providers.
fn add_to_all(users: &mut [List<u32>], list: &[u32], user: u32) -> Result<(), NoMemory>
    requires { All (λ unit. unit < length users.old) list.now }
    ensures { OnOk result (AddsUser users.old users.new list.now user) }
{
    for unit in list {
        add_user(users, *unit, user)?;
    }
    Ok(())
}

/// Adds each unit to the lists of its providers.
fn add_users(edges: &[List<u32>], users: &mut [List<u32>]) -> Result<(), NoMemory>
    requires units { AllAreUnits edges.now }
    requires few { length edges.now < 2 ^ 32 }
    requires empty { users.old ≡ replicate (length edges.now) [] }
    ensures { OnOk result (AreUsers edges.now users.new (length edges.now)) }
{
    for user in 0..edges.len() {
        add_to_all(users, edges[user].as_slice(), user as u32)?;
    }
    Ok(())
}

/// The users of each unit.
pub(crate) fn users_of(alloc: Global, edges: &[List<u32>]) -> Result<List<List<u32>>, NoMemory>
    requires units { AllAreUnits edges.now }
    requires few { length edges.now < 2 ^ 32 }
    ensures { IfOk result (λ users. AreUsers edges.now users (length edges.now)) }
{
    let mut users = empty_lists(alloc, edges.len())?;
    add_users(edges, &mut users)?;
    Ok(List::from_vec(users))
}

/// Notes a distance for a unit that has none yet.
fn note(
    distances: &mut [Option<u32>],
    next: &mut Vec<u32>,
    unit: u32,
    steps: u32,
) -> Result<(), NoMemory>
    requires { unit < length distances.old }
    ensures { OnOk result
        (Spreads (λ met. met ≡ unit) steps distances.old distances.new next.old.items next.new.items) }
{
    match distances[unit as usize] {
        Some(_) => Ok(()),
        None => {
            distances[unit as usize] = Some(steps);
            next.push(unit)?;
            Ok(())
        }
    }
}

/// Notes a distance for each unit of a list that has none yet.
fn note_all(
    distances: &mut [Option<u32>],
    next: &mut Vec<u32>,
    list: &[u32],
    steps: u32,
) -> Result<(), NoMemory>
    requires { All (λ unit. unit < length distances.old) list.now }
    ensures { OnOk result
        (Spreads (Contains list.now) steps distances.old distances.new next.old.items next.new.items) }
{
    for unit in list {
        note(distances, next, *unit, steps)?;
    }
    Ok(())
}

/// Notes a distance for each user of these units that has none yet.
fn widen(
    users: &[List<u32>],
    distances: &mut [Option<u32>],
    next: &mut Vec<u32>,
    now: &[u32],
    steps: u32,
) -> Result<(), NoMemory>
    requires units { AllAreUnits users.now }
    requires counted { length distances.old ≡ length users.now }
    requires known { All (λ unit. unit < length users.now) now.now }
    ensures { OnOk result
        (Spreads (IsUserOf users.now now.now) steps distances.old distances.new next.old.items next.new.items) }
{
    for unit in now {
        note_all(distances, next, providers_of(users, *unit), steps)?;
    }
    Ok(())
}

/// One step more.
fn one_more(steps: u32) -> Result<u32, NoMemory>
    ensures { IfOk result (λ more. more ≡ steps + 1) }
{
    Ok(steps.checked_add(1).ok_or(NoMemory)?)
}

/// Notes the distance of each unit from which a walk leads to the goal.
fn spread_from(
    alloc: Global,
    edges: &[List<u32>],
    users: &[List<u32>],
    distances: &mut [Option<u32>],
    goal: u32,
) -> Result<(), NoMemory>
    requires users { AreUsers edges.now users.now (length edges.now) }
    requires empty { distances.old ≡ replicate (length edges.now) None }
    requires known { goal < length edges.now }
    ensures { OnOk result (AreDistances edges.now goal distances.new) }
{
    let mut steps = 0;
    let mut now = Vec::new(alloc);
    distances[goal as usize] = Some(steps);
    now.push(goal)?;
    'levels: while !now.is_empty() {
        steps = one_more(steps)?;
        let mut next = Vec::new(alloc);
        widen(users, distances, &mut next, &now, steps)?;
        now = next;
    }
    Ok(())
}

/// The distance of each unit to the goal, and `None` exactly where no walk leads to it.
pub(crate) fn distances_to(
    alloc: Global,
    edges: &[List<u32>],
    users: &[List<u32>],
    goal: u32,
) -> Result<List<Option<u32>>, NoMemory>
    requires users { AreUsers edges.now users.now (length edges.now) }
    requires known { goal < length edges.now }
    ensures { IfOk result (λ distances. AreDistances edges.now goal distances) }
{
    let mut distances = vec![in alloc; None; edges.len()]?;
    spread_from(alloc, edges, users, &mut distances, goal)?;
    Ok(List::from_vec(distances))
}
