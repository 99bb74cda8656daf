//! Units on cycles, by one search along edges that finds the strongly connected components.

ghost use Rattle.std.specs.Prelude.{◌≡◌, ◌≢◌, ℕ, false, ◌+◌, ◌^◌, ◌<◌, ◌≤◌, ◌++◌, ◌∷◌, [], length, map, reverse, take, slice_index_or, slice_set, All, Contains, count_by, IfOk, MatchBool, OnOk};
ghost use Rattle.dependency_graph.specs.Order.{AllAreUnits, providers};
ghost use Rattle.dependency_graph.specs.Search.{KeepsMet, is_new, mark_of};
ghost use Rattle.dependency_graph.specs.OnCycles.{AreOnCycles};
ghost use Rattle.dependency_graph.specs.Components.{AreCut, AreMarked, IsClosed, IsFalling, IsHeld, IsLooped, at_place, hold_of, steps_to_go};

use crate::ranks::{Mark, providers_of};
use cm_base::{List, NoMemory};
use std::alloc::Global;

/// The unit is one of the list.
fn is_among(list: &[u32], unit: u32) -> bool
    ensures { MatchBool result (Contains list.now unit) (Contains list.now unit → ⊥) }
{
    for other in list {
        if *other == unit {
            return true;
        }
    }
    false
}

/// Holds a new unit: it is the last on the way, and the first of a group.
fn hold(
    marks: &mut [Mark],
    places: &mut [usize],
    held: &mut Vec<u32>,
    path: &mut Vec<usize>,
    starts: &mut Vec<usize>,
    unit: u32,
) -> Result<(), NoMemory>
    requires marked { unit < length marks.old }
    requires placed { unit < length places.old }
    ensures marks { marks.new ≡ slice_set marks.old unit Mark.Open }
    ensures places { places.new ≡ slice_set places.old unit (length held.old.items) }
    ensures held { OnOk result (held.new.items ≡ held.old.items ++ unit ∷ []) }
    ensures path { OnOk result (path.new.items ≡ path.old.items ++ length held.old.items ∷ []) }
    ensures starts { OnOk result (starts.new.items ≡ starts.old.items ++ length held.old.items ∷ []) }
{
    let place = held.len();
    marks[unit as usize] = Mark::Open;
    places[unit as usize] = place;
    held.push(unit)?;
    path.push(place)?;
    starts.push(place)?;
    Ok(())
}

/// Takes the starts away that are above a place.
fn cut(starts: &mut Vec<usize>, back: usize) -> Result<(), NoMemory>
    requires { IsFalling (reverse starts.old.items) }
    ensures cut { OnOk result (AreCut (reverse starts.old.items) (reverse starts.new.items) back) }
    ensures low { OnOk result ((start : ℕ) → Contains (reverse starts.new.items) start → start ≤ back) }
{
    while let Some(start) = starts.pop() {
        if start <= back {
            starts.push(start)?;
            return Ok(());
        }
    }
    Ok(())
}

/// Notes that each unit of a list is done, with this flag.
fn mark_all(marks: &mut [Mark], flags: &mut [bool], list: &[u32], flag: bool)
    requires marked { All (λ unit. unit < length marks.old) list.now }
    requires flagged { length flags.old ≡ length marks.old }
    ensures marked { AreMarked list.now flag marks.old marks.new flags.old flags.new }
    ensures fewer { count_by is_new marks.new ≤ count_by is_new marks.old }
{
    for unit in list {
        marks[*unit as usize] = Mark::Done;
        flags[*unit as usize] = flag;
    }
}

/// Closes the group from a place on: its units are done, with this flag, and no longer held.
fn close(marks: &mut [Mark], flags: &mut [bool], held: &mut Vec<u32>, top: usize, flag: bool)
    requires marked { All (λ unit. unit < length marks.old) held.old.items }
    requires flagged { length flags.old ≡ length marks.old }
    requires top { top < length held.old.items }
    ensures closed { IsClosed held.old.items top flag marks.old marks.new flags.old flags.new }
    ensures fewer { count_by is_new marks.new ≤ count_by is_new marks.old }
    ensures held { held.new.items ≡ take top held.old.items }
{
    mark_all(marks, flags, &held[top..], flag);
    held.truncate(top);
}

/// The last group has more than one unit, or its one unit is its own provider.
fn is_looped(edges: &[List<u32>], held: &[u32], top: usize) -> bool
    requires top { top < length held.now }
    requires known { at_place held.now top < length edges.now }
    ensures { IsLooped edges.now held.now top result }
{
    let unit = held[top];
    if held.len() - top > 1 {
        true
    } else {
        is_among(providers_of(edges, unit), unit)
    }
}

/// Leaves the last unit of the way, and closes its group where it is the first of that.
fn finish(
    edges: &[List<u32>],
    marks: &mut [Mark],
    places: &[usize],
    left: &[usize],
    flags: &mut [bool],
    held: &mut Vec<u32>,
    path: &[usize],
    starts: &mut Vec<usize>,
    top: usize,
) -> Result<(), NoMemory>
    requires held { IsHeld edges.now
        (hold_of marks.old places.now left.now flags.old held.old.items (path.now ++ top ∷ []) starts.old.items) }
    requires all { at_place left.now (at_place held.old.items top) ≡ 0 }
    ensures held { OnOk result (IsHeld edges.now
        (hold_of marks.new places.now left.now flags.new held.new.items path.now starts.new.items)) }
    ensures keeps { KeepsMet marks.old marks.new }
    ensures fewer { count_by is_new marks.new ≤ count_by is_new marks.old }
{
    match starts.pop() {
        None => Ok(()),
        Some(start) => {
            if start == top {
                let flag = is_looped(edges, held, top);
                close(marks, flags, held, top, flag);
            } else {
                starts.push(start)?;
            }
            Ok(())
        }
    }
}

/// The held unit at a place.
fn held_at(held: &[u32], place: usize) -> u32
    requires { place < length held.now }
    ensures { result ≡ at_place held.now place }
{
    held[place]
}

/// Goes over the next edge of the last unit of the way.
fn go_over(
    edges: &[List<u32>],
    marks: &mut [Mark],
    places: &mut [usize],
    left: &mut [usize],
    flags: &[bool],
    held: &mut Vec<u32>,
    path: &mut Vec<usize>,
    starts: &mut Vec<usize>,
    top: usize,
    unit: u32,
) -> Result<(), NoMemory>
    requires units { AllAreUnits edges.now }
    requires held { IsHeld edges.now
        (hold_of marks.old places.old left.old flags.now held.old.items
        (path.old.items ++ top ∷ []) starts.old.items) }
    requires unit { unit ≡ at_place held.old.items top }
    requires some { 0 < at_place left.old unit }
    requires known { unit < length edges.now }
    requires lefts { length left.old ≡ length edges.now }
    requires few { at_place left.old unit ≤ length (providers edges.now unit) }
    requires marked { length marks.old ≡ length edges.now }
    requires placed { length places.old ≡ length edges.now }
    ensures held { OnOk result (IsHeld edges.now
        (hold_of marks.new places.new left.new flags.now held.new.items path.new.items starts.new.items)) }
    ensures keeps { KeepsMet marks.old marks.new }
    ensures less { OnOk result
        (steps_to_go left.new marks.new path.new.items ≤ steps_to_go left.old marks.old path.old.items) }
{
    let count = left[unit as usize];
    let list = providers_of(edges, unit);
    let provider = list[list.len() - count];
    left[unit as usize] = count - 1;
    path.push(top)?;
    match marks[provider as usize] {
        Mark::Done => Ok(()),
        Mark::Open => {
            cut(starts, places[provider as usize])?;
            Ok(())
        }
        Mark::New => {
            hold(marks, places, held, path, starts, provider)?;
            Ok(())
        }
    }
}

/// Goes over the next edge of the last unit of the way, or leaves that unit.
fn take_step(
    edges: &[List<u32>],
    marks: &mut [Mark],
    places: &mut [usize],
    left: &mut [usize],
    flags: &mut [bool],
    held: &mut Vec<u32>,
    path: &mut Vec<usize>,
    starts: &mut Vec<usize>,
    top: usize,
) -> Result<(), NoMemory>
    requires units { AllAreUnits edges.now }
    requires held { IsHeld edges.now
        (hold_of marks.old places.old left.old flags.old held.old.items
        (path.old.items ++ top ∷ []) starts.old.items) }
    ensures held { OnOk result (IsHeld edges.now
        (hold_of marks.new places.new left.new flags.new held.new.items path.new.items starts.new.items)) }
    ensures keeps { KeepsMet marks.old marks.new }
    ensures less { OnOk result
        (steps_to_go left.new marks.new path.new.items ≤ steps_to_go left.old marks.old path.old.items) }
{
    let unit = held_at(held, top);
    if left[unit as usize] == 0 {
        return finish(edges, marks, places, left, flags, held, path, starts, top);
    }
    go_over(
        edges, marks, places, left, flags, held, path, starts, top, unit,
    )
}

/// Searches all that is below a unit, unless that was met.
fn explore(
    alloc: Global,
    edges: &[List<u32>],
    marks: &mut [Mark],
    places: &mut [usize],
    left: &mut [usize],
    flags: &mut [bool],
    unit: u32,
) -> Result<(), NoMemory>
    requires units { AllAreUnits edges.now }
    requires held { IsHeld edges.now (hold_of marks.old places.old left.old flags.old [] [] []) }
    requires known { unit < length edges.now }
    ensures held { OnOk result (IsHeld edges.now (hold_of marks.new places.new left.new flags.new [] [] [])) }
    ensures keeps { KeepsMet marks.old marks.new }
    ensures met { is_new (mark_of marks.new unit) ≡ false }
{
    match marks[unit as usize] {
        Mark::New => {}
        Mark::Open | Mark::Done => return Ok(()),
    }
    let mut held = Vec::new(alloc);
    let mut path = Vec::new(alloc);
    let mut starts = Vec::new(alloc);
    hold(marks, places, &mut held, &mut path, &mut starts, unit)?;
    while let Some(top) = path.pop() {
        take_step(
            edges,
            marks,
            places,
            left,
            flags,
            &mut held,
            &mut path,
            &mut starts,
            top,
        )?;
    }
    Ok(())
}

/// Searches all units, and leaves for each whether it lies on a cycle.
fn search_all(
    alloc: Global,
    edges: &[List<u32>],
    marks: &mut [Mark],
    places: &mut [usize],
    left: &mut [usize],
    flags: &mut [bool],
) -> Result<(), NoMemory>
    requires units { AllAreUnits edges.now }
    requires few { length edges.now < 2 ^ 32 }
    requires held { IsHeld edges.now (hold_of marks.old places.old left.old flags.old [] [] []) }
    ensures { OnOk result (AreOnCycles edges.now flags.new (length edges.now)) }
{
    for unit in 0..edges.len() {
        explore(alloc, edges, marks, places, left, flags, unit as u32)?;
    }
    Ok(())
}

/// How many providers each unit has.
fn sizes(alloc: Global, edges: &[List<u32>]) -> Result<Vec<usize>, NoMemory>
    ensures { IfOk result (λ sizes. sizes.items ≡ map length edges.now) }
{
    let mut sizes = Vec::new(alloc);
    for list in edges {
        sizes.push(list.len())?;
    }
    Ok(sizes)
}

/// For each unit, whether it lies on a cycle. Units and edges are gone over once.
pub(crate) fn on_cycles(alloc: Global, edges: &[List<u32>]) -> Result<Vec<bool>, NoMemory>
    requires units { AllAreUnits edges.now }
    requires few { length edges.now < 2 ^ 32 }
    ensures { IfOk result (λ flags. AreOnCycles edges.now flags.items (length edges.now)) }
{
    let mut marks = vec![in alloc; Mark::New; edges.len()]?;
    let mut places = vec![in alloc; 0; edges.len()]?;
    let mut left = sizes(alloc, edges)?;
    let mut flags = vec![in alloc; false; edges.len()]?;
    search_all(alloc, edges, &mut marks, &mut places, &mut left, &mut flags)?;
    Ok(flags)
}
