//! Cases `order`: the order of units by their providers, or the cycle that stands in its way.

ghost use Rattle.std.specs.Prelude.{◌≡◌, ◌<◌, ◌^◌, length};

use crate::graphs::{all_are_units, are_apart};
use case_files::{Case, CaseFault, Part, Wrong, push_parts};
use cm_base::{List, NoMemory, Text};
use dependency_graph::{OrderFault, UnitOrder, at, order, rank};
use std::alloc::Global;

/// Units: their names, and the places of the providers of each.
#[derive(Drop)]
struct Graph {
    names: List<Text>,
    edges: List<List<u32>>,
}

/// The providers of a unit: a digit each.
fn providers_of(alloc: Global, digits: &[u8]) -> Result<Option<List<u32>>, NoMemory> {
    let mut list = List::new(alloc);
    for digit in digits {
        match *digit {
            b'0'..=b'9' => list.add((*digit - b'0') as u32)?,
            _ => return Ok(None),
        }
    }
    Ok(Some(list))
}

/// The providers of each unit, a comma behind those of each.
fn edges_of(alloc: Global, text: &[u8]) -> Result<Option<List<List<u32>>>, NoMemory> {
    let mut edges = List::new(alloc);
    let [lists @ .., b','] = text else {
        return Ok(if text.is_empty() { Some(edges) } else { None });
    };
    for digits in lists.split(|byte| *byte == b',') {
        let Some(list) = providers_of(alloc, digits)? else {
            return Ok(None);
        };
        edges.add(list)?;
    }
    Ok(Some(edges))
}

/// The graph of a case with these edges.
fn graph_of(alloc: Global, case: &Case, text: &Text) -> Result<Graph, CaseFault> {
    let units = case.the(b"units")?;
    match edges_of(alloc, text.as_bytes())? {
        Some(edges) => Ok(Graph {
            names: List::from_vec(units.words(alloc)?),
            edges,
        }),
        None => Err(CaseFault::Wrong(units.line, Wrong::Words)),
    }
}

/// The name of a unit.
fn name_at(names: &List<Text>, unit: u32) -> &[u8] {
    match names.get(unit as usize) {
        Some(name) => name.as_bytes(),
        None => b"no unit",
    }
}

/// Adds a unit with its rank.
fn push_ranked(alloc: Global, out: &mut Vec<u8>, name: &[u8], rank: u32) -> Result<(), NoMemory> {
    let parts = [
        Part::Text(b" "),
        Part::Text(name),
        Part::Text(b":"),
        Part::Number(u64::from(rank)),
    ];
    push_parts(alloc, out, &parts)
}

/// The line of an order: each unit with its rank.
fn order_line(alloc: Global, names: &List<Text>, found: &UnitOrder) -> Result<Vec<u8>, NoMemory>
    requires counted { length found.now ≡ length names.now }
    requires few { length names.now < 2 ^ 32 }
{
    let mut out = Vec::from_slice(alloc, b"order")?;
    for place in 0..names.len() {
        let unit = at(found, place as u32);
        if (unit as usize) < names.len() {
            push_ranked(alloc, &mut out, name_at(names, unit), rank(found, unit))?;
        }
    }
    out.push(b'\n')?;
    Ok(out)
}

/// The line of a cycle.
fn cycle_line(alloc: Global, names: &List<Text>, units: &[u32]) -> Result<Vec<u8>, NoMemory> {
    let mut out = Vec::from_slice(alloc, b"cycle")?;
    for unit in units {
        push_parts(
            alloc,
            &mut out,
            &[Part::Text(b" "), Part::Text(name_at(names, *unit))],
        )?;
    }
    out.push(b'\n')?;
    Ok(out)
}

/// The order of a graph, or its cycle. None where it is no graph: its lists differ in length, two units have one name,
/// or a provider is no unit.
fn answer_of(alloc: Global, graph: &Graph) -> Result<Option<Vec<u8>>, NoMemory> {
    let (names, edges) = (&graph.names, &graph.edges);
    if edges.len() != names.len() || names.len() >= 0x1_0000_0000 {
        return Ok(None);
    }
    if !all_are_units(edges.as_slice()) || !are_apart(names.as_slice()) {
        return Ok(None);
    }
    match order(alloc, names, edges) {
        Ok(found) => Ok(Some(order_line(alloc, names, &found)?)),
        Err(OrderFault::Cycle(units)) => Ok(Some(cycle_line(alloc, names, units.as_slice())?)),
        Err(OrderFault::NoMemory) => Err(NoMemory),
    }
}

/// The order of units, or a cycle.
pub fn ordered(alloc: Global, case: &Case, text: &Text) -> Result<Vec<u8>, CaseFault> {
    let graph = graph_of(alloc, case, text)?;
    match answer_of(alloc, &graph)? {
        Some(given) => Ok(given),
        None => Err(CaseFault::Wrong(case.line, Wrong::Words)),
    }
}
