//! Cases `large-order`: the order of thousands of units, which are made by a rule.

ghost use Rattle.std.specs.Prelude.{◌≡◌, ◌<◌, ◌^◌, length};

use crate::graphs::{all_are_units, are_apart};
use case_files::{Case, CaseFault, Part, Wrong, number_of, push_parts};
use case_texts::words_of;
use cm_base::{List, NoMemory, Text};
use dependency_graph::{OrderFault, UnitOrder, at, order, rank};
use std::alloc::Global;

/// How many units there are, how many providers each has at most, and the one that the first has.
#[derive(Clone, Copy)]
struct Rule {
    count: u32,
    most: u32,
    first: Option<u32>,
}

/// The rule that words write.
fn rule_of(words: &[Text]) -> Option<Rule> {
    match words {
        [count, most] => Some(Rule {
            count: number_of(count.as_bytes())?,
            most: number_of(most.as_bytes())?,
            first: None,
        }),
        [count, most, first] => Some(Rule {
            count: number_of(count.as_bytes())?,
            most: number_of(most.as_bytes())?,
            first: Some(number_of(first.as_bytes())?),
        }),
        _ => None,
    }
}

/// The names of units: their numbers in four bytes.
fn names_of(alloc: Global, rule: Rule) -> Result<List<Text>, NoMemory> {
    let mut names = List::new(alloc);
    for unit in 0..rule.count {
        names.add(Text::from_bytes(alloc, &unit.to_be_bytes())?)?;
    }
    Ok(names)
}

/// The providers of a unit: those right before it, and for the first the one of the rule.
fn providers_of(alloc: Global, rule: Rule, unit: u32) -> Result<List<u32>, NoMemory> {
    let mut list = List::new(alloc);
    if let (0, Some(provider)) = (unit, rule.first) {
        list.add(provider)?;
    }
    for back in 0..rule.most.min(unit) {
        list.add(unit - back - 1)?;
    }
    Ok(list)
}

/// The providers of each unit.
fn edges_of(alloc: Global, rule: Rule) -> Result<List<List<u32>>, NoMemory> {
    let mut edges = List::new(alloc);
    for unit in 0..rule.count {
        edges.add(providers_of(alloc, rule, unit)?)?;
    }
    Ok(edges)
}

/// How many places of an order have another unit than that of their number, or one whose rank isn't that number.
fn strange_places(count: usize, found: &UnitOrder) -> u32
    requires counted { length found.now ≡ count }
    requires few { count < 2 ^ 32 }
{
    let mut strange = 0u32;
    for place in 0..count {
        let unit = at(found, place as u32);
        if unit as usize != place || rank(found, unit) as usize != place {
            strange = strange.saturating_add(1);
        }
    }
    strange
}

/// The line of an order.
fn order_line(alloc: Global, count: usize, strange: u32) -> Result<Vec<u8>, NoMemory> {
    let mut out = Vec::new(alloc);
    let parts = [
        Part::Text(b"order of "),
        Part::Number(count as u64),
        Part::Text(b", "),
        Part::Number(u64::from(strange)),
        Part::Text(b" not at their own places with these as ranks\n"),
    ];
    push_parts(alloc, &mut out, &parts)?;
    Ok(out)
}

/// The lines of a cycle.
fn cycle_lines(alloc: Global, units: &[u32]) -> Result<Vec<u8>, NoMemory> {
    let mut out = Vec::new(alloc);
    let head = [
        Part::Text(b"cycle of "),
        Part::Number(units.len() as u64),
        Part::Text(b"\n"),
    ];
    push_parts(alloc, &mut out, &head)?;
    for unit in units {
        push_parts(
            alloc,
            &mut out,
            &[Part::Number(u64::from(*unit)), Part::Text(b"\n")],
        )?;
    }
    Ok(out)
}

/// The order of the units of a rule, or their cycle. None where a provider is no unit.
fn answer_of(alloc: Global, rule: Rule) -> Result<Option<Vec<u8>>, NoMemory> {
    let names = names_of(alloc, rule)?;
    let edges = edges_of(alloc, rule)?;
    if edges.len() != names.len() || names.len() >= 0x1_0000_0000 {
        return Ok(None);
    }
    if !all_are_units(edges.as_slice()) || !are_apart(names.as_slice()) {
        return Ok(None);
    }
    match order(alloc, &names, &edges) {
        Ok(found) => Ok(Some(order_line(alloc, names.len(), strange_places(names.len(), &found))?)),
        Err(OrderFault::Cycle(units)) => Ok(Some(cycle_lines(alloc, units.as_slice())?)),
        Err(OrderFault::NoMemory) => Err(NoMemory),
    }
}

/// The order of the units that a text rules, or their cycle.
pub fn ordered(alloc: Global, case: &Case, text: &Text) -> Result<Vec<u8>, CaseFault> {
    let words = words_of(alloc, text.as_bytes())?;
    let Some(rule) = rule_of(words.as_slice()) else {
        return Err(CaseFault::Wrong(case.line, Wrong::Words));
    };
    match answer_of(alloc, rule)? {
        Some(given) => Ok(given),
        None => Err(CaseFault::Wrong(case.line, Wrong::Words)),
    }
}
