//! Cases `order`: the order of units, or their cycle. A line of the section `units` is a unit with its providers behind
//! it.

ghost use Rattle.std.specs.Prelude.{◌≡◌, ◌<◌, ◌^◌, length};

use crate::graphs::{all_are_units, are_apart};
use case_files::{Case, CaseFault, Part, Report, Section, push_parts};
use case_texts::{push_diag, words_of};
use cm_base::{List, NoMemory, Text};
use dependency_graph::{OrderFault, UnitOrder, at, cycle_diag, order, rank};
use std::alloc::Global;

/// The number of a name.
fn number_of(names: &List<Text>, name: &[u8]) -> Option<u32> {
    let mut number = 0u32;
    for known in names.as_slice() {
        if known.as_bytes() == name {
            return Some(number);
        }
        number = number.saturating_add(1);
    }
    None
}

/// The first word of each line.
fn names_of(alloc: Global, lines: &[Vec<Text>]) -> Result<List<Text>, NoMemory> {
    let mut names = List::new(alloc);
    for line in lines {
        if let [name, ..] = line.as_slice() {
            names.add(name.copy()?)?;
        }
    }
    Ok(names)
}

/// The numbers of the units of the other words of a line.
fn providers_of(
    alloc: Global,
    section: &Section,
    names: &List<Text>,
    line: &[Text],
) -> Result<List<u32>, CaseFault> {
    let mut providers = List::new(alloc);
    for word in line.iter().skip(1) {
        match number_of(names, word.as_bytes()) {
            Some(number) => providers.add(number)?,
            None => return Err(section.means_nothing()),
        }
    }
    Ok(providers)
}

/// The words of the lines of a section.
fn lines_of(alloc: Global, section: &Section) -> Result<Vec<Vec<Text>>, CaseFault> {
    let mut lines = Vec::new(alloc);
    let text = section.bytes(alloc)?;
    for line in text.as_bytes().split(|byte| *byte == b'\n') {
        if !line.is_empty() {
            lines.push(words_of(alloc, line)?)?;
        }
    }
    Ok(lines)
}

/// The providers of each unit.
fn edges_of(
    alloc: Global,
    section: &Section,
    names: &List<Text>,
    lines: &[Vec<Text>],
) -> Result<List<List<u32>>, CaseFault> {
    let mut edges = List::new(alloc);
    for line in lines {
        edges.add(providers_of(alloc, section, names, line.as_slice())?)?;
    }
    Ok(edges)
}

/// The units in order, each behind its rank.
fn order_lines(alloc: Global, names: &List<Text>, order: &UnitOrder) -> Result<Vec<u8>, NoMemory>
    requires counted { length order.now ≡ length names.now }
    requires few { length names.now < 2 ^ 32 }
{
    let mut out = Vec::new(alloc);
    for place in 0..names.len() {
        let unit = at(order, place as u32);
        if let Some(name) = names.get(unit as usize) {
            let parts = [
                Part::Number(u64::from(rank(order, unit))),
                Part::Text(b" "),
                Part::Text(name.as_bytes()),
                Part::Text(b"\n"),
            ];
            push_parts(alloc, &mut out, &parts)?;
        }
    }
    Ok(out)
}

/// The refusal of a cycle, as a line.
fn cycle_line(alloc: Global, names: &List<Text>, cycle: &List<u32>) -> Result<Vec<u8>, NoMemory> {
    let mut out = Vec::new(alloc);
    push_diag(alloc, &mut out, &cycle_diag(alloc, names, cycle)?)?;
    Ok(out)
}

/// The order of these units as lines, or the refusal of their cycle.
fn ordered(
    alloc: Global,
    section: &Section,
    names: &List<Text>,
    edges: &List<List<u32>>,
) -> Result<Vec<u8>, CaseFault> {
    if edges.len() != names.len()
        || names.len() >= 1 << 32
        || !all_are_units(edges.as_slice())
        || !are_apart(names.as_slice())
    {
        return Err(section.means_nothing());
    }
    match order(alloc, names, edges) {
        Ok(order) => Ok(order_lines(alloc, names, &order)?),
        Err(OrderFault::Cycle(cycle)) => Ok(cycle_line(alloc, names, &cycle)?),
        Err(OrderFault::NoMemory) => Err(CaseFault::NoMemory),
    }
}

/// Tries a case: the order of its units, or the refusal of a cycle.
pub fn try_order(alloc: Global, case: &Case, report: &mut Report) -> Result<(), CaseFault> {
    case.has_only(&[b"units", b"gives"])?;
    let section = case.the(b"units")?;
    let lines = lines_of(alloc, section)?;
    let names = names_of(alloc, lines.as_slice())?;
    let edges = edges_of(alloc, section, &names, lines.as_slice())?;
    let given = ordered(alloc, section, &names, &edges)?;
    let wanted = case.the(b"gives")?.bytes(alloc)?;
    report.compare(
        case,
        section.line,
        b"another answer",
        wanted.as_bytes(),
        given.as_slice(),
    )?;
    Ok(())
}
