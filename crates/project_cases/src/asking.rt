//! Cases `ask`: the skeletons that a compiler of letters is asked for where there is no store, of units that are lines
//! `NAME SOURCE`. The first byte of a source is the structure that it defines, and one that begins with `!` is
//! refused. A line `NAME` is a unit of a frozen library.

use case_files::{Part, push_parts};
use case_texts::{push_diag, words_of};
use cm_base::{List, NoMemory, Options, Skeleton, SureFolder, Text};
use cm_description::{Project, Unit, UnitBody};
use skeleton_asking::{PlanFault, find_skeletons};
use std::alloc::Global;
use test_compilers::Letters;

/// A source.
fn source_body(source: &Text) -> Result<UnitBody, NoMemory> {
    Ok(UnitBody::Source {
        options: Options {
            nobasis: false,
            opaque: false,
        },
        source: source.copy()?,
    })
}

/// What is known of a unit of a frozen library of which nothing is recorded.
fn frozen_body(alloc: Global) -> Result<UnitBody, NoMemory> {
    Ok(UnitBody::Frozen {
        imports: List::new(alloc),
        interface: Text::from_bytes(alloc, b"")?,
        code: Text::from_bytes(alloc, b"")?,
    })
}

/// Adds a unit of this name.
fn add_unit(units: &mut List<Unit>, name: &Text, body: UnitBody) -> Result<(), NoMemory> {
    let name = name.copy()?;
    units.add(Unit {
        name,
        group: 0,
        body,
    })
}

/// Adds the unit of a line.
fn add_line(alloc: Global, units: &mut List<Unit>, text: &[u8]) -> Result<(), NoMemory> {
    let words = words_of(alloc, text)?;
    match words.as_slice() {
        [name, source] => add_unit(units, name, source_body(source)?),
        [name] => add_unit(units, name, frozen_body(alloc)?),
        _ => Ok(()),
    }
}

/// The project of the units of a text, a line each. Its groups don't matter here.
fn project_of(alloc: Global, text: &[u8]) -> Result<Project, NoMemory> {
    let mut units = List::new(alloc);
    for unit in text.split(|byte| *byte == b'\n') {
        add_line(alloc, &mut units, unit)?;
    }
    Ok(Project {
        units,
        groups: List::new(alloc),
        finished: List::new(alloc),
    })
}

/// Adds a line of units.
fn push_units(
    alloc: Global,
    out: &mut Vec<u8>,
    said: &[u8],
    units: &[Text],
) -> Result<(), NoMemory> {
    push_parts(alloc, out, &[Part::Text(said)])?;
    for unit in units {
        push_parts(alloc, out, &[Part::Text(b" "), Part::Text(unit.as_bytes())])?;
    }
    push_parts(alloc, out, &[Part::Text(b"\n")])
}

/// Adds how many skeletons were answered, or the refusal.
fn push_end(
    alloc: Global,
    out: &mut Vec<u8>,
    end: &Result<List<Skeleton>, PlanFault>,
) -> Result<(), NoMemory> {
    match end {
        Ok(skeletons) => {
            let parts = [
                Part::Number(skeletons.len() as u64),
                Part::Text(b" skeletons\n"),
            ];
            push_parts(alloc, out, &parts)
        }
        Err(PlanFault::Diag(diag)) => push_diag(alloc, out, diag),
        Err(PlanFault::Folder) => push_parts(alloc, out, &[Part::Text(b"the folder failed\n")]),
        Err(PlanFault::NoMemory) => Err(NoMemory),
    }
}

/// How many skeletons were answered, or the refusal; and the units that were asked for theirs, and for more.
pub fn asked(alloc: Global, text: &Text) -> Result<Vec<u8>, NoMemory> {
    let project = project_of(alloc, text.as_bytes())?;
    let mut compiler = Letters::new(alloc);
    let mut folder = SureFolder::new(alloc);
    let end = find_skeletons(alloc, &mut folder, &mut compiler, &project);
    let mut out = Vec::new(alloc);
    push_end(alloc, &mut out, &end)?;
    push_units(
        alloc,
        &mut out,
        b"skeletons",
        compiler.asked_skeletons.as_slice(),
    )?;
    push_units(alloc, &mut out, b"compiled", compiler.asked.as_slice())?;
    Ok(out)
}
