//! Small projects that are made by a counter: four groups of six sources, each with the choices that a number stands
//! for.

use crate::building::{Built, source_body};
use crate::reading::no_names;
use case_files::{CaseFault, push_all};
use cm_base::{ModName, Namespace, Need, NoMemory, Skeleton, Spot, Text};
use cm_conditions::space_word;
use std::alloc::Global;

/// The module names of the projects.
const NAMES: [(Namespace, &[u8]); 5] = [
    (Namespace::Structure, b"A"),
    (Namespace::Structure, b"B"),
    (Namespace::Signature, b"A"),
    (Namespace::Functor, b"Int"),
    (Namespace::Structure, b"Int"),
];

/// The groups of the projects in the order in which they end, each with its sources.
const GROUPS: [(&[u8], [&[u8]; 2]); 4] = [
    (b"low.cm", [b"a.sml", b"b.sml"]),
    (b"left.cm", [b"c.sml", b"d.sml"]),
    (b"right.cm", [b"e.sml", b"f.sml"]),
    (b"main.cm", [b"g.sml", b"h.sml"]),
];

/// A project's number, with the number of its next choice.
#[derive(Clone, Copy)]
struct Counter {
    project: u32,
    place: u32,
}

impl Counter {
    /// Whether the next choice is taken, of which one in so many is.
    fn takes(&mut self, one_in: u32) -> bool {
        let place = self.place;
        self.place = place.wrapping_add(1);
        let turned = self
            .project
            .wrapping_mul(place.wrapping_mul(2).wrapping_add(5))
            .wrapping_add(place.wrapping_mul(place));
        match (turned / 4).checked_rem(one_in) {
            Some(left) => left == 0,
            None => false,
        }
    }
}

/// A module name with a place.
fn spot(alloc: Global, name: (Namespace, &[u8]), line: u32, col: u32) -> Result<Spot, NoMemory> {
    let (space, name) = name;
    let name = ModName {
        space,
        name: Text::from_bytes(alloc, name)?,
    };
    Ok(Spot { name, line, col })
}

/// The next skeleton: some of the names are defined, some are used, and of these some are sure.
fn skeleton(alloc: Global, counter: &mut Counter) -> Result<Skeleton, NoMemory> {
    let mut skeleton = no_names(alloc);
    let mut col = 0u32;
    for name in NAMES {
        col = col.saturating_add(1);
        if counter.takes(7) {
            skeleton.defined.add(spot(alloc, name, 1, col)?)?;
        }
        if counter.takes(4) {
            let sure = counter.takes(3);
            let spot = spot(alloc, name, 2, col)?;
            skeleton.free.add(Need { spot, sure })?;
        }
    }
    Ok(skeleton)
}

/// Adds the name of a module behind a blank.
fn push_module(out: &mut Vec<u8>, name: (Namespace, &[u8])) -> Result<(), NoMemory> {
    push_all(out, b" ")?;
    push_all(out, space_word(name.0))?;
    push_all(out, b" ")?;
    push_all(out, name.1)
}

/// Adds the class of the next group and its export list. A library has an entry.
fn push_exports(
    out: &mut Vec<u8>,
    counter: &mut Counter,
    is_library: bool,
) -> Result<(), NoMemory> {
    if is_library {
        push_all(out, b"Library structure A")?;
    } else {
        push_all(out, b"Group")?;
    }
    if counter.takes(3) {
        push_all(out, b"\n#if defined(structure B)\n structure B\n#endif\n")?;
    }
    if counter.takes(2) {
        for name in NAMES {
            if counter.takes(5) {
                push_module(out, name)?;
            }
        }
    }
    Ok(())
}

/// Adds some of the groups before this one as members, and its sources.
fn push_members(
    out: &mut Vec<u8>,
    counter: &mut Counter,
    group: (&[u8], [&[u8]; 2]),
) -> Result<(), NoMemory> {
    push_all(out, b" is")?;
    for (file, _sources) in GROUPS {
        if file == group.0 {
            break;
        }
        if !counter.takes(3) {
            push_all(out, b" ")?;
            push_all(out, file)?;
        }
    }
    for source in group.1 {
        push_all(out, b" ")?;
        push_all(out, source)?;
    }
    Ok(())
}

/// Adds the next group with its sources.
fn add_group(
    alloc: Global,
    built: &mut Built,
    counter: &mut Counter,
    line: u32,
    group: (&[u8], [&[u8]; 2]),
) -> Result<(), CaseFault> {
    for source in group.1 {
        let name = Text::from_bytes(alloc, source)?;
        let body = source_body(alloc, counter.takes(4))?;
        let skeleton = skeleton(alloc, counter)?;
        built.add_unit(&name, body, skeleton)?;
    }
    let file = Text::from_bytes(alloc, group.0)?;
    let is_library = counter.takes(2);
    let mut text = Vec::new(alloc);
    push_exports(&mut text, counter, is_library)?;
    push_members(&mut text, counter, group)?;
    built.add_read(alloc, line, &file, &Text::from_vec(text))
}

/// The project of this number. A line of the case is told where its descriptions can't be read.
pub fn project_of(alloc: Global, line: u32, number: u32) -> Result<Built, CaseFault> {
    let mut built = Built::new(alloc);
    let mut counter = Counter {
        project: number,
        place: 0,
    };
    for group in GROUPS {
        add_group(alloc, &mut built, &mut counter, line, group)?;
    }
    Ok(built)
}
