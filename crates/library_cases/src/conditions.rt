//! Cases `value` and `condition`: what a condition is worth, and how it is printed.

use case_files::{Case, CaseFault, Section};
use case_texts::{line, push_line, refusal};
use cm_base::{Def, Fault, List, ModName, Namespace, NoMemory, Place, Text};
use cm_conditions::{Cond, print_condition, read_condition, value};
use std::alloc::Global;

/// The name spaces by their words.
const SPACES: [(&[u8], Namespace); 4] = [
    (b"structure", Namespace::Structure),
    (b"signature", Namespace::Signature),
    (b"functor", Namespace::Functor),
    (b"funsig", Namespace::Funsig),
];

/// The name space of a word.
pub fn space_of(word: &[u8]) -> Option<Namespace> {
    for (known, space) in SPACES {
        if known == word {
            return Some(space);
        }
    }
    None
}

/// What stands before the first blank of a line, and what behind it.
pub fn at_blank(line: &[u8]) -> Option<(&[u8], &[u8])> {
    match line.iter().position(|byte| *byte == b' ') {
        Some(at) => Some((&line[..at], &line[at + 1..])),
        None => None,
    }
}

/// The number of 64 bits that a text writes.
fn signed(text: &[u8]) -> Option<i64> {
    let digits = std::str::from_utf8(text).ok()?;
    digits.parse::<i64>().ok()
}

/// The definition of a line: a name and its number.
fn definition(alloc: Global, line: &[u8]) -> Result<Option<Def>, NoMemory> {
    let Some((name, number)) = at_blank(line) else {
        return Ok(None);
    };
    match signed(number) {
        Some(value) => Ok(Some(Def {
            name: Text::from_bytes(alloc, name)?,
            value,
        })),
        None => Ok(None),
    }
}

/// The module of a line: its name space and its name.
pub fn module_of(alloc: Global, line: &[u8]) -> Result<Option<ModName>, NoMemory> {
    let Some((word, name)) = at_blank(line) else {
        return Ok(None);
    };
    match space_of(word) {
        Some(space) => Ok(Some(ModName {
            space,
            name: Text::from_bytes(alloc, name)?,
        })),
        None => Ok(None),
    }
}

/// The definitions of a section.
fn definitions(alloc: Global, section: &Section) -> Result<List<Def>, CaseFault> {
    let mut defs = List::new(alloc);
    for piece in section.pieces.as_slice() {
        match definition(alloc, piece.bytes.as_bytes())? {
            Some(def) => defs.add(def)?,
            None => return Err(section.means_nothing()),
        }
    }
    Ok(defs)
}

/// The modules of a section.
fn modules(alloc: Global, section: &Section) -> Result<List<ModName>, CaseFault> {
    let mut names = List::new(alloc);
    for piece in section.pieces.as_slice() {
        match module_of(alloc, piece.bytes.as_bytes())? {
            Some(name) => names.add(name)?,
            None => return Err(section.means_nothing()),
        }
    }
    Ok(names)
}

/// The definitions of a case.
pub fn definitions_of(alloc: Global, case: &Case) -> Result<List<Def>, CaseFault> {
    definitions(alloc, case.the(b"definitions")?)
}

/// The modules of a case.
pub fn modules_of(alloc: Global, case: &Case) -> Result<List<ModName>, CaseFault> {
    modules(alloc, case.the(b"modules")?)
}

/// The place at which the conditions of these cases stand.
fn place(alloc: Global) -> Result<Place, NoMemory> {
    Ok(Place {
        file: Text::from_bytes(alloc, b"main.cm")?,
        line: 2,
        col: 1,
    })
}

/// A number as a line.
fn number_line(alloc: Global, number: i64) -> Result<Vec<u8>, NoMemory> {
    let digits = format!(in alloc; "{number}")?;
    line(alloc, digits.as_bytes())
}

/// The value of a text under definitions and modules.
fn value_of(
    alloc: Global,
    text: &Text,
    defs: &List<Def>,
    names: &List<ModName>,
) -> Result<i64, Fault> {
    let at = place(alloc)?;
    let cond = read_condition(alloc, &at, text)?;
    value(alloc, &at, &cond, defs, names)
}

/// The value of a condition, or its refusal.
pub fn valued(alloc: Global, case: &Case, text: &Text) -> Result<Vec<u8>, CaseFault> {
    let defs = definitions_of(alloc, case)?;
    let names = modules_of(alloc, case)?;
    match value_of(alloc, text, &defs, &names) {
        Ok(number) => Ok(number_line(alloc, number)?),
        Err(fault) => Ok(refusal(alloc, &fault)?),
    }
}

/// A text as it is printed once it is read.
fn shown(alloc: Global, text: &Text) -> Result<Text, Fault> {
    let at = place(alloc)?;
    let cond: Cond = read_condition(alloc, &at, text)?;
    Ok(print_condition(alloc, &cond)?)
}

/// A condition as it is printed, or its refusal; and once more where that is printed in another way.
pub fn printed(alloc: Global, text: &Text) -> Result<Vec<u8>, NoMemory> {
    match shown(alloc, text) {
        Ok(once) => printed_again(alloc, &once),
        Err(fault) => refusal(alloc, &fault),
    }
}

/// What was printed; and once more where that is printed in another way.
fn printed_again(alloc: Global, once: &Text) -> Result<Vec<u8>, NoMemory> {
    let mut out = line(alloc, once.as_bytes())?;
    match shown(alloc, once) {
        Ok(again) if again == *once => {}
        Ok(again) => push_line(alloc, &mut out, again.as_bytes())?,
        Err(_fault) => push_line(alloc, &mut out, b"refused once it is printed")?,
    }
    Ok(out)
}
