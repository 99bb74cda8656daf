//! What the lines and words of a section say: module names with their places, skeletons, definitions.

use case_files::{CaseFault, Section, number_of};
use case_texts::words_of;
use cm_base::{Def, List, ModName, Namespace, Need, Skeleton, Spot, Text};
use cm_conditions::space_word;
use std::alloc::Global;

/// The name spaces.
const SPACES: [Namespace; 4] = [
    Namespace::Structure,
    Namespace::Signature,
    Namespace::Functor,
    Namespace::Funsig,
];

/// The name space of a word.
fn space_of(word: &[u8]) -> Option<Namespace> {
    for space in SPACES {
        if space_word(space) == word {
            return Some(space);
        }
    }
    None
}

/// A module name of two words.
pub fn name_of(section: &Section, space: &Text, name: &Text) -> Result<ModName, CaseFault> {
    match space_of(space.as_bytes()) {
        Some(space) => Ok(ModName {
            space,
            name: name.copy()?,
        }),
        None => Err(section.means_nothing()),
    }
}

/// The two numbers of a place, as `1:11`.
fn place_of(section: &Section, word: &[u8]) -> Result<(u32, u32), CaseFault> {
    let Some(at) = word.iter().position(|byte| *byte == b':') else {
        return Err(section.means_nothing());
    };
    match (number_of(&word[..at]), number_of(&word[at + 1..])) {
        (Some(line), Some(col)) => Ok((line, col)),
        _ => Err(section.means_nothing()),
    }
}

/// Adds what a line says of a skeleton.
fn add_line(
    alloc: Global,
    section: &Section,
    skeleton: &mut Skeleton,
    line: &[u8],
) -> Result<(), CaseFault> {
    let words = words_of(alloc, line)?;
    let [verb, space, name, place] = words.as_slice() else {
        return Err(section.means_nothing());
    };
    let (line, col) = place_of(section, place.as_bytes())?;
    let name = name_of(section, space, name)?;
    let spot = Spot { name, line, col };
    match verb.as_bytes() {
        b"defines" => skeleton.defined.add(spot)?,
        b"uses" => skeleton.free.add(Need { spot, sure: true })?,
        b"may-use" => skeleton.free.add(Need { spot, sure: false })?,
        _ => return Err(section.means_nothing()),
    }
    Ok(())
}

/// A skeleton without names.
pub fn no_names(alloc: Global) -> Skeleton {
    Skeleton {
        defined: List::new(alloc),
        free: List::new(alloc),
    }
}

/// The skeleton that the lines of a section say.
pub fn skeleton_of(alloc: Global, section: &Section) -> Result<Skeleton, CaseFault> {
    let mut skeleton = no_names(alloc);
    let text = section.bytes(alloc)?;
    for line in text.as_bytes().split(|byte| *byte == b'\n') {
        if !line.is_empty() {
            add_line(alloc, section, &mut skeleton, line)?;
        }
    }
    Ok(skeleton)
}

/// The definition of a word, as `BIG=1`.
fn def_of(alloc: Global, section: &Section, word: &[u8]) -> Result<Def, CaseFault> {
    let Some(at) = word.iter().position(|byte| *byte == b'=') else {
        return Err(section.means_nothing());
    };
    match number_of(&word[at + 1..]) {
        Some(value) => Ok(Def {
            name: Text::from_bytes(alloc, &word[..at])?,
            value: i64::from(value),
        }),
        None => Err(section.means_nothing()),
    }
}

/// The definitions of the words of a section.
pub fn defs_of(alloc: Global, section: &Section) -> Result<List<Def>, CaseFault> {
    let mut defs = List::new(alloc);
    for word in section.words(alloc)?.as_slice() {
        defs.add(def_of(alloc, section, word.as_bytes())?)?;
    }
    Ok(defs)
}
