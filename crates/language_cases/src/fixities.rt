//! The infix names of a case: those of the initial basis where it has a section `basis`, and those of its sections
//! `infix` and `infixr`, which have a strength and names behind their own.

use case_files::{Case, CaseFault, Section, number_of};
use cm_base::{NoMemory, Text};
use infix_names::fixity::{Fixities, Status};
use sml_trees::Fixity;
use std::alloc::Global;

/// The strength that a word writes.
fn strength_of(word: &Text) -> Option<u8> {
    match number_of(word.as_bytes()) {
        Some(number @ 0..=9) => Some(number as u8),
        _ => None,
    }
}

/// Adds names that are infix.
fn add_names(infix: &mut Fixities, names: &[Text], fixity: Fixity) -> Result<(), NoMemory> {
    for name in names {
        infix.add(Status {
            name: name.copy()?,
            fixity: Some(fixity),
        })?;
    }
    Ok(())
}

/// Adds the names of a section.
fn add_section(
    alloc: Global,
    infix: &mut Fixities,
    section: &Section,
    right: bool,
) -> Result<(), CaseFault> {
    let words = section.words(alloc)?;
    let Some((first, names)) = words.as_slice().split_first() else {
        return Err(section.means_nothing());
    };
    match strength_of(first) {
        Some(strength) => Ok(add_names(infix, names, Fixity { strength, right })?),
        None => Err(section.means_nothing()),
    }
}

/// The infix names of a case.
pub fn fixities_of(alloc: Global, case: &Case) -> Result<Fixities, CaseFault> {
    let mut infix = match case.find(b"basis")? {
        Some(_) => Fixities::initial(alloc)?,
        None => Fixities::new(alloc),
    };
    for section in case.sections.as_slice() {
        if section.is_named(b"infix") {
            add_section(alloc, &mut infix, section, false)?;
        } else if section.is_named(b"infixr") {
            add_section(alloc, &mut infix, section, true)?;
        }
    }
    Ok(infix)
}
