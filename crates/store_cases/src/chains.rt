//! Cases `linked-chain`: units that each import from the one before, as many as a text says, with the code of a section
//! `code`; they are linked, and what is written is read.

use crate::links::{file_of, unit_of};
use crate::programs::count;
use case_files::{Case, CaseFault, Part, Wrong, number_of, push_parts};
use cm_base::{BuiltUnit, Import, ModName, Namespace, NoMemory, Pid, Text};
use std::alloc::Global;

/// The name of a unit: its number.
fn name_of(alloc: Global, number: u32) -> Result<Text, NoMemory> {
    let mut name = Vec::new(alloc);
    push_parts(alloc, &mut name, &[Part::Number(u64::from(number))])?;
    Ok(Text::from_vec(name))
}

/// The import from a unit.
fn import_from(alloc: Global, number: u32) -> Result<Import, NoMemory> {
    Ok(Import {
        name: ModName {
            space: Namespace::Structure,
            name: Text::from_bytes(alloc, b"A")?,
        },
        provider: name_of(alloc, number)?,
        hash: Pid { bytes: [7; 32] },
    })
}

/// The unit of a number.
fn link_at(alloc: Global, number: u32, code: &Text) -> Result<BuiltUnit, NoMemory> {
    let mut unit = unit_of(alloc, &name_of(alloc, number)?, code.copy()?)?;
    if number > 0 {
        unit.imports.add(import_from(alloc, number - 1)?)?;
    }
    Ok(unit)
}

/// So many units.
fn units_of(alloc: Global, count: u32, code: &Text) -> Result<Vec<BuiltUnit>, NoMemory> {
    let mut units = Vec::new(alloc);
    for number in 0..count {
        units.push(link_at(alloc, number, code)?)?;
    }
    Ok(units)
}

/// How many units are read of the program that so many make.
pub fn read_again(alloc: Global, case: &Case, text: &Text) -> Result<Vec<u8>, CaseFault> {
    let code = case.the(b"code")?.bytes(alloc)?;
    let Some(number) = number_of(text.as_bytes()) else {
        return Err(CaseFault::Wrong(case.line, Wrong::Words));
    };
    match file_of(alloc, units_of(alloc, number, &code)?)? {
        Some(file) => Ok(count(alloc, &file)?),
        None => Err(CaseFault::Wrong(case.line, Wrong::Words)),
    }
}
