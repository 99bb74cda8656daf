//! The refusals of module names.

ghost use Rattle.std.specs.Prelude.{◌≡◌, ◌++◌, IfOk, OnOk};
ghost use Rattle.cm_conditions.specs.Printing.{module_text};
ghost use Rattle.visibility.specs.Projects.{name_refused, spot_place, file_place};
ghost use Rattle.visibility.specs.Exports.{clash_diag};

use crate::projects::unit_file;
use cm_base::{Diag, List, ModName, NoMemory, Place, Spot, Text};
use cm_conditions::space_word;
use cm_description::Project;
use std::alloc::Global;

/// Adds bytes at the end.
fn add(out: &mut Vec<u8>, bytes: &[u8]) -> Result<(), NoMemory>
    ensures { OnOk result (out.new.items ≡ out.old.items ++ bytes.now) }
{
    Ok(out.extend_from_slice(bytes)?)
}

/// A module name behind its name space, as `structure A`.
fn module_text(alloc: Global, name: &ModName) -> Result<Text, NoMemory>
    ensures { IfOk result (λ text. text ≡ module_text name.now) }
{
    let mut text = Vec::new(alloc);
    add(&mut text, space_word(name.space))?;
    add(&mut text, b" ")?;
    add(&mut text, name.name.as_bytes())?;
    Ok(Text::from_vec(text))
}

/// The refusal of a module name, which it shows behind its name space.
pub(crate) fn refused(
    alloc: Global,
    number: u8,
    at: Place,
    name: &ModName,
) -> Result<Diag, NoMemory>
    ensures { IfOk result (λ diag. diag ≡ name_refused number at name.now) }
{
    let mut names = List::new(alloc);
    names.add(module_text(alloc, name)?)?;
    Ok(Diag { number, at, names })
}

/// A place in a unit's file.
pub(crate) fn spot_place(file: &Text, spot: &Spot) -> Result<Place, NoMemory>
    ensures { IfOk result (λ place. place ≡ spot_place file.now spot.now) }
{
    Ok(Place {
        file: file.copy()?,
        line: spot.line,
        col: spot.col,
    })
}

/// A file as a whole.
pub(crate) fn file_place(file: &Text) -> Result<Place, NoMemory>
    ensures { IfOk result (λ place. place ≡ file_place file.now) }
{
    Ok(Place {
        file: file.copy()?,
        line: 0,
        col: 0,
    })
}

/// The refusal of a name that an earlier source of the group defines too.
pub(crate) fn clash(
    alloc: Global,
    project: &Project,
    unit: u32,
    spot: &Spot,
) -> Result<Diag, NoMemory>
    ensures { IfOk result (λ diag. diag ≡ clash_diag project.now (unit, spot.now)) }
{
    let file = unit_file(alloc, project, unit)?;
    refused(alloc, 22, spot_place(&file, spot)?, &spot.name)
}
