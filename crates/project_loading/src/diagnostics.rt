//! The refusals of whole descriptions.

ghost use Rattle.std.specs.Prelude.{◌≡◌, ◌∷◌, [], IfOk};
ghost use Rattle.cm_base.specs.Calls.{Gives};
ghost use Rattle.project_loading.specs.Projects.{command_file, command_place, refused, path_refusal, there};

use cm_base::{Diag, Fault, List, NoMemory, Place, Text};
use std::alloc::Global;

/// The file of a diagnostic on the words of a command.
#[tactic(auto, unfolding(crate::specs::Projects::command_file))]
pub fn command_file(alloc: Global) -> Result<Text, NoMemory>
    ensures { IfOk result (λ text. text ≡ command_file) }
{
    Text::from_bytes(alloc, b"command")
}

/// The place of the words of a command.
pub fn command_place(alloc: Global) -> Result<Place, NoMemory>
    ensures { IfOk result (λ at. at ≡ command_place) }
{
    Ok(Place {
        file: command_file(alloc)?,
        line: 0,
        col: 0,
    })
}

/// A refusal at a place, with one name.
pub fn refused(alloc: Global, number: u8, at: &Place, name: &Text) -> Result<Diag, NoMemory>
    ensures { IfOk result (λ diag. diag ≡ refused number at.now name.now) }
{
    let mut names = List::new(alloc);
    names.add(name.copy()?)?;
    Ok(Diag {
        number,
        at: Place {
            file: at.file.copy()?,
            line: at.line,
            col: at.col,
        },
        names,
    })
}

/// The refusal of a written path: 12 on the file that holds it, and any other number at the path, with it.
pub fn path_refusal(alloc: Global, at: &Place, written: &Text, number: u8) -> Result<Diag, NoMemory>
    ensures { IfOk result (λ diag. diag ≡ path_refusal at.now written.now number) }
{
    if number == 12 {
        return Ok(Diag::on_file(alloc, 12, &at.file)?);
    }
    refused(alloc, number, at, written)
}

/// The bytes of a file that is there, or 1 at a place.
pub fn there(alloc: Global, at: &Place, name: &Text, found: Option<Text>) -> Result<Text, Fault>
    ensures { Gives result (there at.now name.now found) }
{
    match found {
        Some(bytes) => Ok(bytes),
        None => Err(Fault::Diag(refused(alloc, 1, at, name)?)),
    }
}
