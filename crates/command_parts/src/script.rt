//! The script of a session.

ghost use Rattle.std.specs.Prelude.{◌≡◌, Err, IfOk};
ghost use Rattle.std.specs.FinMap.{get};
ghost use Rattle.std.specs.List.{AllByRecursion};
ghost use Rattle.cm_base.specs.Calls.{Gives};
ghost use Rattle.cm_base.specs.Causes.{HasCause};
ghost use Rattle.cm_base.specs.Files.{Told};
ghost use Rattle.path_anchors.specs.Names.{folder_path_of};
ghost use Rattle.loader_parts.specs.Answers.{Loads};
ghost use Rattle.command_parts.specs.Sessions.{IsLawful, named_script, script_at, script_in};

use cm_base::{Fault, Folder, List, Text, read_front};
use loader_parts::{ReadFault, read_anchors};
use path_anchors::{Anchors, folder_path};
use project_loading::{command_place, root_name, there};
use session_scripts::{Step, read_script};
use std::alloc::Global;

/// The greatest script, in bytes.
const SCRIPT: u32 = 1_048_576;

/// The steps of a script, from its first bytes where it is there.
fn script_at(alloc: Global, name: &Text, found: Option<Text>) -> Result<List<Step>, Fault>
    ensures gives { Gives result (script_at name.now found) }
    ensures lawful { IfOk result (AllByRecursion IsLawful) }
{
    let at = command_place(alloc)?;
    let text = there(alloc, &at, name, found)?;
    read_script(alloc, name, &text)
}

/// Reads the script of a name.
fn read_at<F: Folder>(
    alloc: Global,
    folder: &mut F,
    anchors: &Anchors,
    name: &Text,
) -> Result<List<Step>, ReadFault>
    ensures cause { HasCause (F.faults folder.old) (F.faults folder.new) (result ≡ Err ReadFault.Folder) }
    ensures same { F.holds folder.new ≡ F.holds folder.old }
    ensures gives { Told (F.holds folder.old) (λ files. Loads result
        (script_at name.now (get files (folder_path_of anchors.now name.now)))) }
    ensures lawful { IfOk result (AllByRecursion IsLawful) }
{
    let path = folder_path(alloc, anchors, name)?;
    let found = read_front(alloc, folder, &path, SCRIPT)?;
    Ok(script_at(alloc, name, found)?)
}

/// Reads the script FILE, a written path.
fn read_named<F: Folder>(
    alloc: Global,
    folder: &mut F,
    anchors: &Anchors,
    file: &Text,
) -> Result<List<Step>, ReadFault>
    ensures cause { HasCause (F.faults folder.old) (F.faults folder.new) (result ≡ Err ReadFault.Folder) }
    ensures same { F.holds folder.new ≡ F.holds folder.old }
    ensures gives { Told (F.holds folder.old) (λ files. Loads result (named_script files anchors.now file.now)) }
    ensures lawful { IfOk result (AllByRecursion IsLawful) }
{
    match root_name(alloc, anchors, file) {
        Ok(name) => read_at(alloc, folder, anchors, &name),
        Err(Fault::Diag(diag)) => Err(ReadFault::Diag(diag)),
        Err(Fault::NoMemory) => Err(ReadFault::NoMemory),
    }
}

/// The steps of the script FILE under the folder's anchors, or the first refusal: pathconfig's, FILE's, that it isn't
/// there, or its lines'. Its edits are of the project.
pub fn find_script<F: Folder>(
    alloc: Global,
    folder: &mut F,
    file: &Text,
) -> Result<List<Step>, ReadFault>
    ensures cause { HasCause (F.faults folder.old) (F.faults folder.new) (result ≡ Err ReadFault.Folder) }
    ensures same { F.holds folder.new ≡ F.holds folder.old }
    ensures gives { Told (F.holds folder.old) (λ files. Loads result (script_in files file.now)) }
    ensures lawful { IfOk result (AllByRecursion IsLawful) }
{
    let anchors = read_anchors(alloc, folder)?;
    read_named(alloc, folder, &anchors, file)
}
