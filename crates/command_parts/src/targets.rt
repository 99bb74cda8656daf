//! OUT of `link`: where it writes the linked program besides.

ghost use Rattle.std.specs.Prelude.{◌≡◌, Err};
ghost use Rattle.cm_base.specs.Calls.{Gives};
ghost use Rattle.cm_base.specs.Causes.{HasCause};
ghost use Rattle.cm_base.specs.Files.{Told};
ghost use Rattle.loader_parts.specs.Answers.{Loads};
ghost use Rattle.command_parts.specs.Targets.{out_path, out_in};

use cm_base::{Fault, Folder, Text};
use loader_parts::{ReadFault, read_anchors};
use path_anchors::{Anchors, folder_path};
use project_loading::root_name;
use std::alloc::Global;

/// The path in the folder that OUT means. A bad ROOT is refused first.
fn out_path(alloc: Global, anchors: &Anchors, root: &Text, out: &Text) -> Result<Text, Fault>
    ensures { Gives result (out_path anchors.now root.now out.now) }
{
    root_name(alloc, anchors, root)?;
    let name = root_name(alloc, anchors, out)?;
    Ok(folder_path(alloc, anchors, &name)?)
}

/// The path in the folder that OUT means under the folder's anchors, or the refusal of pathconfig, ROOT or OUT. Nothing is
/// loaded.
pub fn find_target<F: Folder>(
    alloc: Global,
    folder: &mut F,
    root: &Text,
    out: &Text,
) -> Result<Text, ReadFault>
    ensures cause { HasCause (F.faults folder.old) (F.faults folder.new) (result ≡ Err ReadFault.Folder) }
    ensures same { F.holds folder.new ≡ F.holds folder.old }
    ensures gives { Told (F.holds folder.old) (λ files. Loads result (out_in files root.now out.now)) }
{
    let anchors = read_anchors(alloc, folder)?;
    match out_path(alloc, &anchors, root, out) {
        Ok(path) => Ok(path),
        Err(Fault::Diag(diag)) => Err(ReadFault::Diag(diag)),
        Err(Fault::NoMemory) => Err(ReadFault::NoMemory),
    }
}
