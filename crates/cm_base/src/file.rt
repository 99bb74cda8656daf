//! One file of a folder: it is read up to a limit, or replaced.

ghost use Rattle.std.specs.Prelude.{◌≡◌, Err, IfOk, OnOk};
ghost use Rattle.std.specs.FinMap.{get, insert};
ghost use Rattle.cm_base.specs.Causes.{HasCause};
ghost use Rattle.cm_base.specs.Files.{Told, told, front_read};
ghost use Rattle.cm_base.specs.Keeping.{Touches};

use crate::fault::FolderFault;
use crate::folder::Folder;
use crate::text::Text;
use std::alloc::Global;

/// The first bytes of a file, one more than `max`, and `None` exactly where it isn't there.
pub fn read_front<F: Folder>(
    alloc: Global,
    folder: &mut F,
    path: &Text,
    max: u32,
) -> Result<Option<Text>, FolderFault>
    ensures cause { HasCause (F.faults folder.old) (F.faults folder.new) (result ≡ Err FolderFault.Failed) }
    ensures same { F.holds folder.new ≡ F.holds folder.old }
    ensures read { Told (F.holds folder.old) (λ files. IfOk result (λ found.
        found ≡ front_read max (get files path.now))) }
{
    let mut bytes = Vec::new(alloc);
    if folder.read(alloc, path, max, &mut bytes)? {
        Ok(Some(Text::from_vec(bytes)))
    } else {
        Ok(None)
    }
}

/// Replaces a file. A refused put leaves the old bytes, nothing, or a front of the new bytes there, and each other
/// file as it was.
pub fn put_file<F: Folder>(
    alloc: Global,
    folder: &mut F,
    path: &Text,
    bytes: &Text,
) -> Result<(), FolderFault>
    ensures cause { HasCause (F.faults folder.old) (F.faults folder.new) (result ≡ Err FolderFault.Failed) }
    ensures done { OnOk result (F.holds folder.new
        ≡ told (λ files. insert files path.now bytes.now) (F.holds folder.old)) }
    ensures touches { Touches (F.holds folder.old) (F.holds folder.new) path.now bytes.now }
{
    Ok(folder.write(alloc, path, bytes.as_bytes())?)
}
