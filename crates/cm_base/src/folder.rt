//! A folder of files: the program's one way to read sources and to read and write its store.

ghost use Rattle.std.specs.Prelude.{◌≡◌, ℕ, Option, Err};
ghost use Rattle.cm_base.specs.Files.{Files};
ghost use Rattle.cm_base.specs.Causes.{HasCause};
ghost use Rattle.cm_base.specs.Calls.{ReadGives, ListGives, WriteLeaves, RemoveLeaves};

use crate::fault::FolderFault;
use crate::list::List;
use crate::text::Text;
use std::alloc::Global;

/// Files by path. What it holds may be told or not, which never changes; `faults` counts failures, and
/// never falls. `Failed` comes only in a call in which that count rose, or stands at its greatest value.
pub trait Folder {
    ghost holds: { Self → Option Files };

    ghost faults: { Self → ℕ };

    /// Puts the file into `into`, cut after `max + 1` bytes where it has more, in place of what was there.
    /// Answers false exactly where the path isn't there. After `Failed`, `into` may hold anything.
    fn read(
        &mut self,
        alloc: Global,
        path: &Text,
        max: u32,
        into: &mut Vec<u8>,
    ) -> Result<bool, FolderFault>
        ensures cause { HasCause (faults self.old) (faults self.new) (result ≡ Err FolderFault.Failed) }
        ensures same { holds self.new ≡ holds self.old }
        ensures found { ReadGives result (holds self.old) path.now max into.old.items into.new.items };

    /// Replaces the whole file. A failed write leaves the old bytes, a front of the new bytes, or nothing.
    fn write(&mut self, alloc: Global, path: &Text, bytes: &[u8]) -> Result<(), FolderFault>
        ensures cause { HasCause (faults self.old) (faults self.new) (result ≡ Err FolderFault.Failed) }
        ensures leaves { WriteLeaves result (holds self.old) (holds self.new) path.now bytes.now };

    /// Takes the path away, and answers `Ok` too where it isn't there. A failed removal leaves the old
    /// bytes or nothing.
    fn remove(&mut self, alloc: Global, path: &Text) -> Result<(), FolderFault>
        ensures cause { HasCause (faults self.old) (faults self.new) (result ≡ Err FolderFault.Failed) }
        ensures leaves { RemoveLeaves result (holds self.old) (holds self.new) path.now };

    /// Puts into `into`, in place of what was there, each path below `prefix`, ordered by its bytes.
    fn list(
        &mut self,
        alloc: Global,
        prefix: &Text,
        into: &mut List<Text>,
    ) -> Result<(), FolderFault>
        ensures cause { HasCause (faults self.old) (faults self.new) (result ≡ Err FolderFault.Failed) }
        ensures same { holds self.new ≡ holds self.old }
        ensures found { ListGives result (holds self.old) prefix.now into.old into.new };
}
