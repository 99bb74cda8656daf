//! Parts of a tree that bind nothing, one by one and in lists.

ghost use Rattle.std.specs.Prelude.{◌≡◌, OnOk, map};
ghost use Rattle.skeletons.specs.Scopes.{all_uses};
ghost use Rattle.skeletons.specs.Walks.{noted};

use crate::walk::Walk;
use cm_base::{List, NoMemory};
use sml_trees::LongName;

/// A part whose uses a walk notes, and which binds nothing.
pub(crate) trait Noted {
    ghost use Rattle.skeletons.specs.Scopes.{Uses};
    ghost use Rattle.skeletons.specs.Walks.{noted};

    ghost uses: { Self → Uses };

    fn note(&self, walk: &mut Walk) -> Result<(), NoMemory>
        ensures { OnOk result (walk.new ≡ noted walk.old (uses self.now)) };
}

/// Notes the uses of all parts of a list.
pub(crate) fn note_all<T: Noted>(walk: &mut Walk, parts: &List<T>) -> Result<(), NoMemory>
    ensures { OnOk result (walk.new ≡ noted walk.old (all_uses (map T.uses parts.now))) }
{
    for part in parts.as_slice() {
        part.note(walk)?;
    }
    Ok(())
}

/// The structures that an `open` lists.
impl Noted for LongName {
    ghost use Rattle.skeletons.specs.Scopes.{structure_use};

    ghost uses = { structure_use };

    fn note(&self, walk: &mut Walk) -> Result<(), NoMemory> {
        walk.structure(self)
    }
}
