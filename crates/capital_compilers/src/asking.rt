//! The lists of what a compiler was asked.

ghost use Rattle.std.specs.Prelude.{◌≡◌, ◌∷◌, [], ◌++◌, OnOk, OnErr};

use cm_base::{List, NoMemory, Text};

/// Adds a unit at the end of what was asked.
pub(crate) fn ask(asked: &mut List<Text>, unit: &Text) -> Result<(), NoMemory>
    ensures ok { OnOk result (asked.new ≡ asked.old ++ unit.now ∷ []) }
    ensures err { OnErr result (asked.new ≡ asked.old) }
{
    let name = unit.copy()?;
    asked.add(name)
}
