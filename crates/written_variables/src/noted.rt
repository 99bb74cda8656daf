//! Occurrences of type variables that were met.

ghost use Rattle.std.specs.Prelude.{◌≡◌, ◌++◌, ◌∷◌, [], OnOk};

use cm_base::NoMemory;
use sml_trees::Name;

/// Notes one more occurrence, behind those that were met.
pub(crate) fn note(met: &mut Vec<Name>, name: &Name) -> Result<(), NoMemory>
    ensures { OnOk result (met.new.items ≡ met.old.items ++ name.now ∷ []) }
{
    met.push(name.clone()?)?;
    Ok(())
}
