//! Each name at the first of its places.

ghost use Rattle.std.specs.Prelude.{◌≡◌, IfOk};
ghost use Rattle.skeletons.specs.Skeletons.{firsts};

use cm_base::{List, ModName, NoMemory, Spot};
use indexmap::IndexSet;
use std::alloc::Global;

/// Another module name of the same name space and text.
pub(crate) fn copied(name: &ModName) -> Result<ModName, NoMemory>
    ensures { IfOk result (λ copy. copy ≡ name.now) }
{
    Ok(name.clone()?)
}

/// Each name at the first of its places in a list.
pub(crate) fn firsts(alloc: Global, spots: List<Spot>) -> Result<List<Spot>, NoMemory>
    ensures { IfOk result (λ list. list ≡ firsts spots) }
{
    let mut seen = IndexSet::new(alloc);
    let mut found = List::new(alloc);
    for spot in spots.into_vec() {
        if !seen.contains(&spot.name) {
            seen.insert(copied(&spot.name)?)?;
            found.add(spot)?;
        }
    }
    Ok(found)
}
