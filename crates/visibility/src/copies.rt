//! Copies of what projects and skeletons have.

ghost use Rattle.std.specs.Prelude.{◌≡◌, IfOk};

use cm_base::{List, ModName, NoMemory, Place};
use cm_description::Export;
use std::alloc::Global;

/// Another module name of the same name space and text.
pub(crate) fn copied(name: &ModName) -> Result<ModName, NoMemory>
    ensures { IfOk result (λ copy. copy ≡ name.now) }
{
    Ok(name.clone()?)
}

/// Another place, at the same spot.
pub(crate) fn place_copied(place: &Place) -> Result<Place, NoMemory>
    ensures { IfOk result (λ copy. copy ≡ place.now) }
{
    Ok(place.clone()?)
}

/// Another export of the same name, unit and hash.
fn export_copied(export: &Export) -> Result<Export, NoMemory>
    ensures { IfOk result (λ copy. copy ≡ export.now) }
{
    Ok(Export {
        name: copied(&export.name)?,
        unit: export.unit,
        hash: export.hash,
    })
}

/// Another list of the same exports.
pub(crate) fn exports_copied(alloc: Global, exports: &[Export]) -> Result<List<Export>, NoMemory>
    ensures { IfOk result (λ copies. copies ≡ exports.now) }
{
    let mut copies = List::new(alloc);
    for export in exports {
        copies.add(export_copied(export)?)?;
    }
    Ok(copies)
}
