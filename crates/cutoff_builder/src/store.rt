//! A unit that was compiled is stored: its interface, and then its binfile.

ghost use Rattle.std.specs.Prelude.{◌≡◌, Err, IfOk, OnOk};
ghost use Rattle.cm_base.specs.Causes.{HasCause};
ghost use Rattle.cm_base.specs.Files.{told};
ghost use Rattle.build_laws.specs.Storing.{bin_of_unit, put_unit, IsStorable, StoresUnit};

use crate::unit::SourceUnit;
use bin_store::{Bin, StoreFault, put_bin, put_interface};
use cm_base::{BuiltUnit, Folder, Import, List, NoMemory, Skeleton};
use std::alloc::Global;

/// A copy of a skeleton.
fn copied_skeleton(skeleton: &Skeleton) -> Result<Skeleton, NoMemory>
    ensures { IfOk result (λ copy. copy ≡ skeleton.now) }
{
    Ok(skeleton.clone()?)
}

/// A copy of some imports.
fn copied_imports(imports: &List<Import>) -> Result<List<Import>, NoMemory>
    ensures { IfOk result (λ copy. copy ≡ imports.now) }
{
    Ok(imports.clone()?)
}

/// The binfile's value of a unit that is done.
fn bin_of(planned: &SourceUnit<'_>, unit: &BuiltUnit) -> Result<Bin, NoMemory>
    ensures { IfOk result (λ bin. bin ≡ bin_of_unit planned.now unit.now) }
{
    Ok(Bin {
        unit: planned.name.copy()?,
        options: planned.options,
        source: planned.source.copy()?,
        skeleton: copied_skeleton(planned.skeleton)?,
        imports: copied_imports(&unit.imports)?,
        interface: unit.hash,
        code: unit.code.copy()?,
    })
}

/// Stores a unit: its interface, where none stands whole under its hash, and then its binfile.
pub fn store_unit<F: Folder>(
    alloc: Global,
    folder: &mut F,
    planned: &SourceUnit<'_>,
    unit: &BuiltUnit,
) -> Result<(), StoreFault>
    requires { IsStorable planned.now unit.now }
    ensures cause { HasCause (F.faults folder.old) (F.faults folder.new) (result ≡ Err StoreFault.Folder) }
    ensures done { OnOk result (F.holds folder.new ≡ told (λ files. put_unit files planned.now unit.now) (F.holds folder.old)) }
    ensures leaves { StoresUnit (F.holds folder.old) (F.holds folder.new) planned.now unit.now }
{
    let bin = bin_of(planned, unit)?;
    put_interface(alloc, folder, &unit.interface)?;
    put_bin(alloc, folder, &bin)
}
