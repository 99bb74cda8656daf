//! One unit's turn: it is loaded where it isn't stale, and else compiled and stored.

ghost use Rattle.std.specs.Prelude.{◌≡◌, ◌≤◌, ◌+◌, ◌∷◌, [], Err, IfOk, length};
ghost use Rattle.cm_base.specs.Causes.{HasCause};
ghost use Rattle.cm_base.specs.Files.{Told};
ghost use Rattle.build_laws.specs.CutBuild.{turn};
ghost use Rattle.build_laws.specs.PlainBuild.{unit_after};
ghost use Rattle.build_laws.specs.Storing.{IsSmallPlanned};
ghost use Rattle.cutoff_builder.specs.Answers.{as_compiled, CompilesUnit, Turns, UnitAsked};
ghost use Rattle.cutoff_builder.specs.Doing.{HasShortBin, IsDone};

use crate::done::Done;
use crate::fresh::load_unit;
use crate::store::store_unit;
use crate::unit::{SourceUnit, compile, imports_for, input_for, within};
use bin_store::StoreFault;
use build_laws::ALL_INTERFACES;
use cm_base::{BuiltUnit, Compiler, Diag, Fault, Folder, NoMemory};
use std::alloc::Global;

/// Why a unit wasn't done.
#[derive(Debug, Drop)]
pub enum UnitFault {
    Diag(Diag),
    Folder,
    NoMemory,
}

impl From<NoMemory> for UnitFault {
    ghost use Rattle.std.specs.Prelude.{◌≡◌};
    ghost use Rattle.cutoff_builder.specs.declared.turn.UnitFault.TheVariants.{NoMemory as memory};

    ghost from_gives = { λ _ fault. fault ≡ memory };

    fn from(_error: NoMemory) -> Self {
        UnitFault::NoMemory
    }
}

/// A unit is compiled and then stored.
fn compile_turn<F: Folder, C: Compiler>(
    alloc: Global,
    folder: &mut F,
    compiler: &mut C,
    planned: &SourceUnit<'_>,
    done: &Done,
) -> Result<BuiltUnit, UnitFault>
    requires done { IsDone done.now }
    requires few { done.now.interface_bytes ≤ ALL_INTERFACES }
    requires small { IsSmallPlanned planned.now }
    ensures cause { HasCause (F.faults folder.old) (F.faults folder.new) (result ≡ Err UnitFault.Folder) }
    ensures compiles { CompilesUnit result (as_compiled (unit_after C.defines.compiled done.now.units planned.now))
        (F.holds folder.old) (F.holds folder.new) planned.now }
    ensures asked { UnitAsked result (C.asked compiler.old) (C.asked compiler.new) (planned.now.unit ∷ []) }
    ensures same { C.asked_skeletons compiler.new ≡ C.asked_skeletons compiler.old }
    ensures room { IfOk result (λ unit. done.now.interface_bytes + length unit.interface ≤ ALL_INTERFACES) }
    ensures bin { IfOk result HasShortBin }
{
    let input = input_for(alloc, done, planned)?;
    let unit = match compile(alloc, compiler, input, done.interface_bytes) {
        Ok(unit) => unit,
        Err(Fault::Diag(diag)) => return Err(UnitFault::Diag(diag)),
        Err(Fault::NoMemory) => return Err(UnitFault::NoMemory),
    };
    match store_unit(alloc, folder, planned, &unit) {
        Ok(()) => Ok(unit),
        Err(StoreFault::Folder) => Err(UnitFault::Folder),
        Err(StoreFault::NoMemory) => Err(UnitFault::NoMemory),
    }
}

/// One unit's turn after those that are done. A loaded unit is never written. The format can hold the binfile of a unit
/// that is done.
pub fn take_turn<F: Folder, C: Compiler>(
    alloc: Global,
    folder: &mut F,
    compiler: &mut C,
    planned: &SourceUnit<'_>,
    done: &Done,
) -> Result<BuiltUnit, UnitFault>
    requires done { IsDone done.now }
    requires few { done.now.interface_bytes ≤ ALL_INTERFACES }
    requires small { IsSmallPlanned planned.now }
    ensures cause { HasCause (F.faults folder.old) (F.faults folder.new) (result ≡ Err UnitFault.Folder) }
    ensures turns { Told (F.holds folder.old) (λ files. Turns result (turn C.defines.compiled files done.now.units planned.now)
        files (F.holds folder.new) planned.now (C.asked compiler.old) (C.asked compiler.new)) }
    ensures same { C.asked_skeletons compiler.new ≡ C.asked_skeletons compiler.old }
    ensures room { IfOk result (λ unit. done.now.interface_bytes + length unit.interface ≤ ALL_INTERFACES) }
    ensures bin { IfOk result HasShortBin }
{
    let imports = imports_for(alloc, done, planned)?;
    match load_unit(
        alloc,
        folder,
        planned.name,
        planned.options,
        planned.source,
        &imports,
    ) {
        Ok(Some(unit)) => match within(alloc, done.interface_bytes, unit) {
            Ok(unit) => Ok(unit),
            Err(Fault::Diag(diag)) => Err(UnitFault::Diag(diag)),
            Err(Fault::NoMemory) => Err(UnitFault::NoMemory),
        },
        Ok(None) => compile_turn(alloc, folder, compiler, planned, done),
        Err(StoreFault::Folder) => Err(UnitFault::Folder),
        Err(StoreFault::NoMemory) => Err(UnitFault::NoMemory),
    }
}
