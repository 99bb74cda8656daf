//! The build of a project over its store: the units in their order, one turn each.

ghost use Rattle.std.specs.Prelude.{◌≡◌, ◌<◌, ◌≤◌, ◌^◌, All, Err, OnOk, length};
ghost use Rattle.std.specs.List.{AllByRecursion};
ghost use Rattle.cm_base.specs.Causes.{HasCause};
ghost use Rattle.cm_base.specs.Files.{Told};
ghost use Rattle.skeleton_asking.specs.Short.{IsShortSkeleton};
ghost use Rattle.build_laws.specs.CutBuild.{cut_after, cut_build};
ghost use Rattle.build_laws.specs.Left.{KeepsProject};
ghost use Rattle.build_laws.specs.Storing.{IsSmallPlanned};
ghost use Rattle.cutoff_builder.specs.Answers.{Cuts, Steps};
ghost use Rattle.cutoff_builder.specs.Doing.{HasShortBin, IsDone, StepAdds, done_units};
ghost use Rattle.cutoff_builder.specs.Planning.{as_list, planned_of};
ghost use Rattle.cutoff_builder.specs.Small.{AreShortNames, IsShortUnit};
ghost use Rattle.cutoff_builder.specs.Theorem.{Builds};

use crate::done::Done;
use crate::planned::source_unit;
use crate::turn::{UnitFault, take_turn};
use crate::unit::SourceUnit;
use build_laws::ALL_INTERFACES;
use cm_base::{Built, Compiler, Diag, Folder, List, NoMemory, Skeleton};
use cm_description::{Project, Wanted};
use dependency_graph::{UnitOrder, at};
use std::alloc::Global;

/// Why a build stopped: a diagnostic, with the units done before it; a failing folder; or want of memory.
#[derive(Debug, Drop)]
pub enum BuildFault {
    Stop { diag: Diag, done: Built },
    Folder,
    NoMemory,
}

/// Takes the turn of the unit of a number, after those that are done.
fn build_number<F: Folder, C: Compiler>(
    alloc: Global,
    folder: &mut F,
    compiler: &mut C,
    found: Option<SourceUnit<'_>>,
    done: &mut Done,
) -> Result<(), UnitFault>
    requires done { IsDone done.old }
    requires few { done.old.interface_bytes ≤ ALL_INTERFACES }
    requires small { AllByRecursion IsSmallPlanned (as_list found) }
    ensures cause { HasCause (F.faults folder.old) (F.faults folder.new) (result ≡ Err UnitFault.Folder) }
    ensures steps { Told (F.holds folder.old) (λ files. Steps result C.defines.compiled files (as_list found.entry)
        done.old.units done.new.units (cut_after C.defines.compiled files done.old.units (as_list found.entry))
        (F.holds folder.new) (C.asked compiler.old) (C.asked compiler.new)) }
    ensures same { C.asked_skeletons compiler.new ≡ C.asked_skeletons compiler.old }
    ensures done { OnOk result (IsDone done.new) }
    ensures few { OnOk result (done.new.interface_bytes ≤ ALL_INTERFACES) }
    ensures adds { StepAdds result done.old.units done.new.units }
{
    let Some(planned) = found else {
        return Ok(());
    };
    let unit = take_turn(alloc, folder, compiler, &planned, done)?;
    done.add(unit)?;
    Ok(())
}

/// Takes the turns of all units in their order.
fn build_each<F: Folder, C: Compiler>(
    alloc: Global,
    folder: &mut F,
    compiler: &mut C,
    project: &Project,
    skeletons: &List<Skeleton>,
    wanted: &List<List<Wanted>>,
    order: &UnitOrder,
) -> Result<Built, BuildFault>
    requires counted { length order.now ≡ length project.now.units }
    requires few { length project.now.units < 2 ^ 32 }
    requires providers { All (λ list. All (λ w. w.provider < length project.now.units) list) wanted.now }
    requires small { AllByRecursion IsSmallPlanned (planned_of project.now skeletons.now wanted.now order.now) }
    ensures cause { HasCause (F.faults folder.old) (F.faults folder.new) (result ≡ Err BuildFault.Folder) }
    ensures cuts { Told (F.holds folder.old) (λ files. Cuts result C.defines.compiled files
        (planned_of project.now skeletons.now wanted.now order.now)
        (cut_build C.defines.compiled files (planned_of project.now skeletons.now wanted.now order.now))
        (F.holds folder.new) (C.asked compiler.old) (C.asked compiler.new)) }
    ensures same { C.asked_skeletons compiler.new ≡ C.asked_skeletons compiler.old }
    ensures count { length (done_units result) ≤ length project.now.units }
    ensures bins { All HasShortBin (done_units result) }
{
    let mut done = Done::none(alloc);
    let count = project.units.len() as u32;
    for place in 0..count {
        let found = source_unit(project, skeletons, wanted, at(order, place));
        match build_number(alloc, folder, compiler, found, &mut done) {
            Ok(()) => {}
            Err(UnitFault::Diag(diag)) => {
                return Err(BuildFault::Stop {
                    diag,
                    done: Built { units: done.units },
                });
            }
            Err(UnitFault::Folder) => return Err(BuildFault::Folder),
            Err(UnitFault::NoMemory) => return Err(BuildFault::NoMemory),
        }
    }
    Ok(Built { units: done.units })
}

/// Builds the units of a project in their order over its store. `skeletons` and `wanted` have a skeleton and the wanted
/// names of each unit, by its number; the store's formats can hold them, and the units' names and sources. It stops at
/// the first diagnostic, where the folder fails, or for want of memory.
///
/// From a good store it is the plain build of the project: the same units, the same diagnostic, the same files; and the
/// compiler is asked for what is stale in the store and for nothing else. Over any other store it does what `cut_build`
/// says, and leaves the project as it was. In any folder it has done no more units than there are, and the format can
/// hold the binfile of each.
pub fn build<F: Folder, C: Compiler>(
    alloc: Global,
    folder: &mut F,
    compiler: &mut C,
    project: &Project,
    skeletons: &List<Skeleton>,
    wanted: &List<List<Wanted>>,
    order: &UnitOrder,
) -> Result<Built, BuildFault>
    requires counted { length order.now ≡ length project.now.units }
    requires skeletons { length skeletons.now ≡ length project.now.units }
    requires wanted { length wanted.now ≡ length project.now.units }
    requires providers { All (λ list. All (λ w. w.provider < length project.now.units) list) wanted.now }
    requires short { All IsShortSkeleton skeletons.now }
    requires names { All AreShortNames wanted.now }
    requires few { length project.now.units < 2 ^ 32 }
    requires units { All IsShortUnit project.now.units }
    ensures cause { HasCause (F.faults folder.old) (F.faults folder.new) (result ≡ Err BuildFault.Folder) }
    ensures cuts { Told (F.holds folder.old) (λ files. Cuts result C.defines.compiled files
        (planned_of project.now skeletons.now wanted.now order.now)
        (cut_build C.defines.compiled files (planned_of project.now skeletons.now wanted.now order.now))
        (F.holds folder.new) (C.asked compiler.old) (C.asked compiler.new)) }
    ensures builds { Told (F.holds folder.old) (λ files. Builds C.defines files
        (planned_of project.now skeletons.now wanted.now order.now) result (F.holds folder.new)
        (C.asked compiler.old) (C.asked compiler.new)) }
    ensures project { Told (F.holds folder.old) (λ files. KeepsProject files (F.holds folder.new)) }
    ensures same { C.asked_skeletons compiler.new ≡ C.asked_skeletons compiler.old }
    ensures count { length (done_units result) ≤ length project.now.units }
    ensures bins { All HasShortBin (done_units result) }
{
    build_each(alloc, folder, compiler, project, skeletons, wanted, order)
}
