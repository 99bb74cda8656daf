//! The skeletons of a project's units are found in load order: in binfiles, else by asking the compiler.

ghost use Rattle.std.specs.Prelude.{◌≡◌, ◌≢◌, All, Err, IfOk, length};
ghost use Rattle.cm_base.specs.Causes.{HasCause};
ghost use Rattle.cm_base.specs.Files.{Told};
ghost use Rattle.skeleton_asking.specs.Answers.{FindsAll, FindsOne};
ghost use Rattle.skeleton_asking.specs.Short.{IsShortSkeleton};
ghost use Rattle.skeleton_asking.specs.Skeletons.{answer_over, ask_for, empty_skeleton, skeletons_over, stored_skeleton, unless_stored};

use crate::fault::PlanFault;
use crate::stored::get_skeleton;
use cm_base::{CompileFault, Compiler, Folder, List, Skeleton, Text};
use cm_description::{Project, Unit, UnitBody};
use std::alloc::Global;

/// A skeleton without names.
#[tactic(auto, using(crate::proofs::Shortness::empty_is_short))]
fn empty_skeleton(alloc: Global) -> Skeleton
    ensures is { result ≡ empty_skeleton }
    ensures short { IsShortSkeleton result }
{
    Skeleton {
        defined: List::new(alloc),
        free: List::new(alloc),
    }
}

/// Asks the compiler for the skeleton of a source.
#[tactic(auto, using(crate::proofs::Shortness::small_is_short))]
fn ask_skeleton<C: Compiler>(
    alloc: Global,
    compiler: &mut C,
    name: &Text,
    source: &Text,
) -> Result<Skeleton, PlanFault>
    ensures finds { FindsOne result (ask_for C.defines.skel name.now source.now) (C.asked_skeletons compiler.old)
        (C.asked_skeletons compiler.new) }
    ensures folder { result ≢ Err PlanFault.Folder }
    ensures same { C.asked compiler.new ≡ C.asked compiler.old }
    ensures short { IfOk result IsShortSkeleton }
{
    match compiler.skeleton(alloc, name, source) {
        Ok(skeleton) => Ok(skeleton),
        Err(CompileFault::Diag(diag)) => Err(PlanFault::Diag(diag)),
        Err(CompileFault::NoMemory) => Err(PlanFault::NoMemory),
    }
}

/// The skeleton of a source: out of its unit's binfile, else the compiler is asked for it.
fn source_skeleton<F: Folder, C: Compiler>(
    alloc: Global,
    folder: &mut F,
    compiler: &mut C,
    name: &Text,
    source: &Text,
) -> Result<Skeleton, PlanFault>
    ensures cause { HasCause (F.faults folder.old) (F.faults folder.new) (result ≡ Err PlanFault.Folder) }
    ensures holds { F.holds folder.new ≡ F.holds folder.old }
    ensures finds { Told (F.holds folder.old) (λ files. FindsOne result
        (unless_stored (stored_skeleton files name.now source.now) (ask_for C.defines.skel name.now source.now))
        (C.asked_skeletons compiler.old) (C.asked_skeletons compiler.new)) }
    ensures same { C.asked compiler.new ≡ C.asked compiler.old }
    ensures short { IfOk result IsShortSkeleton }
{
    match get_skeleton(alloc, folder, name, source)? {
        Some(skeleton) => Ok(skeleton),
        None => ask_skeleton(alloc, compiler, name, source),
    }
}

/// The skeleton of a unit; that of a frozen one is empty.
fn skeleton_of<F: Folder, C: Compiler>(
    alloc: Global,
    folder: &mut F,
    compiler: &mut C,
    unit: &Unit,
) -> Result<Skeleton, PlanFault>
    ensures cause { HasCause (F.faults folder.old) (F.faults folder.new) (result ≡ Err PlanFault.Folder) }
    ensures holds { F.holds folder.new ≡ F.holds folder.old }
    ensures finds { Told (F.holds folder.old) (λ files. FindsOne result
        (answer_over C.defines.skel files unit.now.name unit.now.body)
        (C.asked_skeletons compiler.old) (C.asked_skeletons compiler.new)) }
    ensures same { C.asked compiler.new ≡ C.asked compiler.old }
    ensures short { IfOk result IsShortSkeleton }
{
    match &unit.body {
        UnitBody::Source { options: _, source } => {
            source_skeleton(alloc, folder, compiler, &unit.name, source)
        }
        UnitBody::Frozen {
            imports: _,
            interface: _,
            code: _,
        } => Ok(empty_skeleton(alloc)),
    }
}

/// The skeletons of a project's units in load order, or the first diagnostic. A source's is taken out of its unit's
/// whole binfile where that was made of the same whole source, with whatever options and imports; else the compiler is
/// asked for it, and for none behind one that it refuses. A frozen unit has an empty one.
///
/// It does so over any store; over a good one these are the skeletons that the compiler gives. No file changes, and no
/// unit is compiled. After a fault a front of what is to be asked for was asked. The store's formats can hold each of
/// them.
pub fn find_skeletons<F: Folder, C: Compiler>(
    alloc: Global,
    folder: &mut F,
    compiler: &mut C,
    project: &Project,
) -> Result<List<Skeleton>, PlanFault>
    ensures cause { HasCause (F.faults folder.old) (F.faults folder.new) (result ≡ Err PlanFault.Folder) }
    ensures holds { F.holds folder.new ≡ F.holds folder.old }
    ensures finds { Told (F.holds folder.old) (λ files. FindsAll result
        (skeletons_over C.defines.skel files project.now)
        (C.asked_skeletons compiler.old) (C.asked_skeletons compiler.new)) }
    ensures same { C.asked compiler.new ≡ C.asked compiler.old }
    ensures count { IfOk result (λ skeletons. length skeletons ≡ length project.now.units) }
    ensures short { IfOk result (λ skeletons. All IsShortSkeleton skeletons) }
{
    let mut skeletons = List::new(alloc);
    for unit in project.units.as_slice() {
        let skeleton = skeleton_of(alloc, folder, compiler, unit)?;
        skeletons.add(skeleton)?;
    }
    Ok(skeletons)
}
