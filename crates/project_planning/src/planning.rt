//! A project is planned: its skeletons and its names are found, and its units ordered.

ghost use Rattle.std.specs.Prelude.{◌≡◌, ◌<◌, ◌^◌, ℕ, All, Err, IfOk, List, length};
ghost use Rattle.bin_store.specs.GoodStore.{IsGoodStore};
ghost use Rattle.cm_base.specs.Calls.{Gives};
ghost use Rattle.cm_base.specs.Causes.{HasCause};
ghost use Rattle.cm_base.specs.Files.{Told};
ghost use Rattle.cm_description.specs.WellFormed.{IsWellFormed};
ghost use Rattle.skeleton_asking.specs.Short.{IsShortSkeleton};
ghost use Rattle.build_laws.specs.Planned.{HaveSkeletons, NamesDiffer};
ghost use Rattle.cutoff_builder.specs.Small.{AreShortNames};
ghost use Rattle.project_planning.specs.Answers.{Plans};
ghost use Rattle.project_planning.specs.Buildable.{AreProvided, planned_units};
ghost use Rattle.project_planning.specs.Planning.{plain_plan, plan_over, plan_with};

use crate::graph::order_of;
use crate::plan::Plan;
use cm_base::{Compiler, Def, Fault, Folder, List, Skeleton};
use cm_description::Project;
use skeleton_asking::{PlanFault, find_skeletons};
use std::alloc::Global;
use visibility::all_names;

/// The plan of a project whose units have these skeletons, or the first refusal: of names, group by group in the order
/// in which their loading ended (22, 3, 4, 25, 23, 24), and then of a cycle of units (26). Each unit has a skeleton, and
/// numbers of four bytes count them.
#[tactic(auto, using(crate::proofs::Providers::names_counted, crate::proofs::Providers::names_provided, crate::proofs::Graphs::order_count, crate::proofs::Planned::planned_differ))]
pub fn plan_with(
    alloc: Global,
    project: &Project,
    skeletons: List<Skeleton>,
    defs: &List<Def>,
) -> Result<Plan, Fault>
    requires formed { IsWellFormed project.now }
    requires counted { length skeletons ≡ length project.now.units }
    requires few { length project.now.units < 2 ^ 32 }
    ensures gives { Gives result (plan_with project.now defs.now skeletons) }
    ensures skeletons { IfOk result (λ plan. plan.skeletons ≡ skeletons) }
    ensures order { IfOk result (λ plan. length plan.order ≡ length project.now.units) }
    ensures wanted { IfOk result (λ plan. length plan.wanted ≡ length project.now.units) }
    ensures providers { IfOk result (λ plan. AreProvided project.now plan.wanted) }
    ensures apart { IfOk result (λ plan. NamesDiffer (planned_units project.now plan)) }
{
    let names = all_names(alloc, project, &skeletons, defs)?;
    let order = order_of(alloc, project, &names.wanted)?;
    Ok(Plan {
        skeletons,
        exports: names.exports,
        wanted: names.wanted,
        order,
    })
}

/// The plan of a project, or the first refusal: the first refused skeleton in load order; then what is refused of
/// names, group by group in the order in which their loading ended (22, 3, 4, 25, 23, 24); then a cycle of units (26).
/// Skeletons come out of the binfiles that were made of the same sources; for the others the compiler is asked, in load
/// order, and for none after a refused one. No file changes. Numbers of four bytes count the units.
///
/// It is the plan over the store as it stands, whoever wrote it. From a good store it is the compiler's plan. A build
/// takes it as it is: its lists have an entry for each unit, the store's formats can hold its skeletons and its
/// imports, providers are units, and the units that it names in order have names that differ, and from a good store the
/// compiler's skeletons.
pub fn make_plan<F: Folder, C: Compiler>(
    alloc: Global,
    folder: &mut F,
    compiler: &mut C,
    project: &Project,
    defs: &List<Def>,
) -> Result<Plan, PlanFault>
    requires formed { IsWellFormed project.now }
    requires few { length project.now.units < 2 ^ 32 }
    ensures cause { HasCause (F.faults folder.old) (F.faults folder.new) (result ≡ Err PlanFault.Folder) }
    ensures holds { F.holds folder.new ≡ F.holds folder.old }
    ensures plans { Told (F.holds folder.old) (λ files. Plans result
        (plan_over C.defines.skel files project.now defs.now)
        (C.asked_skeletons compiler.old) (C.asked_skeletons compiler.new)) }
    ensures plain { Told (F.holds folder.old) (λ files. (known : List (List ℕ)) → IsGoodStore C.defines known files
        → Plans result (plain_plan C.defines.skel files project.now defs.now)
        (C.asked_skeletons compiler.old) (C.asked_skeletons compiler.new)) }
    ensures same { C.asked compiler.new ≡ C.asked compiler.old }
    ensures order { IfOk result (λ plan. length plan.order ≡ length project.now.units) }
    ensures skeletons { IfOk result (λ plan. length plan.skeletons ≡ length project.now.units) }
    ensures wanted { IfOk result (λ plan. length plan.wanted ≡ length project.now.units) }
    ensures providers { IfOk result (λ plan. AreProvided project.now plan.wanted) }
    ensures apart { IfOk result (λ plan. NamesDiffer (planned_units project.now plan)) }
    ensures lawful { Told (F.holds folder.old) (λ files. (known : List (List ℕ)) → IsGoodStore C.defines known files
        → IfOk result (λ plan. HaveSkeletons C.defines.skel (planned_units project.now plan))) }
    ensures short { IfOk result (λ plan. All IsShortSkeleton plan.skeletons) }
    ensures names { IfOk result (λ plan. All AreShortNames plan.wanted) }
{
    let skeletons = find_skeletons(alloc, folder, compiler, project)?;
    let plan = plan_with(alloc, project, skeletons, defs)?;
    Ok(plan)
}
