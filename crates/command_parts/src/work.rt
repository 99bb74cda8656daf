//! The work of a command, up to its report.

ghost use Rattle.std.specs.Prelude.{◌≡◌, ◌<◌, ◌^◌, All, Err, IfOk, None, length};
ghost use Rattle.cm_base.specs.Causes.{HasCause};
ghost use Rattle.cm_base.specs.Files.{Told};
ghost use Rattle.skeleton_asking.specs.Short.{IsShortSkeleton};
ghost use Rattle.build_laws.specs.Planned.{NamesDiffer};
ghost use Rattle.cutoff_builder.specs.Doing.{HasShortBin};
ghost use Rattle.cutoff_builder.specs.Small.{AreShortNames, IsShortUnit};
ghost use Rattle.cm_description.specs.WellFormed.{IsWellFormed};
ghost use Rattle.loader_parts.specs.LoadedProjects.{HasSources, IsWithinLimits};
ghost use Rattle.project_planning.specs.Buildable.{AreProvided, planned_units};
ghost use Rattle.project_planning.specs.Planning.{plain_plan, plan_over};
ghost use Rattle.command_parts.specs.Answers.{IsReported, Does, EndsSo, AsksFor, AsksFromGood, IsOutside, LawfulFromGood, TouchesLinked};
ghost use Rattle.command_parts.specs.Lines.{diag_line};
ghost use Rattle.command_parts.specs.Meaning.{ended_with, status_of};
ghost use Rattle.command_parts.specs.ProjectBuild.{ending, of_planning};

use crate::lines::{diag_text, last_text, report_text};
use crate::linking::end;
use crate::status::Status;
use cm_base::{Built, Compiler, Def, Diag, Folder, FolderFault, List, NoMemory, Text};
use cm_description::Project;
use cutoff_builder::{BuildFault, build};
use project_planning::{Plan, make_plan};
use skeleton_asking::PlanFault;
use std::alloc::Global;

/// What a command prints, the last line of it, and the status that the command ends with.
#[derive(Debug, Drop)]
pub struct Report {
    pub status: Status,
    pub text: Text,
    pub last: Text,
}

/// Why a command's work was cut off.
#[derive(Clone, Copy, Debug, PartialEq, Eq)]
pub enum WorkFault {
    Folder,
    NoMemory,
}

impl From<FolderFault> for WorkFault {
    ghost use Rattle.std.specs.Prelude.{◌≡◌};
    ghost use Rattle.command_parts.specs.Faults.{of_folder};

    ghost from_gives = { λ error fault. fault ≡ of_folder error };

    fn from(error: FolderFault) -> Self {
        match error {
            FolderFault::Failed => WorkFault::Folder,
            FolderFault::NoMemory => WorkFault::NoMemory,
        }
    }
}

impl From<NoMemory> for WorkFault {
    ghost use Rattle.std.specs.Prelude.{◌≡◌};
    ghost use Rattle.command_parts.specs.declared.work.WorkFault.TheVariants.{NoMemory as memory};

    ghost from_gives = { λ _ fault. fault ≡ memory };

    fn from(_error: NoMemory) -> Self {
        WorkFault::NoMemory
    }
}

/// The report of a diagnostic before the first unit is built.
fn refused(alloc: Global, diag: &Diag) -> Result<Report, NoMemory>
    ensures status { IfOk result (λ report. report.status ≡ Status.Diagnostic) }
    ensures plain { IfOk result (λ report. IsReported report.status) }
    ensures text { IfOk result (λ report. report.text ≡ diag_line diag.now) }
    ensures last { IfOk result (λ report. report.last ≡ diag_line diag.now) }
{
    let last = Text::from_vec(diag_text(alloc, diag)?);
    Ok(Report {
        status: Status::Diagnostic,
        text: last.copy()?,
        last,
    })
}

/// The status of a build that ended so.
fn status_of(ended: &Option<Diag>) -> Status
    ensures is { result ≡ status_of ended.now }
    ensures plain { IsReported result }
{
    match ended {
        None => Status::Ok,
        Some(_) => Status::Diagnostic,
    }
}

/// The report of a build, after the linked program is written where no diagnostic comes, at the target too.
fn finish<F: Folder>(
    alloc: Global,
    folder: &mut F,
    target: &Option<Text>,
    built: &Built,
    ended: Option<Diag>,
) -> Result<Report, WorkFault>
    requires few { length built.now.units < 2 ^ 32 }
    requires bins { All HasShortBin built.now.units }
    ensures cause { HasCause (F.faults folder.old) (F.faults folder.new) (result ≡ Err WorkFault.Folder) }
    ensures plain { IfOk result (λ report. IsReported report.status) }
    ensures ends { Told (F.holds folder.old) (λ files. EndsSo target.now result (ending built.now.units ended files)
        (F.holds folder.new)) }
    ensures touches { TouchesLinked target.now (ended_with ended built.now.units) built.now.units (F.holds folder.old)
        (F.holds folder.new) }
{
    let ended = end(alloc, folder, target, built, ended)?;
    let text = report_text(alloc, built.units.as_slice(), &ended)?;
    let last = last_text(alloc, built.units.as_slice(), &ended)?;
    Ok(Report {
        status: status_of(&ended),
        text: Text::from_vec(text),
        last: Text::from_vec(last),
    })
}

/// Builds the units of a plan in their order, links them and reports.
fn build_plan<F: Folder, C: Compiler>(
    alloc: Global,
    target: &Option<Text>,
    folder: &mut F,
    compiler: &mut C,
    project: &Project,
    plan: &Plan,
) -> Result<Report, WorkFault>
    requires order { length plan.now.order ≡ length project.now.units }
    requires skeletons { length plan.now.skeletons ≡ length project.now.units }
    requires wanted { length plan.now.wanted ≡ length project.now.units }
    requires providers { AreProvided project.now plan.now.wanted }
    requires apart { NamesDiffer (planned_units project.now plan.now) }
    requires short { All IsShortSkeleton plan.now.skeletons }
    requires names { All AreShortNames plan.now.wanted }
    requires few { length project.now.units < 2 ^ 32 }
    requires units { All IsShortUnit project.now.units }
    ensures cause { HasCause (F.faults folder.old) (F.faults folder.new) (result ≡ Err WorkFault.Folder) }
    ensures plain { IfOk result (λ report. IsReported report.status) }
    ensures does { IsOutside target.now → Told (F.holds folder.old) (λ files.
        LawfulFromGood C.defines files (planned_units project.now plan.now) → Does C.defines files target.now
        (Ok (planned_units project.now plan.now)) (Ok (planned_units project.now plan.now)) result (F.holds folder.new)
        (C.asked compiler.old) (C.asked compiler.new)) }
    ensures same { C.asked_skeletons compiler.new ≡ C.asked_skeletons compiler.old }
{
    match build(
        alloc,
        folder,
        compiler,
        project,
        &plan.skeletons,
        &plan.wanted,
        &plan.order,
    ) {
        Ok(built) => finish(alloc, folder, target, &built, None),
        Err(BuildFault::Stop { diag, done }) => finish(alloc, folder, target, &done, Some(diag)),
        Err(BuildFault::Folder) => Err(WorkFault::Folder),
        Err(BuildFault::NoMemory) => Err(WorkFault::NoMemory),
    }
}

/// Plans a project that was loaded and builds it, with a target or none, up to the report.
#[tactic(auto, using(crate::proofs::LoadedSizes::few_units, crate::proofs::LoadedSizes::short_units))]
pub fn build_project<F: Folder, C: Compiler>(
    alloc: Global,
    defs: &List<Def>,
    target: &Option<Text>,
    folder: &mut F,
    compiler: &mut C,
    project: &Project,
) -> Result<Report, WorkFault>
    requires formed { IsWellFormed project.now }
    requires few { IsWithinLimits project.now }
    requires sources { HasSources project.now }
    ensures cause { HasCause (F.faults folder.old) (F.faults folder.new) (result ≡ Err WorkFault.Folder) }
    ensures plain { IfOk result (λ report. IsReported report.status) }
    ensures does { IsOutside target.now → Told (F.holds folder.old) (λ files. Does C.defines files target.now
        (of_planning project.now (plan_over C.defines.skel files project.now defs.now)).units
        (of_planning project.now (plain_plan C.defines.skel files project.now defs.now)).units
        result (F.holds folder.new) (C.asked compiler.old) (C.asked compiler.new)) }
    ensures skeletons { Told (F.holds folder.old) (λ files. AsksFor result
        (plan_over C.defines.skel files project.now defs.now).asked
        (C.asked_skeletons compiler.old) (C.asked_skeletons compiler.new)) }
    ensures unread { Told (F.holds folder.old) (λ files. AsksFromGood C.defines files result
        (plain_plan C.defines.skel files project.now defs.now).asked
        (C.asked_skeletons compiler.old) (C.asked_skeletons compiler.new)) }
{
    match make_plan(alloc, folder, compiler, project, defs) {
        Ok(plan) => build_plan(alloc, target, folder, compiler, project, &plan),
        Err(PlanFault::Diag(diag)) => Ok(refused(alloc, &diag)?),
        Err(PlanFault::Folder) => Err(WorkFault::Folder),
        Err(PlanFault::NoMemory) => Err(WorkFault::NoMemory),
    }
}
