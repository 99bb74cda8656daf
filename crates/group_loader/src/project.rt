//! The loading of a project of groups and libraries, whose members may be of tools' classes.

ghost use Rattle.std.specs.Prelude.{◌≡◌, ◌≤◌, All, Err, IfOk, length, map};
ghost use Rattle.cm_base.specs.Causes.{HasCause};
ghost use Rattle.cm_base.specs.Files.{Told};
ghost use Rattle.cm_base.specs.Keeping.{Keeps};
ghost use Rattle.cm_description.specs.WellFormed.{IsWellFormed};
ghost use Rattle.bin_store.specs.Paths.{tool_path};
ghost use Rattle.project_checks.specs.Whole.{IsWhole};
ghost use Rattle.loader_parts.specs.LoadedProjects.{HasSources, IsSource, IsWithinLimits};
ghost use Rattle.tool_deriving.specs.Toolboxes.{rules_of};
ghost use Rattle.member_deriving.specs.Laws.{HasTrueRecords};
ghost use Rattle.member_deriving.specs.Uses.{after_uses, outcome, work_of};
ghost use Rattle.box_deriving.specs.Boxes.{world_of};
ghost use Rattle.tool_loading.specs.Projects.{finished_loading, loaded_over, project_of, reached_by, reached_from, store_means, tool_uses};
ghost use Rattle.group_loader.specs.Loading.{Loads, StepsTo, Tends, origin_of, rules_at, scene_of, setting_at, states_by};

use crate::descent::load_described;
use crate::fault::LoadFault;
use cm_base::{Def, Folder, List, Text, Tool};
use cm_description::Project;
use loader_parts::{Context, Loader, read_anchors, read_group};
use project_checks::{GROUPS, LEVELS, Progress, checked};
use project_loading::{command_place, root_name};
use std::alloc::Global;
use tool_deriving::Toolbox;

/// Loads ROOT and all that it leads to.
fn load_root<F: Folder, T: Tool>(
    folder: &mut F,
    tools: &mut Toolbox<T>,
    context: &Context<'_>,
    root: &Text,
) -> Result<Progress, LoadFault>
    ensures loads { Loads result
        (scene_of (F.holds folder.old) (F.faults folder.old) (states_by T.class T.rule T.ran T.faults tools.old))
        (scene_of (F.holds folder.new) (F.faults folder.new) (states_by T.class T.rule T.ran T.faults tools.new))
        (λ origin work. reached_from (setting_at origin context.now.defs.now context.now.anchors.now) root.now work) }
    ensures whole { IfOk result IsWhole }
    ensures few { IfOk result (λ progress. length progress.groups ≤ GROUPS) }
    ensures sources { IfOk result (λ progress. All IsSource progress.units) }
{
    let name = root_name(context.alloc, context.anchors, root)?;
    let at = command_place(context.alloc)?;
    let mut loader = Loader::new(context.alloc);
    let description = read_group(folder, context, &at, &name, &loader.progress)?;
    load_described(
        folder,
        tools,
        context,
        LEVELS,
        &name,
        description,
        &mut loader,
    )?;
    Ok(loader.into_progress())
}

/// Loads a project, from any point at which the work of tools stands.
fn load_project<F: Folder, T: Tool>(
    alloc: Global,
    folder: &mut F,
    tools: &mut Toolbox<T>,
    defs: &List<Def>,
    root: &Text,
    freezing: bool,
) -> Result<Project, LoadFault>
    ensures loads { Loads result
        (scene_of (F.holds folder.old) (F.faults folder.old) (states_by T.class T.rule T.ran T.faults tools.old))
        (scene_of (F.holds folder.new) (F.faults folder.new) (states_by T.class T.rule T.ran T.faults tools.new))
        (λ origin work. finished_loading freezing
        (reached_by store_means (rules_at origin) defs.now root.now work)) }
    ensures formed { IfOk result IsWellFormed }
    ensures few { IfOk result IsWithinLimits }
    ensures sources { IfOk result HasSources }
{
    let anchors = read_anchors(alloc, folder)?;
    let context = Context {
        alloc,
        anchors: &anchors,
        defs,
    };
    let progress = load_root(folder, tools, &context, root)?;
    Ok(checked(alloc, freezing, progress)?)
}

/// The project that ROOT leads to: its groups and libraries, and the sources in them, under the definitions of a
/// command; or its first refusal. `freezing` asks whether it can be frozen, too. The source of a member of a tool's
/// class is derived in its turn. The folder then has a record for each use that ran its tool, and nothing else was
/// written; after a fault it has those of the first uses, up to the one that was under way.
pub fn load<F: Folder, T: Tool>(
    alloc: Global,
    folder: &mut F,
    tools: &mut Toolbox<T>,
    defs: &List<Def>,
    root: &Text,
    freezing: bool,
) -> Result<Project, LoadFault>
    ensures folder { HasCause (F.faults folder.old) (F.faults folder.new) (result ≡ Err LoadFault.Folder) }
    ensures tool { Tends (result ≡ Err LoadFault.Tool)
        (states_by T.class T.rule T.ran T.faults tools.old) (states_by T.class T.rule T.ran T.faults tools.new) }
    ensures over { Told (F.holds folder.old) (λ files.
        StepsTo (origin_of files (states_by T.class T.rule T.ran T.faults tools.old))
        (loaded_over files (rules_of T.class T.rule tools.old) defs.now root.now freezing) result
        (world_of (F.holds folder.new) (states_by T.class T.rule T.ran T.faults tools.new))) }
    ensures gives { Told (F.holds folder.old) (λ files. HasTrueRecords files →
        StepsTo (origin_of files (states_by T.class T.rule T.ran T.faults tools.old))
        (outcome (work_of (after_uses files (tool_uses files (rules_of T.class T.rule tools.old) defs.now root.now))
        (tool_uses files (rules_of T.class T.rule tools.old) defs.now root.now))
        (project_of files (rules_of T.class T.rule tools.old) defs.now root.now freezing)) result
        (world_of (F.holds folder.new) (states_by T.class T.rule T.ran T.faults tools.new))) }
    ensures keeps { Told (F.holds folder.old) (λ files. Keeps (F.holds folder.old) (F.holds folder.new)
        (map (λ job. tool_path job.unit)
        (loaded_over files (rules_of T.class T.rule tools.old) defs.now root.now freezing).work.uses)) }
    ensures formed { IfOk result IsWellFormed }
    ensures few { IfOk result IsWithinLimits }
    ensures sources { IfOk result HasSources }
{
    load_project(alloc, folder, tools, defs, root, freezing)
}
