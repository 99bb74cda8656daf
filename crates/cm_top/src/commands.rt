//! A command by itself: its project is loaded, planned and built, and so much of the report is printed.

ghost use Rattle.std.specs.Prelude.{◌≡◌, ◌≢◌, Ok, None, Some};
ghost use Rattle.cm_base.specs.Causes.{HasCause};
ghost use Rattle.cm_base.specs.Files.{Told};
ghost use Rattle.cm_description.specs.WellFormed.{IsWellFormed};
ghost use Rattle.loader_parts.specs.LoadedProjects.{HasSources, IsWithinLimits};
ghost use Rattle.group_loader.specs.Loading.{Tends, states_by};
ghost use Rattle.command_parts.specs.Answers.{IsOutside};
ghost use Rattle.command_parts.specs.Headline.{KeepsOthersOf};
ghost use Rattle.command_parts.specs.Performing as plain;
ghost use Rattle.command_parts.specs.ProjectBuild as build;
ghost use Rattle.command_parts.specs.Targets.{out_in, target_of, path_in};
ghost use Rattle.cm_top.specs.Meaning.{of_command, of_link, of_project, of_root};
ghost use Rattle.cm_top.specs.Performing.{IsSessionEnd, Performs, rules_among, stage_of};
ghost use Rattle.cm_top.specs.Ways.{plain_way, store_way};

use crate::printed::{Printed, print_part};
use cm_base::{Compiler, Def, Folder, List, Sink, Text, Tool};
use cm_description::Project;
use command_parts::{Status, WorkFault, build_project, find_target, print_refusal};
use command_words::Command;
use group_loader::{LoadFault, load};
use loader_parts::ReadFault;
use std::alloc::Global;
use tool_deriving::Toolbox;

/// Plans a project that was loaded and builds it, with a target or none, and prints so much of the report.
fn run_project<F: Folder, S: Sink, C: Compiler>(
    alloc: Global,
    part: Printed,
    defs: &List<Def>,
    target: &Option<Text>,
    folder: &mut F,
    out: &mut S,
    compiler: &mut C,
    project: &Project,
) -> Status
    requires formed { IsWellFormed project.now }
    requires few { IsWithinLimits project.now }
    requires sources { HasSources project.now }
    ensures folder { HasCause (F.faults folder.old) (F.faults folder.new) (result ≡ Status.FolderFault) }
    ensures sink { HasCause (S.faults out.old) (S.faults out.new) (result ≡ Status.SinkFault) }
    ensures end { IsSessionEnd result }
    ensures tool { result ≢ Status.ToolFault }
    ensures performs { IsOutside target.now → plain.Performs C.defines
        (of_project part (build.store_way C.defines) target.now defs.now (Ok project.now))
        (of_project part (build.plain_way C.defines) target.now defs.now (Ok project.now)) result
        (plain.state_of (S.written out.old) (F.holds folder.old) (C.asked compiler.old) (C.asked_skeletons compiler.old))
        (plain.state_of (S.written out.new) (F.holds folder.new) (C.asked compiler.new) (C.asked_skeletons compiler.new)) }
    ensures others { IsOutside target.now → Told (F.holds folder.old) (λ files. KeepsOthersOf
        (of_project part (build.store_way C.defines) target.now defs.now (Ok project.now) files) target.now files
        (F.holds folder.new)) }
{
    match build_project(alloc, defs, target, folder, compiler, project) {
        Ok(report) => print_part(alloc, out, part, &report),
        Err(WorkFault::Folder) => Status::FolderFault,
        Err(WorkFault::NoMemory) => Status::NoMemory,
    }
}

/// Loads the project of ROOT under definitions and builds it, with a target or none, and prints so much of the report. The
/// sources of members of tools' classes are derived as it is loaded.
fn run_root<F: Folder, S: Sink, C: Compiler, T: Tool>(
    alloc: Global,
    part: Printed,
    defs: &List<Def>,
    root: &Text,
    target: &Option<Text>,
    folder: &mut F,
    out: &mut S,
    compiler: &mut C,
    tools: &mut Toolbox<T>,
) -> Status
    ensures folder { HasCause (F.faults folder.old) (F.faults folder.new) (result ≡ Status.FolderFault) }
    ensures sink { HasCause (S.faults out.old) (S.faults out.new) (result ≡ Status.SinkFault) }
    ensures end { IsSessionEnd result }
    ensures tools { Tends (result ≡ Status.ToolFault) (states_by T.class T.rule T.ran T.faults tools.old)
        (states_by T.class T.rule T.ran T.faults tools.new) }
    ensures performs { IsOutside target.now → Performs C.defines
        (λ rules. of_root part (store_way C.defines rules) target.now defs.now root.now)
        (λ rules. of_root part (plain_way C.defines rules) target.now defs.now root.now) result
        (stage_of (S.written out.old) (F.holds folder.old) (C.asked compiler.old) (C.asked_skeletons compiler.old)
        (states_by T.class T.rule T.ran T.faults tools.old))
        (stage_of (S.written out.new) (F.holds folder.new) (C.asked compiler.new) (C.asked_skeletons compiler.new)
        (states_by T.class T.rule T.ran T.faults tools.new)) }
    ensures others { IsOutside target.now → Told (F.holds folder.old) (λ files. KeepsOthersOf
        (of_root part (store_way C.defines (rules_among (states_by T.class T.rule T.ran T.faults tools.old))) target.now
        defs.now root.now files).effect target.now files (F.holds folder.new)) }
{
    match load(alloc, folder, tools, defs, root, false) {
        Ok(project) => run_project(alloc, part, defs, target, folder, out, compiler, &project),
        Err(LoadFault::Diag(diag)) => print_refusal(alloc, &diag, folder, out, compiler),
        Err(LoadFault::Folder) => Status::FolderFault,
        Err(LoadFault::Tool) => Status::ToolFault,
        Err(LoadFault::NoMemory) => Status::NoMemory,
    }
}

/// Builds the project of ROOT for `link`, whose target is found first.
fn run_link<F: Folder, S: Sink, C: Compiler, T: Tool>(
    alloc: Global,
    part: Printed,
    defs: &List<Def>,
    root: &Text,
    target: &Text,
    folder: &mut F,
    out: &mut S,
    compiler: &mut C,
    tools: &mut Toolbox<T>,
) -> Status
    ensures folder { HasCause (F.faults folder.old) (F.faults folder.new) (result ≡ Status.FolderFault) }
    ensures sink { HasCause (S.faults out.old) (S.faults out.new) (result ≡ Status.SinkFault) }
    ensures end { IsSessionEnd result }
    ensures performs { Performs C.defines
        (λ rules files. of_link part (store_way C.defines rules) defs.now root.now files
        (out_in files root.now target.now))
        (λ rules files. of_link part (plain_way C.defines rules) defs.now root.now files
        (out_in files root.now target.now)) result
        (stage_of (S.written out.old) (F.holds folder.old) (C.asked compiler.old) (C.asked_skeletons compiler.old)
        (states_by T.class T.rule T.ran T.faults tools.old))
        (stage_of (S.written out.new) (F.holds folder.new) (C.asked compiler.new) (C.asked_skeletons compiler.new)
        (states_by T.class T.rule T.ran T.faults tools.new)) }
    ensures others { Told (F.holds folder.old) (λ files. KeepsOthersOf
        (of_link part (store_way C.defines (rules_among (states_by T.class T.rule T.ran T.faults tools.old))) defs.now
        root.now files (out_in files root.now target.now)).effect (path_in (out_in files root.now target.now)) files
        (F.holds folder.new)) }
{
    match find_target(alloc, folder, root, target) {
        Ok(path) => run_root(
            alloc,
            part,
            defs,
            root,
            &Some(path),
            folder,
            out,
            compiler,
            tools,
        ),
        Err(ReadFault::Diag(diag)) => print_refusal(alloc, &diag, folder, out, compiler),
        Err(ReadFault::Folder) => Status::FolderFault,
        Err(ReadFault::NoMemory) => Status::NoMemory,
    }
}

/// Does what a command means, and prints so much of its report.
pub fn run_command<F: Folder, S: Sink, C: Compiler, T: Tool>(
    alloc: Global,
    part: Printed,
    command: &Command,
    folder: &mut F,
    out: &mut S,
    compiler: &mut C,
    tools: &mut Toolbox<T>,
) -> Status
    ensures folder { HasCause (F.faults folder.old) (F.faults folder.new) (result ≡ Status.FolderFault) }
    ensures sink { HasCause (S.faults out.old) (S.faults out.new) (result ≡ Status.SinkFault) }
    ensures end { IsSessionEnd result }
    ensures performs { Performs C.defines
        (λ rules files. of_command part (store_way C.defines rules) files command.now)
        (λ rules files. of_command part (plain_way C.defines rules) files command.now) result
        (stage_of (S.written out.old) (F.holds folder.old) (C.asked compiler.old) (C.asked_skeletons compiler.old)
        (states_by T.class T.rule T.ran T.faults tools.old))
        (stage_of (S.written out.new) (F.holds folder.new) (C.asked compiler.new) (C.asked_skeletons compiler.new)
        (states_by T.class T.rule T.ran T.faults tools.new)) }
    ensures others { Told (F.holds folder.old) (λ files. KeepsOthersOf
        (of_command part (store_way C.defines (rules_among (states_by T.class T.rule T.ran T.faults tools.old))) files
        command.now).effect (target_of files command.now) files (F.holds folder.new)) }
{
    match command {
        Command::Build { defs, root } => run_root(
            alloc, part, defs, root, &None, folder, out, compiler, tools,
        ),
        Command::Link {
            defs,
            root,
            out: target,
        } => run_link(
            alloc, part, defs, root, target, folder, out, compiler, tools,
        ),
    }
}
