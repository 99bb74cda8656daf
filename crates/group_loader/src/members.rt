//! Members of tools' classes: the tool, the name, the input and the source that is derived from it.

ghost use Rattle.std.specs.Prelude.{◌≡◌, Err, Ok, None, List, ℕ, Some, IfOk, MatchOption, OnOk};
ghost use Rattle.std.specs.FinMap.{get};
ghost use Rattle.cm_base.specs.Calls.{Gives};
ghost use Rattle.cm_base.specs.Causes.{HasCause};
ghost use Rattle.cm_base.specs.Files.{Told, front_read};
ghost use Rattle.path_anchors.specs.Names.{folder_path_of};
ghost use Rattle.project_checks.specs.Whole.{IsOpen};
ghost use Rattle.project_checks.specs.declared.limits.TheConstants.{SOURCE};
ghost use Rattle.project_loading.specs.Projects.{member_name, path_refusal, refused, there};
ghost use Rattle.loader_parts.specs.Answers.{Loads as Reads};
ghost use Rattle.loader_parts.specs.Loaders.{GoesOn, IsReady};
ghost use Rattle.loader_parts.specs.ShortNames.{IsNear};
ghost use Rattle.tool_deriving.specs.Toolboxes.{rules_of};
ghost use Rattle.tool_loading.specs.Projects.{no_options, tool_member_name, tool_of, with_tool_member};
ghost use Rattle.group_loader.specs.Answers.{answer};
ghost use Rattle.group_loader.specs.Loading.{Loads, scene_of, setting_at, states_by};
ghost use Rattle.group_loader.specs.Makers.{IsMaker};

use crate::fault::LoadFault;
use box_deriving::derive_member;
use cm_base::{Diag, Fault, Folder, List, NoMemory, Options, Place, Text, Tool};
use cm_description::MemberEntry;
use loader_parts::{Context, Holder, Loader, ReadFault, read_named};
use member_deriving::find_tool;
use path_anchors::{Anchors, PathFault, resolve};
use project_checks::SOURCE;
use project_loading::there;
use std::alloc::Global;
use tool_deriving::Toolbox;

// ---- the tool

/// The tool that makes a member's source: its place in the box, and its class.
#[derive(Drop)]
pub(crate) struct Maker<'a> {
    pub place: u32,
    pub class: &'a Text,
}

/// The tool of the class that is written behind a member, where one has it. `sml` and `cm` are no tool's.
#[tactic(auto, using(crate::proofs::Making::no_maker))]
pub(crate) fn maker_of<'a, T: Tool>(
    tools: &Toolbox<T>,
    member: &'a MemberEntry,
) -> Option<Maker<'a>>
    ensures { MatchOption result (tool_of (rules_of T.class T.rule tools.now) member.now ≡ None)
        (λ maker. IsMaker T.class T.rule tools.now member.now maker.place maker.class.now) }
{
    let Some(class) = &member.class else {
        return None;
    };
    let Some(place) = find_tool(tools, class) else {
        return None;
    };
    Some(Maker { place, class })
}

// ---- the name

/// A refusal at a place, with one name.
fn refused(alloc: Global, number: u8, at: &Place, name: &Text) -> Result<Diag, NoMemory>
    ensures { IfOk result (λ diag. diag ≡ refused number at.now name.now) }
{
    let mut names = List::new(alloc);
    names.add(name.copy()?)?;
    Ok(Diag {
        number,
        at: Place {
            file: at.file.copy()?,
            line: at.line,
            col: at.col,
        },
        names,
    })
}

/// The refusal of a member's path: 12 on the file that holds it, and any other number at the path, with it.
fn path_refused(alloc: Global, number: u8, member: &MemberEntry) -> Result<Diag, NoMemory>
    ensures { IfOk result (λ diag. diag ≡ path_refusal member.now.at member.now.path number) }
{
    if number == 12 {
        return Ok(Diag::on_file(alloc, 12, &member.at.file)?);
    }
    refused(alloc, number, &member.at, &member.path)
}

/// The name of a member's file, or the refusal of its path.
fn member_name(
    alloc: Global,
    anchors: &Anchors,
    holder: &Text,
    member: &MemberEntry,
) -> Result<Text, Fault>
    ensures { Gives result (member_name anchors.now holder.now member.now) }
{
    match resolve(alloc, anchors, holder, &member.path) {
        Ok(name) => Ok(name),
        Err(PathFault::Number(number)) => Err(Fault::Diag(path_refused(alloc, number, member)?)),
        Err(PathFault::NoMemory) => Err(Fault::NoMemory),
    }
}

/// Refuses the first option of a member, since tools' classes have none: 9.
fn check_options(alloc: Global, member: &MemberEntry) -> Result<(), Fault>
    ensures { Gives result (no_options member.now.at member.now.options) }
{
    match member.options.get(0) {
        Some(option) => Err(Fault::Diag(refused(alloc, 9, &member.at, option)?)),
        None => Ok(()),
    }
}

/// The name of the file of a member of a tool's class, or the refusal of its path or of its first option.
fn tool_member_name(
    alloc: Global,
    anchors: &Anchors,
    holder: &Text,
    member: &MemberEntry,
) -> Result<Text, Fault>
    ensures { Gives result (tool_member_name anchors.now holder.now member.now) }
{
    let name = member_name(alloc, anchors, holder, member)?;
    check_options(alloc, member)?;
    Ok(name)
}

// ---- the input and the source

/// The first bytes of a tool's input, one more than a source can have; or 1 at the member where no file is.
fn read_input<F: Folder>(
    folder: &mut F,
    context: &Context<'_>,
    at: &Place,
    name: &Text,
) -> Result<Text, ReadFault>
    ensures cause { HasCause (F.faults folder.old) (F.faults folder.new) (result ≡ Err ReadFault.Folder) }
    ensures same { F.holds folder.new ≡ F.holds folder.old }
    ensures gives { Told (F.holds folder.old) (λ files. Reads result
        (there at.now name.now (front_read SOURCE (get files (folder_path_of context.now.anchors.now name.now))))) }
{
    let found = read_named(folder, context, name, SOURCE as u32)?;
    Ok(there(context.alloc, at, name, found)?)
}

/// Loads a member of a tool's class: its source is derived, and is a source without options.
pub(crate) fn load_made<F: Folder, T: Tool>(
    folder: &mut F,
    tools: &mut Toolbox<T>,
    context: &Context<'_>,
    holder: &Holder<'_>,
    member: &MemberEntry,
    maker: &Maker<'_>,
    loader: &mut Loader,
) -> Result<(), LoadFault>
    requires ready { IsReady loader.old }
    requires going { IsOpen loader.old.progress holder.now.number }
    requires near { IsNear 1 holder.now.name.now }
    requires maker { IsMaker T.class T.rule tools.old member.now maker.now.place maker.now.class.now }
    ensures loads { (rule : List ℕ)
        → tool_of (rules_of T.class T.rule tools.old) member.now ≡ Some (maker.now.class.now, rule)
        → Loads (answer result loader.new.progress)
        (scene_of (F.holds folder.old) (F.faults folder.old) (states_by T.class T.rule T.ran T.faults tools.old))
        (scene_of (F.holds folder.new) (F.faults folder.new) (states_by T.class T.rule T.ran T.faults tools.new))
        (λ origin work. with_tool_member (setting_at origin context.now.defs.now context.now.anchors.now)
        holder.now.number holder.now.name.now member.now (maker.now.class.now, rule) loader.old.progress work) }
    ensures goes { OnOk result (GoesOn loader.old loader.new) }
{
    let name = tool_member_name(context.alloc, context.anchors, holder.name, member)?;
    let input = read_input(folder, context, &member.at, &name)?;
    let source = derive_member(
        context.alloc,
        folder,
        tools,
        maker.place,
        maker.class,
        &name,
        &input,
    )?;
    let options = Options {
        nobasis: false,
        opaque: false,
    };
    Ok(loader.add_source(context.alloc, holder.number, name, options, source)?)
}
