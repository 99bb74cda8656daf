//! The way down from ROOT: each group's members in turn, and below a group its own.

ghost use Rattle.std.specs.Prelude.{◌≡◌, ◌<◌, ◌+◌, None, OnOk, length, slice_get};
ghost use Rattle.std.specs.List.{filter_map};
ghost use Rattle.cm_base.specs.Diags.{whole_file};
ghost use Rattle.loader_parts.specs.Loaders.{GoesOn, IsReady};
ghost use Rattle.loader_parts.specs.ShortNames.{IsNear};
ghost use Rattle.project_checks.specs.Whole.{IsOpen, IsRead};
ghost use Rattle.project_loading.specs.Projects.{begun, number_of};
ghost use Rattle.tool_loading.specs.Projects.{entered_within, with_described, with_member, with_members, with_met, with_plain_member};
ghost use Rattle.group_loader.specs.Answers.{answer};
ghost use Rattle.group_loader.specs.Loading.{Loads, Refuses, scene_of, setting_at, states_by};

use crate::fault::LoadFault;
use crate::members::{load_made, maker_of};
use cm_base::{Diag, Folder, List, Place, Text, Tool};
use cm_description::{Description, MemberEntry};
use loader_parts::{
    Context, Holder, Loader, Opening, begun, chosen, load_source, read_member_group,
};
use project_checks::GROUPS;
use project_loading::{Class, found_of, is_skipped};
use std::alloc::Global;
use tool_deriving::Toolbox;

/// The refusal of a file as a whole.
fn refuse(alloc: Global, number: u8, file: &Text) -> LoadFault
    ensures { Refuses result (whole_file number file.now) }
{
    match Diag::on_file(alloc, number, file) {
        Ok(diag) => LoadFault::Diag(diag),
        Err(_) => LoadFault::NoMemory,
    }
}

/// Loads a group of a name that wasn't met before, with groups below it up to so many levels down.
#[cycle(descent)]
fn enter<F: Folder, T: Tool>(
    folder: &mut F,
    tools: &mut Toolbox<T>,
    context: &Context<'_>,
    levels: u32,
    at: &Place,
    name: &Text,
    loader: &mut Loader,
) -> Result<(), LoadFault>
    requires ready { IsReady loader.old }
    requires new { number_of loader.old.progress name.now ≡ None }
    requires near { IsNear levels name.now }
    ensures loads { Loads (answer result loader.new.progress)
        (scene_of (F.holds folder.old) (F.faults folder.old) (states_by T.class T.rule T.ran T.faults tools.old))
        (scene_of (F.holds folder.new) (F.faults folder.new) (states_by T.class T.rule T.ran T.faults tools.new))
        (λ origin work. entered_within (setting_at origin context.now.defs.now context.now.anchors.now) levels at.now
        name.now loader.old.progress work) }
    ensures goes { OnOk result (GoesOn loader.old loader.new) }
    ensures more { OnOk result (length loader.old.progress.groups < length loader.new.progress.groups) }
{
    let Some(below) = levels.checked_sub(1) else {
        return Err(refuse(context.alloc, 12, name));
    };
    let description = read_member_group(folder, context, at, name, &loader.progress)?;
    load_described(folder, tools, context, below, name, description, loader)
}

/// Loads the group of a name that is described so, and all that its members lead to.
#[cycle(descent)]
pub(crate) fn load_described<F: Folder, T: Tool>(
    folder: &mut F,
    tools: &mut Toolbox<T>,
    context: &Context<'_>,
    levels: u32,
    name: &Text,
    description: Description,
    loader: &mut Loader,
) -> Result<(), LoadFault>
    requires ready { IsReady loader.old }
    requires new { number_of loader.old.progress name.now ≡ None }
    requires near { IsNear (levels + 1) name.now }
    requires read { IsRead (begun name.now description) }
    requires room { length loader.old.progress.groups < GROUPS }
    ensures loads { Loads (answer result loader.new.progress)
        (scene_of (F.holds folder.old) (F.faults folder.old) (states_by T.class T.rule T.ran T.faults tools.old))
        (scene_of (F.holds folder.new) (F.faults folder.new) (states_by T.class T.rule T.ran T.faults tools.new))
        (λ origin work. with_described (setting_at origin context.now.defs.now context.now.anchors.now)
        (entered_within (setting_at origin context.now.defs.now context.now.anchors.now) levels)
        name.now description loader.old.progress work) }
    ensures goes { OnOk result (GoesOn loader.old loader.new) }
    ensures more { OnOk result (length loader.old.progress.groups < length loader.new.progress.groups) }
{
    let chosen = chosen(context.alloc, context.defs, &description.member_lines)?;
    let number = loader.next_number();
    let Opening { group, members } = begun(context.alloc, name.copy()?, description);
    loader.begin(group)?;
    let holder = Holder { number, name };
    load_members(
        folder, tools, context, levels, &holder, &members, &chosen, loader,
    )?;
    Ok(loader.finish(number)?)
}

/// Loads members of a group, by their numbers among all members of its description, one after the other.
#[cycle(descent)]
fn load_members<F: Folder, T: Tool>(
    folder: &mut F,
    tools: &mut Toolbox<T>,
    context: &Context<'_>,
    levels: u32,
    holder: &Holder<'_>,
    members: &List<MemberEntry>,
    chosen: &List<u32>,
    loader: &mut Loader,
) -> Result<(), LoadFault>
    requires ready { IsReady loader.old }
    requires going { IsOpen loader.old.progress holder.now.number }
    requires near { IsNear (levels + 1) holder.now.name.now }
    ensures loads { Loads (answer result loader.new.progress)
        (scene_of (F.holds folder.old) (F.faults folder.old) (states_by T.class T.rule T.ran T.faults tools.old))
        (scene_of (F.holds folder.new) (F.faults folder.new) (states_by T.class T.rule T.ran T.faults tools.new))
        (λ origin work. with_members (setting_at origin context.now.defs.now context.now.anchors.now)
        (entered_within (setting_at origin context.now.defs.now context.now.anchors.now) levels)
        holder.now.number holder.now.name.now (filter_map (λ item. slice_get members.now item) chosen.now)
        loader.old.progress work) }
    ensures goes { OnOk result (GoesOn loader.old loader.new) }
{
    for number in chosen.as_slice() {
        if let Some(member) = members.get(*number as usize) {
            load_member(folder, tools, context, levels, holder, member, loader)?;
        }
    }
    Ok(())
}

/// Loads a member of a group.
#[cycle(descent)]
fn load_member<F: Folder, T: Tool>(
    folder: &mut F,
    tools: &mut Toolbox<T>,
    context: &Context<'_>,
    levels: u32,
    holder: &Holder<'_>,
    member: &MemberEntry,
    loader: &mut Loader,
) -> Result<(), LoadFault>
    requires ready { IsReady loader.old }
    requires going { IsOpen loader.old.progress holder.now.number }
    requires near { IsNear (levels + 1) holder.now.name.now }
    ensures loads { Loads (answer result loader.new.progress)
        (scene_of (F.holds folder.old) (F.faults folder.old) (states_by T.class T.rule T.ran T.faults tools.old))
        (scene_of (F.holds folder.new) (F.faults folder.new) (states_by T.class T.rule T.ran T.faults tools.new))
        (λ origin work. with_member (setting_at origin context.now.defs.now context.now.anchors.now)
        (entered_within (setting_at origin context.now.defs.now context.now.anchors.now) levels)
        holder.now.number holder.now.name.now member.now loader.old.progress work) }
    ensures goes { OnOk result (GoesOn loader.old loader.new) }
{
    if is_skipped(context.alloc, context.anchors, member)? {
        return Ok(());
    }
    match maker_of(tools, member) {
        Some(maker) => load_made(folder, tools, context, holder, member, &maker, loader),
        None => load_plain(folder, tools, context, levels, holder, member, loader),
    }
}

/// Loads a member of no tool's class: a source, or a group.
#[cycle(descent)]
fn load_plain<F: Folder, T: Tool>(
    folder: &mut F,
    tools: &mut Toolbox<T>,
    context: &Context<'_>,
    levels: u32,
    holder: &Holder<'_>,
    member: &MemberEntry,
    loader: &mut Loader,
) -> Result<(), LoadFault>
    requires ready { IsReady loader.old }
    requires going { IsOpen loader.old.progress holder.now.number }
    requires near { IsNear (levels + 1) holder.now.name.now }
    ensures loads { Loads (answer result loader.new.progress)
        (scene_of (F.holds folder.old) (F.faults folder.old) (states_by T.class T.rule T.ran T.faults tools.old))
        (scene_of (F.holds folder.new) (F.faults folder.new) (states_by T.class T.rule T.ran T.faults tools.new))
        (λ origin work. with_plain_member (setting_at origin context.now.defs.now context.now.anchors.now)
        (entered_within (setting_at origin context.now.defs.now context.now.anchors.now) levels)
        holder.now.number holder.now.name.now member.now loader.old.progress work) }
    ensures goes { OnOk result (GoesOn loader.old loader.new) }
{
    let found = found_of(context.alloc, context.anchors, holder.name, member)?;
    let at = &member.at;
    let group = holder.number;
    match found.class {
        Class::Cm => load_group(
            folder,
            tools,
            context,
            levels,
            group,
            at,
            &found.name,
            loader,
        ),
        Class::Sml => Ok(load_source(folder, context, group, at, found, loader)?),
    }
}

/// Loads a group that is a member of the group of a number, where that is its first one. A group whose loading goes on
/// is 10, and of one whose loading ended nothing is read.
#[cycle(descent)]
fn load_group<F: Folder, T: Tool>(
    folder: &mut F,
    tools: &mut Toolbox<T>,
    context: &Context<'_>,
    levels: u32,
    holder: u32,
    at: &Place,
    name: &Text,
    loader: &mut Loader,
) -> Result<(), LoadFault>
    requires ready { IsReady loader.old }
    requires going { IsOpen loader.old.progress holder }
    requires near { IsNear levels name.now }
    ensures loads { Loads (answer result loader.new.progress)
        (scene_of (F.holds folder.old) (F.faults folder.old) (states_by T.class T.rule T.ran T.faults tools.old))
        (scene_of (F.holds folder.new) (F.faults folder.new) (states_by T.class T.rule T.ran T.faults tools.new))
        (λ origin work. with_met
        (entered_within (setting_at origin context.now.defs.now context.now.anchors.now) levels)
        holder at.now name.now (number_of loader.old.progress name.now) loader.old.progress work) }
    ensures goes { OnOk result (GoesOn loader.old loader.new) }
{
    let Some(number) = loader.number_of(name) else {
        let member = loader.next_number();
        enter(folder, tools, context, levels, at, name, loader)?;
        return Ok(loader.join(holder, member)?);
    };
    if !loader.is_finished(number) {
        return Err(refuse(context.alloc, 10, name));
    }
    Ok(loader.join(holder, number)?)
}
