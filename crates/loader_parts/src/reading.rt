//! The files that loading reads, each once.

ghost use Rattle.std.specs.Prelude.{◌≡◌, ◌<◌, Ok, Err, IfOk, OnOk, length};
ghost use Rattle.std.specs.FinMap.{get};
ghost use Rattle.cm_base.specs.Calls.{Gives};
ghost use Rattle.cm_base.specs.Causes.{HasCause};
ghost use Rattle.cm_base.specs.Files.{Told, front_read};
ghost use Rattle.path_anchors.specs.Names.{folder_path_of};
ghost use Rattle.path_anchors.specs.Pathconfig.{config_file};
ghost use Rattle.description_values.specs.Described.{description_of};
ghost use Rattle.loader_parts.specs.Answers.{Loads};
ghost use Rattle.loader_parts.specs.StepsInARow.{frozen_refused, source_there};
ghost use Rattle.project_checks.specs.Whole.{IsRead};
ghost use Rattle.project_loading.specs.Projects.{anchors_of, begun, bound_by, counted, described, described_by, frozen, is_frozen, setting_of, source_of};

use crate::fault::ReadFault;
use crate::limits::DESCRIPTION;
use cm_base::{Def, Diag, Fault, Folder, List, NoMemory, Place, Text, read_front};
use cm_description::Description;
use description_values::describe;
use path_anchors::{Anchors, folder_path, read_pathconfig};
use project_checks::{GROUPS, PATHCONFIG, Progress, SOURCE};
use project_loading::there;
use std::alloc::Global;

/// By which anchors and definitions a project is loaded.
#[derive(Drop)]
pub struct Context<'a> {
    pub alloc: Global,
    pub anchors: &'a Anchors,
    pub defs: &'a List<Def>,
}

// ---- anchors

/// The path of the file that binds anchors.
#[tactic(auto, unfolding(path_anchors::specs::Pathconfig::config_file))]
fn config_path(alloc: Global) -> Result<Text, NoMemory>
    ensures { IfOk result (λ path. path ≡ config_file) }
{
    Text::from_bytes(alloc, b"pathconfig")
}

/// The anchors that a pathconfig binds, or 12 for its size, or the refusal of its first bad line.
fn bound_by(alloc: Global, path: &Text, found: Option<Text>) -> Result<Anchors, Fault>
    requires { path.now ≡ config_file }
    ensures { Gives result (bound_by found) }
{
    let text = found.unwrap_or(Text::from_vec(Vec::new(alloc)));
    if text.as_bytes().len() as u64 > PATHCONFIG {
        return Err(Fault::Diag(Diag::on_file(alloc, 12, path)?));
    }
    read_pathconfig(alloc, &text)
}

/// The anchors that the folder's pathconfig binds, or its refusal. Where there is none, no anchor is bound.
pub fn read_anchors<F: Folder>(alloc: Global, folder: &mut F) -> Result<Anchors, ReadFault>
    ensures cause { HasCause (F.faults folder.old) (F.faults folder.new) (result ≡ Err ReadFault.Folder) }
    ensures same { F.holds folder.new ≡ F.holds folder.old }
    ensures gives { Told (F.holds folder.old) (λ files. Loads result (anchors_of files)) }
{
    let path = config_path(alloc)?;
    let found = read_front(alloc, folder, &path, PATHCONFIG as u32)?;
    Ok(bound_by(alloc, &path, found)?)
}

// ---- files by name

/// The first bytes of the file of a name, one more than `max`.
pub fn read_named<F: Folder>(
    folder: &mut F,
    context: &Context<'_>,
    name: &Text,
    max: u32,
) -> Result<Option<Text>, ReadFault>
    ensures cause { HasCause (F.faults folder.old) (F.faults folder.new) (result ≡ Err ReadFault.Folder) }
    ensures same { F.holds folder.new ≡ F.holds folder.old }
    ensures gives { Told (F.holds folder.old) (λ files. Loads result
        (Ok (front_read max (get files (folder_path_of context.now.anchors.now name.now))))) }
{
    let path = folder_path(context.alloc, context.anchors, name)?;
    Ok(read_front(context.alloc, folder, &path, max)?)
}

/// The source that was found in the place of a member: 1 where none was, and 12 for its size.
fn source_found(alloc: Global, at: &Place, name: &Text, found: Option<Text>) -> Result<Text, Fault>
    ensures { Gives result (source_there at.now name.now found) }
{
    let source = there(alloc, at, name, found)?;
    if source.as_bytes().len() as u64 > SOURCE {
        return Err(Fault::Diag(Diag::on_file(alloc, 12, name)?));
    }
    Ok(source)
}

/// The source of a member of a name, which stands at a place.
pub(crate) fn read_source<F: Folder>(
    folder: &mut F,
    context: &Context<'_>,
    at: &Place,
    name: &Text,
) -> Result<Text, ReadFault>
    ensures cause { HasCause (F.faults folder.old) (F.faults folder.new) (result ≡ Err ReadFault.Folder) }
    ensures same { F.holds folder.new ≡ F.holds folder.old }
    ensures gives { Told (F.holds folder.old) (λ files. Loads result
        (source_of (setting_of files context.now.anchors.now context.now.defs.now) at.now name.now)) }
{
    let found = read_named(folder, context, name, SOURCE as u32)?;
    Ok(source_found(context.alloc, at, name, found)?)
}

// ---- descriptions

/// The name of a frozen file, or its path.
#[tactic(auto, unfolding(project_loading::specs::Projects::frozen))]
fn frozen(alloc: Global, path: &Text) -> Result<Text, NoMemory>
    ensures { IfOk result (λ file. file ≡ frozen path.now) }
{
    let mut file = Vec::from_slice(alloc, path.as_bytes())?;
    file.extend_from_slice(b".stable")?;
    Ok(Text::from_vec(file))
}

/// Whether the frozen file of a name is there. One byte of it shows this.
fn is_frozen<F: Folder>(
    folder: &mut F,
    context: &Context<'_>,
    name: &Text,
) -> Result<bool, ReadFault>
    ensures cause { HasCause (F.faults folder.old) (F.faults folder.new) (result ≡ Err ReadFault.Folder) }
    ensures same { F.holds folder.new ≡ F.holds folder.old }
    ensures gives { Told (F.holds folder.old) (λ files. Loads result
        (Ok (is_frozen (setting_of files context.now.anchors.now context.now.defs.now) name.now))) }
{
    let path = folder_path(context.alloc, context.anchors, name)?;
    let file = frozen(context.alloc, &path)?;
    Ok(read_front(context.alloc, folder, &file, 0)?.is_some())
}

/// Refuses one group too many.
fn counted(alloc: Global, name: &Text, progress: &Progress) -> Result<(), Fault>
    ensures gives { Gives result (counted name.now progress.now) }
    ensures room { OnOk result (length progress.now.groups < GROUPS) }
{
    if progress.groups.len() as u64 >= GROUPS {
        return Err(Fault::Diag(Diag::on_file(alloc, 12, name)?));
    }
    Ok(())
}

/// The description that a text is.
#[tactic(auto, using(crate::proofs::ReadGroups::read_begun))]
fn described(alloc: Global, name: &Text, text: &Text) -> Result<Description, Fault>
    ensures gives { Gives result (description_of name.now text.now) }
    ensures read { IfOk result (λ d. IsRead (begun name.now d)) }
{
    describe(alloc, name, text)
}

/// The description that was found in the place of a group, where one group more has room.
fn description_found(
    alloc: Global,
    at: &Place,
    name: &Text,
    progress: &Progress,
    found: Option<Text>,
) -> Result<Description, Fault>
    ensures gives { Gives result (described_by at.now name.now progress.now found) }
    ensures read { IfOk result (λ d. IsRead (begun name.now d)) }
    ensures room { OnOk result (length progress.now.groups < GROUPS) }
{
    let text = there(alloc, at, name, found)?;
    counted(alloc, name, progress)?;
    described(alloc, name, &text)
}

/// The description of ROOT, or of a group that has no frozen file.
pub fn read_group<F: Folder>(
    folder: &mut F,
    context: &Context<'_>,
    at: &Place,
    name: &Text,
    progress: &Progress,
) -> Result<Description, ReadFault>
    ensures cause { HasCause (F.faults folder.old) (F.faults folder.new) (result ≡ Err ReadFault.Folder) }
    ensures same { F.holds folder.new ≡ F.holds folder.old }
    ensures gives { Told (F.holds folder.old) (λ files. Loads result
        (described_by at.now name.now progress.now (get files (folder_path_of context.now.anchors.now name.now)))) }
    ensures read { IfOk result (λ d. IsRead (begun name.now d)) }
    ensures room { OnOk result (length progress.now.groups < GROUPS) }
{
    let found = read_named(folder, context, name, DESCRIPTION as u32)?;
    Ok(description_found(context.alloc, at, name, progress, found)?)
}

/// The refusal of a group that has a frozen file: 60, where one group more has room.
fn frozen_group(alloc: Global, name: &Text, progress: &Progress) -> Result<Description, Fault>
    ensures gives { Gives result (frozen_refused name.now progress.now) }
    ensures never { IfOk result (λ d. ⊥) }
{
    counted(alloc, name, progress)?;
    let file = frozen(alloc, name)?;
    Err(Fault::Diag(Diag::on_file(alloc, 60, &file)?))
}

/// The description of a group that is a member.
pub fn read_member_group<F: Folder>(
    folder: &mut F,
    context: &Context<'_>,
    at: &Place,
    name: &Text,
    progress: &Progress,
) -> Result<Description, ReadFault>
    ensures cause { HasCause (F.faults folder.old) (F.faults folder.new) (result ≡ Err ReadFault.Folder) }
    ensures same { F.holds folder.new ≡ F.holds folder.old }
    ensures gives { Told (F.holds folder.old) (λ files. Loads result
        (described (setting_of files context.now.anchors.now context.now.defs.now) at.now name.now progress.now)) }
    ensures read { IfOk result (λ d. IsRead (begun name.now d)) }
    ensures room { OnOk result (length progress.now.groups < GROUPS) }
{
    if is_frozen(folder, context, name)? {
        return Ok(frozen_group(context.alloc, name, progress)?);
    }
    read_group(folder, context, at, name, progress)
}
