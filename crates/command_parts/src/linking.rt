//! The linked program is written where its size allows it.

ghost use Rattle.std.specs.Prelude.{◌≡◌, ◌<◌, ◌^◌, Some, Err, IfOk, OnOk, All, length, nat_lt};
ghost use Rattle.cm_base.specs.Causes.{HasCause};
ghost use Rattle.cm_base.specs.Files.{Told};
ghost use Rattle.bin_store.specs.Paths.{linked_path};
ghost use Rattle.cutoff_builder.specs.Doing.{HasShortBin};
ghost use Rattle.linker.specs.Linked.{linked_program};
ghost use Rattle.command_parts.specs.Answers.{LinksTo, TouchesLinked, TouchesTarget};
ghost use Rattle.command_parts.specs.Meaning.{link_fault, ended_with, then_write, with_linked};

use crate::limits::LINKED;
use crate::work::WorkFault;
use cm_base::{Built, Diag, Folder, FolderFault, NoMemory, Text, put_file};
use linker::laws::links_can_be_spelled;
use linker::{link, write_linked};
use std::alloc::Global;

/// The bytes of the linked program.
fn linked_file(alloc: Global, built: &Built) -> Result<Text, NoMemory>
    requires few { length built.now.units < 2 ^ 32 }
    requires bins { All HasShortBin built.now.units }
    ensures { IfOk result (λ text. text ≡ linked_program built.now.units) }
{
    let linked = link(alloc, built)?;
    links_can_be_spelled();
    write_linked(alloc, &linked)
}

/// The path of the linked program.
#[tactic(auto, unfolding(bin_store::specs::Paths::linked_path))]
fn linked_name(alloc: Global) -> Result<Text, NoMemory>
    ensures { IfOk result (λ path. path ≡ linked_path) }
{
    Text::from_bytes(alloc, b".cm/linked")
}

/// Whether a linked program passes its limit.
fn is_too_long(file: &Text) -> bool
    ensures { result ≡ nat_lt LINKED (length file.now) }
{
    file.as_bytes().len() as u64 > LINKED
}

/// Writes the linked program at the target, if there is one, whatever stands there.
fn write_target<F: Folder>(
    alloc: Global,
    folder: &mut F,
    target: &Option<Text>,
    file: &Text,
) -> Result<(), FolderFault>
    ensures cause { HasCause (F.faults folder.old) (F.faults folder.new) (result ≡ Err FolderFault.Failed) }
    ensures writes { Told (F.holds folder.old) (λ files. OnOk result
        (F.holds folder.new ≡ Some (then_write target.now file.now files))) }
    ensures touches { TouchesTarget target.now file.now (F.holds folder.old) (F.holds folder.new) }
{
    match target {
        Some(path) => put_file(alloc, folder, path, file),
        None => Ok(()),
    }
}

/// Links the units that are done and writes the program, at the target too, or gives the diagnostic of its size.
#[tactic(auto, unfolding(crate::specs::Meaning::link_fault))]
fn linked<F: Folder>(
    alloc: Global,
    folder: &mut F,
    target: &Option<Text>,
    built: &Built,
) -> Result<Option<Diag>, WorkFault>
    requires few { length built.now.units < 2 ^ 32 }
    requires bins { All HasShortBin built.now.units }
    ensures cause { HasCause (F.faults folder.old) (F.faults folder.new) (result ≡ Err WorkFault.Folder) }
    ensures links { Told (F.holds folder.old) (λ files. LinksTo result (link_fault built.now.units)
        (with_linked target.now (link_fault built.now.units) built.now.units files) (F.holds folder.new)) }
    ensures touches { TouchesLinked target.now (link_fault built.now.units) built.now.units (F.holds folder.old)
        (F.holds folder.new) }
{
    let path = linked_name(alloc)?;
    let file = linked_file(alloc, built)?;
    if is_too_long(&file) {
        return Ok(Some(Diag::on_file(alloc, 12, &path)?));
    }
    put_file(alloc, folder, &path, &file)?;
    write_target(alloc, folder, target, &file)?;
    Ok(None)
}

/// How a build ends: with its diagnostic, or with that of linking; where there is none the linked program is written, at
/// the target too.
pub fn end<F: Folder>(
    alloc: Global,
    folder: &mut F,
    target: &Option<Text>,
    built: &Built,
    ended: Option<Diag>,
) -> Result<Option<Diag>, WorkFault>
    requires few { length built.now.units < 2 ^ 32 }
    requires bins { All HasShortBin built.now.units }
    ensures cause { HasCause (F.faults folder.old) (F.faults folder.new) (result ≡ Err WorkFault.Folder) }
    ensures links { Told (F.holds folder.old) (λ files. LinksTo result (ended_with ended built.now.units)
        (with_linked target.now (ended_with ended built.now.units) built.now.units files) (F.holds folder.new)) }
    ensures touches { TouchesLinked target.now (ended_with ended built.now.units) built.now.units (F.holds folder.old)
        (F.holds folder.new) }
{
    match ended {
        Some(diag) => Ok(Some(diag)),
        None => linked(alloc, folder, target, built),
    }
}
