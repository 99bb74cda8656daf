//! Groups whose members are loaded: which members are chosen, how a group begins, and a member that is a source.

ghost use Rattle.std.specs.Prelude.{◌≡◌, ◌<◌, ◌^◌, [], Err, OnOk, length};
ghost use Rattle.cm_base.specs.Calls.{Gives};
ghost use Rattle.cm_base.specs.Causes.{HasCause};
ghost use Rattle.cm_base.specs.Files.{Told};
ghost use Rattle.description_values.specs.Choice.{chosen_items};
ghost use Rattle.loader_parts.specs.Answers.{Leaves};
ghost use Rattle.loader_parts.specs.Loaders.{GoesOn, IsReady};
ghost use Rattle.loader_parts.specs.StepsInARow.{with_source_of};
ghost use Rattle.project_checks.specs.Whole.{IsOpen};
ghost use Rattle.project_loading.specs.Projects.{begun, setting_of};

use crate::fault::ReadFault;
use crate::loader::Loader;
use crate::reading::{Context, read_source};
use cm_base::{Def, Fault, Folder, List, Place, Text};
use cm_conditions::Line;
use cm_description::{Description, Group, MemberEntry};
use description_values::choose;
use project_loading::Found;
use std::alloc::Global;

/// A group whose members are loaded, by its number and its name.
#[derive(Drop)]
pub struct Holder<'a> {
    pub number: u32,
    pub name: &'a Text,
}

/// A group whose loading begins, and its members, chosen or not.
#[derive(Drop)]
pub struct Opening {
    pub group: Group,
    pub members: List<MemberEntry>,
}

/// The numbers of the members that a list chooses. No module is there yet.
pub fn chosen(alloc: Global, defs: &List<Def>, lines: &List<Line>) -> Result<List<u32>, Fault>
    ensures { Gives result (chosen_items defs.now [] lines.now) }
{
    let modules = List::new(alloc);
    choose(alloc, lines, defs, &modules)
}

/// The group of a name that is described so, as its loading begins.
pub fn begun(alloc: Global, name: Text, description: Description) -> Opening
    ensures group { result.group ≡ begun name description }
    ensures members { result.members ≡ description.members }
{
    let Description {
        library,
        entries,
        export_lines,
        members,
        member_lines: _lines,
    } = description;
    Opening {
        group: Group {
            file: name,
            library,
            owner: 0,
            entries,
            export_lines,
            thawed: None,
            units: List::new(alloc),
            members: List::new(alloc),
        },
        members,
    }
}

/// Loads a source that is a member of the group of a number.
pub fn load_source<F: Folder>(
    folder: &mut F,
    context: &Context<'_>,
    holder: u32,
    at: &Place,
    found: Found,
    loader: &mut Loader,
) -> Result<(), ReadFault>
    requires ready { IsReady loader.old }
    requires going { IsOpen loader.old.progress holder }
    requires named { length found.name < 2 ^ 32 }
    ensures cause { HasCause (F.faults folder.old) (F.faults folder.new) (result ≡ Err ReadFault.Folder) }
    ensures same { F.holds folder.new ≡ F.holds folder.old }
    ensures gives { Told (F.holds folder.old) (λ files. Leaves result
        (with_source_of (setting_of files context.now.anchors.now context.now.defs.now) holder at.now found
        loader.old.progress) loader.new.progress) }
    ensures goes { OnOk result (GoesOn loader.old loader.new) }
{
    let source = read_source(folder, context, at, &found.name)?;
    let Found { name, options, .. } = found;
    Ok(loader.add_source(context.alloc, holder, name, options, source)?)
}
