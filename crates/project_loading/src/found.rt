//! What a member is found to be.

ghost use Rattle.std.specs.Prelude.{◌≡◌, [], IfOk, is_some};
ghost use Rattle.cm_base.specs.Calls.{Gives};
ghost use Rattle.path_anchors.specs.Names.{bound_to, resolved};
ghost use Rattle.project_loading.specs.Projects.{or_refused, root_name, member_name, is_basis_path, basis_anchor, is_skipped, found_of};

use crate::classes::{Class, class_of, options_of};
use crate::diagnostics::{command_place, path_refusal};
use cm_base::{Fault, NoMemory, Options, Place, Text};
use cm_description::MemberEntry;
use path_anchors::{Anchors, PathFault, resolve};
use std::alloc::Global;

/// A member's file by its name, its class and its options.
#[derive(Debug, Drop)]
pub struct Found {
    pub name: Text,
    pub class: Class,
    pub options: Options,
}

/// The name that a written path has in the description of the name `base`, or at the top where that is empty.
fn name_of(
    alloc: Global,
    anchors: &Anchors,
    base: &Text,
    at: &Place,
    written: &Text,
) -> Result<Text, Fault>
    ensures { Gives result (or_refused at.now written.now (resolved anchors.now base.now written.now)) }
{
    match resolve(alloc, anchors, base, written) {
        Ok(name) => Ok(name),
        Err(PathFault::Number(number)) => {
            Err(Fault::Diag(path_refusal(alloc, at, written, number)?))
        }
        Err(PathFault::NoMemory) => Err(Fault::NoMemory),
    }
}

/// The name of ROOT, which is written at the top.
pub fn root_name(alloc: Global, anchors: &Anchors, root: &Text) -> Result<Text, Fault>
    ensures { Gives result (root_name anchors.now root.now) }
{
    let top = Text::from_vec(Vec::new(alloc));
    let at = command_place(alloc)?;
    name_of(alloc, anchors, &top, &at, root)
}

/// Whether a path is one of the two that mean the description of the initial basis.
#[tactic(auto, unfolding(crate::specs::Projects::is_basis_path))]
fn is_basis_path(written: &[u8]) -> bool
    ensures { result ≡ is_basis_path written.now }
{
    written == b"$/basis.cm".as_slice() || written == b"$basis.cm/basis.cm".as_slice()
}

/// Whether the anchor of the initial basis is bound. A path that begins with it is refused where it isn't.
fn is_basis_bound(alloc: Global, anchors: &Anchors) -> Result<bool, NoMemory>
    ensures { IfOk result (λ bound. bound ≡ is_some (bound_to anchors.now basis_anchor)) }
{
    let top = Text::from_vec(Vec::new(alloc));
    let path = Text::from_bytes(alloc, b"$basis.cm/basis.cm")?;
    match resolve(alloc, anchors, &top, &path) {
        Ok(_) => Ok(true),
        Err(PathFault::Number(_)) => Ok(false),
        Err(PathFault::NoMemory) => Err(NoMemory),
    }
}

/// Whether a member is the initial basis, and no anchor says where that is. Each source sees it anyway.
pub fn is_skipped(alloc: Global, anchors: &Anchors, member: &MemberEntry) -> Result<bool, NoMemory>
    ensures { IfOk result (λ skipped. skipped ≡ is_skipped anchors.now member.now) }
{
    if !is_basis_path(member.path.as_bytes()) {
        return Ok(false);
    }
    Ok(!is_basis_bound(alloc, anchors)?)
}

/// What a member of the description of a name is found to be, or its first refusal: that of its path, its class or its
/// options.
pub fn found_of(
    alloc: Global,
    anchors: &Anchors,
    holder: &Text,
    member: &MemberEntry,
) -> Result<Found, Fault>
    ensures { Gives result (found_of anchors.now holder.now member.now) }
{
    let name = name_of(alloc, anchors, holder, &member.at, &member.path)?;
    let class = class_of(alloc, member, &name)?;
    let options = options_of(alloc, member, class)?;
    Ok(Found {
        name,
        class,
        options,
    })
}
