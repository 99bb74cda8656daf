//! What is refused of a whole project, after all loading.

ghost use Rattle.std.specs.Prelude.{◌≡◌, ◌<◌, IfOk, length, map};
ghost use Rattle.cm_base.specs.Calls.{Gives};
ghost use Rattle.project_checks.specs.Owning.{is_known_shared, is_several};
ghost use Rattle.project_checks.specs.Checks.{group_names, is_unfrozen, least, none_of, on_file, repeated, root_is_library, can_freeze, freezing_checked};

use crate::names::{least_if, least_repeated};
use crate::owners::Owned;
use cm_base::{Diag, Fault, NoMemory, Text};
use cm_description::{Group, Unit};
use std::alloc::Global;

/// A number on a whole file, if there is one.
fn on_file(alloc: Global, number: u8, file: &Option<Text>) -> Result<(), Fault>
    ensures { Gives result (on_file number file.now) }
{
    match file {
        Some(file) => Err(Fault::Diag(Diag::on_file(alloc, number, file)?)),
        None => Ok(()),
    }
}

/// 11 for a unit that is a member twice: at the least name.
pub fn units_once(alloc: Global, units: &[Unit]) -> Result<(), Fault>
    ensures { Gives result (none_of 11 (repeated (map (λ unit. unit.name) units.now))) }
{
    let least = least_repeated(alloc, units)?;
    on_file(alloc, 11, &least)
}

/// Whether a group was reached from several owners.
fn is_shared(owned: Owned) -> bool
    ensures { result ≡ is_several owned }
{
    match owned {
        Owned::Several => true,
        Owned::Nobody | Owned::One(_) => false,
    }
}

/// The least name of the groups with several owners.
fn least_shared(groups: &[Group], owners: &[Owned]) -> Result<Option<Text>, NoMemory>
    requires { length owners.now ≡ length groups.now }
    ensures { IfOk result (λ name. name ≡ least (group_names (is_known_shared owners.now) 0 groups.now)) }
{
    let mut least = None;
    let mut rest = groups;
    while let Some((group, before)) = rest.split_last() {
        least = least_if(is_shared(owners[before.len()]), &group.file, least)?;
        rest = before;
    }
    Ok(least)
}

/// 15 for a group that is reached from two owners: at the least name.
pub fn owned_once(alloc: Global, groups: &[Group], owners: &[Owned]) -> Result<(), Fault>
    requires { length owners.now ≡ length groups.now }
    ensures { Gives result (none_of 15 (group_names (is_known_shared owners.now) 0 groups.now)) }
{
    let least = least_shared(groups, owners)?;
    on_file(alloc, 15, &least)
}

/// 14 where ROOT is no library.
fn root_is_library(alloc: Global, groups: &[Group]) -> Result<(), Fault>
    ensures { Gives result (root_is_library groups.now) }
{
    match groups.first() {
        Some(root) => {
            if root.library {
                Ok(())
            } else {
                Err(Fault::Diag(Diag::on_file(alloc, 14, &root.file)?))
            }
        }
        None => Ok(()),
    }
}

/// Whether a group is a library below ROOT that isn't thawed.
fn is_unfrozen(groups: &[Group], number: usize) -> bool
    requires { number < length groups.now }
    ensures { result ≡ is_unfrozen groups.now number }
{
    groups[number].library && number != 0 && groups[number].thawed.is_none()
}

/// The least name of the libraries below ROOT that aren't thawed.
fn least_unfrozen(groups: &[Group]) -> Result<Option<Text>, NoMemory>
    ensures { IfOk result (λ name. name ≡ least (group_names (is_unfrozen groups.now) 0 groups.now)) }
{
    let mut least = None;
    let mut rest = groups;
    while let Some((group, before)) = rest.split_last() {
        least = least_if(is_unfrozen(groups, before.len()), &group.file, least)?;
        rest = before;
    }
    Ok(least)
}

/// 14 where ROOT is no library, and then 13 for a library below that isn't thawed: at the least name.
fn can_freeze(alloc: Global, groups: &[Group]) -> Result<(), Fault>
    ensures { Gives result (can_freeze groups.now) }
{
    root_is_library(alloc, groups)?;
    let least = least_unfrozen(groups)?;
    on_file(alloc, 13, &least)
}

/// The same, where the project is to be frozen.
pub fn freezing_checked(alloc: Global, freezing: bool, groups: &[Group]) -> Result<(), Fault>
    ensures { Gives result (freezing_checked freezing groups.now) }
{
    if freezing {
        return can_freeze(alloc, groups);
    }
    Ok(())
}
