//! The project of what was loaded: units, members and owners are put into their groups.

ghost use Rattle.std.specs.Prelude.{◌≡◌, ◌<◌, ◌^◌, [], ◌∷◌, ◌++◌, All, IfOk, OnOk, length, map, replicate, slice_index_or, slice_set};
ghost use Rattle.std.specs.List.{range_with_len};
ghost use Rattle.project_checks.specs.Assembly.{dealt_to, filled_by, filled_groups_of, filled_with, homes_of, owned_by, owner_number};
ghost use Rattle.project_checks.specs.Checks.{members_among};
ghost use Rattle.project_checks.specs.Owning.{owned_at};

use crate::owners::Owned;
use crate::progress::Membership;
use cm_base::{List, NoMemory};
use cm_description::{Group, Unit};
use std::alloc::Global;

/// So many empty lists.
fn empty_lists(alloc: Global, count: usize) -> Result<Vec<List<u32>>, NoMemory>
    ensures { IfOk result (λ lists. lists.items ≡ replicate count []) }
{
    let mut lists = Vec::new(alloc);
    for _at in 0..count {
        lists.push(List::new(alloc))?;
    }
    Ok(lists)
}

/// Adds a number to the list at a place.
fn add_at(lists: &mut [List<u32>], at: u32, number: u32) -> Result<(), NoMemory>
    requires { at < length lists.old }
    ensures { OnOk result (lists.new ≡ slice_set lists.old at (slice_index_or lists.old at [] ++ number ∷ [])) }
{
    match lists[at as usize].push(number) {
        Ok(()) => Ok(()),
        Err(_) => Err(NoMemory),
    }
}

/// Deals members to the groups that have them, behind those that these have.
fn deal(lists: &mut [List<u32>], memberships: &[Membership]) -> Result<(), NoMemory>
    requires { All (λ membership. membership.group < length lists.old) memberships.now }
    ensures { OnOk result (lists.new ≡ dealt_to lists.old memberships.now) }
{
    for membership in memberships {
        add_at(lists, membership.group, membership.member)?;
    }
    Ok(())
}

/// For each of so many groups its members, in order.
fn members_by_group(
    alloc: Global,
    count: usize,
    memberships: &[Membership],
) -> Result<Vec<List<u32>>, NoMemory>
    requires { All (λ membership. membership.group < count) memberships.now }
    ensures { IfOk result (λ lists. lists.items ≡ map (members_among memberships.now) (range_with_len 0 count)) }
{
    let mut lists = empty_lists(alloc, count)?;
    deal(lists.as_mut_slice(), memberships)?;
    Ok(lists)
}

/// In which groups units are at home.
fn homes_of(alloc: Global, units: &[Unit]) -> Result<Vec<Membership>, NoMemory>
    requires { length units.now < 2 ^ 32 }
    ensures { IfOk result (λ homes. homes.items ≡ homes_of units.now) }
{
    let mut homes = Vec::new(alloc);
    for (number, unit) in units.iter().enumerate() {
        homes.push(Membership {
            group: unit.group,
            member: number as u32,
        })?;
    }
    Ok(homes)
}

/// Another list of the same numbers.
fn copied(list: &List<u32>) -> Result<List<u32>, NoMemory>
    ensures { IfOk result (λ copy. copy ≡ list.now) }
{
    Ok(list.clone()?)
}

/// A group with its units and its members.
fn filled(group: Group, units: &List<u32>, members: &List<u32>) -> Result<Group, NoMemory>
    ensures { IfOk result (λ filled. filled ≡ filled_with group units.now members.now) }
{
    let mut filled = group;
    filled.units = copied(units)?;
    filled.members = copied(members)?;
    Ok(filled)
}

/// Groups with their units and their members, in the order of their numbers.
fn all_filled(
    alloc: Global,
    groups: List<Group>,
    units: &[List<u32>],
    members: &[List<u32>],
) -> Result<List<Group>, NoMemory>
    requires units { length units.now ≡ length groups }
    requires members { length members.now ≡ length groups }
    ensures { IfOk result (λ list. list ≡ filled_by groups units.now members.now) }
{
    let mut list = List::new(alloc);
    for group in groups.into_vec() {
        let number = list.len();
        list.add(filled(group, &units[number], &members[number])?)?;
    }
    Ok(list)
}

/// The groups of what was loaded, with their units and their members.
pub fn filled_groups(
    alloc: Global,
    groups: List<Group>,
    units: &[Unit],
    memberships: &[Membership],
) -> Result<List<Group>, NoMemory>
    requires homes { All (λ unit. unit.group < length groups) units.now }
    requires members { All (λ membership. membership.group < length groups) memberships.now }
    requires few { length units.now < 2 ^ 32 }
    ensures { IfOk result (λ list. list ≡ filled_groups_of groups units.now memberships.now) }
{
    let homes = homes_of(alloc, units)?;
    let own = members_by_group(alloc, groups.len(), homes.as_slice())?;
    let members = members_by_group(alloc, groups.len(), memberships)?;
    all_filled(alloc, groups, own.as_slice(), members.as_slice())
}

/// The number of a group's owner. A group without one has 0, and so has one with several, which is refused.
fn owner_number(owners: &[Owned], number: usize) -> u32
    requires { number < length owners.now }
    ensures { result ≡ owner_number (owned_at owners.now number) }
{
    match owners[number] {
        Owned::One(owner) => owner,
        Owned::Nobody | Owned::Several => 0,
    }
}

/// A group with its owner.
fn with_owner(group: Group, owner: u32) -> Group
    ensures { result ≡ record group { owner = owner } }
{
    let mut owned = group;
    owned.owner = owner;
    owned
}

/// Groups with their owners, in the order of their numbers.
pub fn with_owners(
    alloc: Global,
    groups: List<Group>,
    owners: &[Owned],
) -> Result<List<Group>, NoMemory>
    requires { length owners.now ≡ length groups }
    ensures { IfOk result (λ list. list ≡ owned_by groups owners.now) }
{
    let mut list = List::new(alloc);
    for group in groups.into_vec() {
        let owner = owner_number(owners, list.len());
        list.add(with_owner(group, owner))?;
    }
    Ok(list)
}
