//! The owners of groups, passed down from ROOT and the libraries in one pass.

ghost use Rattle.std.specs.Prelude.{◌≡◌, ◌<◌, All, IfOk, length, replicate};
ghost use Rattle.project_checks.specs.Owners.{AreOrdered, owns_itself};
ghost use Rattle.project_checks.specs.Owning.{AreWithin, HaveOwners, Joins, PassesDown, joined, own_turn, owned_at};

use cm_base::NoMemory;
use cm_description::Group;
use std::alloc::Global;

/// The owners that a group is known to have: none yet, one, or several that differ.
#[derive(Clone, Copy, Debug, PartialEq, Eq)]
pub enum Owned {
    Nobody,
    One(u32),
    Several,
}

/// Nobody owns any of so many groups.
fn unowned(alloc: Global, count: usize) -> Result<Vec<Owned>, NoMemory>
    ensures { IfOk result (λ owners. owners.items ≡ replicate count Owned.Nobody) }
{
    let mut owners = Vec::new(alloc);
    for _at in 0..count {
        owners.push(Owned::Nobody)?;
    }
    Ok(owners)
}

/// The owners of both.
fn joined(one: Owned, other: Owned) -> Owned
    ensures { result ≡ joined one other }
{
    match (one, other) {
        (Owned::Nobody, owned) => owned,
        (owned, Owned::Nobody) => owned,
        (Owned::One(owner), Owned::One(second)) => {
            if owner == second {
                Owned::One(owner)
            } else {
                Owned::Several
            }
        }
        (Owned::Several, _) => Owned::Several,
        (_, Owned::Several) => Owned::Several,
    }
}

/// Gives owners to each of these groups, beside those that they have.
fn give(owners: &mut [Owned], members: &[u32], owned: Owned)
    requires { All (λ member. member < length owners.old) members.now }
    ensures { Joins members.now owned owners.old owners.new }
{
    for member in members {
        owners[*member as usize] = joined(owners[*member as usize], owned);
    }
}

/// Whether a group owns itself: ROOT, which is number 0, and each library.
fn owns_itself(groups: &[Group], number: u32) -> bool
    requires { number < length groups.now }
    ensures { result ≡ owns_itself groups.now number }
{
    number == 0 || groups[number as usize].library
}

/// What a group has when it is its turn: itself, or what was passed down to it.
fn own_turn(groups: &[Group], owners: &[Owned], number: u32) -> Owned
    requires groups { number < length groups.now }
    requires owners { number < length owners.now }
    ensures { result ≡ own_turn groups.now number (owned_at owners.now number) }
{
    if owns_itself(groups, number) {
        Owned::One(number)
    } else {
        owners[number as usize]
    }
}

/// Passes the owners of a group down to its members.
fn pass_down(groups: &[Group], owners: &mut [Owned], number: u32)
    requires number { number < length groups.now }
    requires owners { length owners.old ≡ length groups.now }
    requires members { AreWithin groups.now }
    ensures { PassesDown groups.now number owners.old owners.new }
{
    let owned = own_turn(groups, owners, number);
    owners[number as usize] = owned;
    give(owners, groups[number as usize].members.as_slice(), owned);
}

/// The owners of each group, by their numbers. In the order in which loading ended each group stands behind its
/// members, so they are gone through from the last to the first.
pub fn owners_of(alloc: Global, groups: &[Group], finished: &[u32]) -> Result<Vec<Owned>, NoMemory>
    requires ordered { AreOrdered groups.now finished.now }
    requires numbers { All (λ number. number < length groups.now) finished.now }
    requires members { AreWithin groups.now }
    ensures { IfOk result (λ owners. HaveOwners groups.now finished.now owners.items) }
{
    let mut owners = unowned(alloc, groups.len())?;
    let mut rest = finished;
    while let Some((number, before)) = rest.split_last() {
        pass_down(groups, owners.as_mut_slice(), *number);
        rest = before;
    }
    Ok(owners)
}
