//! The greatest choice of types that admit equality, by a list of types that turned out not to.

ghost use Rattle.std.specs.Prelude.{◌≡◌, ◌<◌, true, [], List, length, replicate, All, Contains, IfOk, OnOk};
ghost use Rattle.equality_types.specs.Choices.{AllAreTypes, IsGreatest, is_barred, holders_of};
ghost use Rattle.equality_types.specs.Falling.{Falls, IsFalling};

use cm_base::{List, NoMemory};
use std::alloc::Global;

/// A type doesn't admit equality. What that means for others is still to be looked at, if it did so far.
fn refuse(choice: &mut [bool], work: &mut Vec<usize>, at: usize) -> Result<(), NoMemory>
    requires { at < length choice.old }
    ensures { OnOk result (Falls (λ met. met ≡ at) choice.old choice.new work.old.items work.new.items) }
{
    if choice[at] {
        choice[at] = false;
        work.push(at)?;
    }
    Ok(())
}

/// No type of a list admits equality.
fn refuse_all(choice: &mut [bool], work: &mut Vec<usize>, list: &[usize]) -> Result<(), NoMemory>
    requires { All (λ at. at < length choice.old) list.now }
    ensures { OnOk result (Falls (Contains list.now) choice.old choice.new work.old.items work.new.items) }
{
    for at in list {
        refuse(choice, work, *at)?;
    }
    Ok(())
}

/// The types that are barred don't admit equality.
fn refuse_barred(
    barred: &[bool],
    choice: &mut [bool],
    work: &mut Vec<usize>,
) -> Result<(), NoMemory>
    requires { length choice.old ≡ length barred.now }
    ensures { OnOk result
        (Falls (λ at. is_barred barred.now at ≡ true) choice.old choice.new work.old.items work.new.items) }
{
    for at in 0..barred.len() {
        if barred[at] {
            refuse(choice, work, at)?;
        }
    }
    Ok(())
}

/// The types that hold a type.
fn holders_at(holders: &[List<usize>], part: usize) -> &[usize]
    requires { part < length holders.now }
    ensures { result.now ≡ holders_of holders.now part }
{
    holders[part].as_slice()
}

/// Goes on from the types that turned out not to admit equality to those that hold them.
fn refuse_holders(
    barred: &[bool],
    holders: &[List<usize>],
    choice: &mut [bool],
    work: &mut Vec<usize>,
) -> Result<(), NoMemory>
    requires types { AllAreTypes holders.now }
    requires falling { IsFalling barred.now holders.now choice.old work.old.items }
    ensures { OnOk result (IsGreatest barred.now holders.now choice.new) }
{
    while let Some(part) = work.pop() {
        refuse_all(choice, work, holders_at(holders, part))?;
    }
    Ok(())
}

/// Leaves the greatest choice, where all types admit equality at first.
fn refuse_where_needed(
    alloc: Global,
    barred: &[bool],
    holders: &[List<usize>],
    choice: &mut [bool],
) -> Result<(), NoMemory>
    requires counted { length barred.now ≡ length holders.now }
    requires types { AllAreTypes holders.now }
    requires all { choice.old ≡ replicate (length holders.now) true }
    ensures { OnOk result (IsGreatest barred.now holders.now choice.new) }
{
    let mut work = Vec::new(alloc);
    refuse_barred(barred, choice, &mut work)?;
    refuse_holders(barred, holders, choice, &mut work)
}

/// Which of some types admit equality, as far as they can together: none that is barred by itself, and none that holds
/// one that doesn't. `holders` has for each type the types that hold it.
pub fn greatest_choice(
    alloc: Global,
    barred: &List<bool>,
    holders: &List<List<usize>>,
) -> Result<List<bool>, NoMemory>
    requires counted { length barred.now ≡ length holders.now }
    requires types { AllAreTypes holders.now }
    ensures { IfOk result (λ choice. IsGreatest barred.now holders.now choice) }
{
    let mut choice = vec![in alloc; true; holders.len()]?;
    refuse_where_needed(alloc, barred.as_slice(), holders.as_slice(), &mut choice)?;
    Ok(List::from_vec(choice))
}
