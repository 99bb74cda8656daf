//! The least of names, for refusals that stand at it.

ghost use Rattle.std.specs.Prelude.{◌≡◌, IfOk, map};
ghost use Rattle.std.specs.Cmp.Lexicographic.{slice_cmp};
ghost use Rattle.std.specs.Ordering.{is_lt, nat_cmp};
ghost use Rattle.project_checks.specs.Checks.{least, least_if, least_with, repeated};

use cm_base::{NoMemory, Text};
use cm_description::Unit;
use indexmap::IndexSet;
use std::alloc::Global;

/// Whether the first name stands before the other in byte order.
fn is_before(name: &Text, other: &Text) -> bool
    ensures { result ≡ is_lt (slice_cmp nat_cmp name.now other.now) }
{
    name.cmp(other).is_lt()
}

/// The lesser of a name and the least one of others, if there are any.
fn least_with(name: &Text, least: Option<Text>) -> Result<Text, NoMemory>
    ensures { IfOk result (λ lesser. lesser ≡ least_with name.now least) }
{
    match least {
        Some(other) => {
            if is_before(&other, name) {
                Ok(other)
            } else {
                name.copy()
            }
        }
        None => name.copy(),
    }
}

/// The lesser of a name and the least one of others, where the name passes.
pub fn least_if(passes: bool, name: &Text, least: Option<Text>) -> Result<Option<Text>, NoMemory>
    ensures { IfOk result (λ lesser. lesser ≡ least_if passes name.now least) }
{
    if passes {
        Ok(Some(least_with(name, least)?))
    } else {
        Ok(least)
    }
}

/// The least name that two units have.
pub fn least_repeated(alloc: Global, units: &[Unit]) -> Result<Option<Text>, NoMemory>
    ensures { IfOk result (λ name. name ≡ least (repeated (map (λ unit. unit.name) units.now))) }
{
    let mut behind = IndexSet::new(alloc);
    let mut least = None;
    let mut rest = units;
    while let Some((unit, before)) = rest.split_last() {
        least = least_if(behind.contains(&unit.name), &unit.name, least)?;
        behind.insert(unit.name.copy()?)?;
        rest = before;
    }
    Ok(least)
}
