//! What a unit imports.

ghost use Rattle.std.specs.Prelude.{◌≡◌, IfOk};
ghost use Rattle.cm_base.specs.Calls.{Gives};
ghost use Rattle.visibility.specs.Imports.{collected, import_by};
ghost use Rattle.cm_base.specs.declared.fault.Fault.TheVariants.{Diag};
ghost use Rattle.visibility.specs.Projects.{name_refused, spot_place};
ghost use Rattle.visibility.specs.Tables.{GivesOption, imports_by_tables, provider_by};

use crate::built_in::is_built_in;
use crate::copies::copied;
use crate::found::Found;
use crate::group_names::GroupNames;
use crate::projects::{sees_basis, unit_file};
use crate::refusals::{refused, spot_place};
use cm_base::{Fault, List, Need, NoMemory, Skeleton, Spot, Text};
use cm_description::{Project, Wanted};
use std::alloc::Global;

/// The refusal of a name at its spot in a unit's file.
fn refused_at(alloc: Global, number: u8, file: &Text, spot: &Spot) -> Result<Fault, NoMemory>
    ensures { IfOk result (λ fault. fault ≡ Diag (name_refused number (spot_place file.now spot.now) spot.now.name)) }
{
    Ok(Fault::Diag(refused(alloc, number, spot_place(file, spot)?, &spot.name)?))
}

/// What is imported for a name that a unit uses: where it has one provider, that; where the name is sure and has
/// several, 23; and where it is sure, has none, and is no built-in structure that the unit sees, 24.
fn import(
    alloc: Global,
    file: &Text,
    basis: bool,
    need: &Need,
    found: Found,
) -> Result<Option<Wanted>, Fault>
    ensures { GivesOption result (import_by basis (spot_place file.now need.now.spot) need.now found) }
{
    match found {
        Found::One(provider) => Ok(Some(Wanted {
            name: copied(&need.spot.name)?,
            provider,
        })),
        Found::Several => {
            if need.sure {
                Err(refused_at(alloc, 23, file, &need.spot)?)
            } else {
                Ok(None)
            }
        }
        Found::Missing => {
            if !need.sure || (basis && is_built_in(&need.spot.name)) {
                Ok(None)
            } else {
                Err(refused_at(alloc, 24, file, &need.spot)?)
            }
        }
    }
}

/// The imports for the names that a unit uses, in their order.
fn import_all(
    alloc: Global,
    names: &GroupNames,
    unit: u32,
    file: &Text,
    basis: bool,
    needs: &[Need],
) -> Result<List<Wanted>, Fault>
    ensures { Gives result
        (collected (λ need. import_by basis (spot_place file.now need.spot) need (provider_by names.now unit need.spot.name))
        needs.now) }
{
    let mut wanted = List::new(alloc);
    for need in needs {
        let found = names.provider(&need.spot.name, unit);
        if let Some(item) = import(alloc, file, basis, need, found)? {
            wanted.add(item)?;
        }
    }
    Ok(wanted)
}

/// The imports of a unit by the names of its group.
pub(crate) fn imports_by(
    alloc: Global,
    project: &Project,
    skeletons: &List<Skeleton>,
    names: &GroupNames,
    unit: u32,
) -> Result<List<Wanted>, Fault>
    ensures { Gives result (imports_by_tables project.now skeletons.now names.now unit) }
{
    let file = unit_file(alloc, project, unit)?;
    let basis = sees_basis(project, unit);
    match skeletons.get(unit as usize) {
        Some(skeleton) => import_all(alloc, names, unit, &file, basis, skeleton.free.as_slice()),
        None => Ok(List::new(alloc)),
    }
}
