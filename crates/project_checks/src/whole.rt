//! The project of what was loaded, when all loading ended.

ghost use Rattle.std.specs.Prelude.{IfOk};
ghost use Rattle.cm_base.specs.Calls.{Gives};
ghost use Rattle.cm_description.specs.WellFormed.{IsWellFormed};
ghost use Rattle.project_checks.specs.Checks.{checked};
ghost use Rattle.project_checks.specs.Whole.{IsWhole};

use crate::assembling::{filled_groups, with_owners};
use crate::checks::{freezing_checked, owned_once, units_once};
use crate::owners::owners_of;
use crate::progress::Progress;
use cm_base::Fault;
use cm_description::Project;
use std::alloc::Global;

/// The project of what was loaded, or what is refused of it: 11, 15, and where it is to be frozen 14 and 13.
pub fn checked(alloc: Global, freezing: bool, progress: Progress) -> Result<Project, Fault>
    requires { IsWhole progress }
    ensures gives { Gives result (checked freezing progress) }
    ensures formed { IfOk result IsWellFormed }
{
    units_once(alloc, progress.units.as_slice())?;
    let Progress {
        units,
        groups,
        memberships,
        finished,
        sum: _,
    } = progress;
    let groups = filled_groups(alloc, groups, units.as_slice(), memberships.as_slice())?;
    let owners = owners_of(alloc, groups.as_slice(), finished.as_slice())?;
    owned_once(alloc, groups.as_slice(), owners.as_slice())?;
    freezing_checked(alloc, freezing, groups.as_slice())?;
    let groups = with_owners(alloc, groups, owners.as_slice())?;
    Ok(Project {
        units,
        groups,
        finished,
    })
}
