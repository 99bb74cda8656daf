//! What the names of a group are found by.

ghost use Rattle.std.specs.Prelude.{◌≡◌, nat_eq};
ghost use Rattle.indexmap.specs.IndexMap.{get};
ghost use Rattle.cm_conditions.specs.Tables.{same_name};

use crate::definers::definers_of;
use crate::exported::{found_among, found_at};
use crate::found::Found;
use crate::projects::{members, sources};
use cm_base::{Fault, List, ModName, Skeleton};
use cm_description::{Export, Project};
use indexmap::IndexMap;
use std::alloc::Global;

/// The first source that defines each name, and the units under which members export each name.
#[derive(Drop)]
pub(crate) struct GroupNames {
    pub definers: IndexMap<ModName, u32>,
    pub members: IndexMap<ModName, Found>,
}

impl GroupNames {
    ghost use Rattle.visibility.specs.Tables.{defining, defining_else, MakesNames, behind_by, provider_by};

    /// The names of a group. 22 is the answer where two of its sources define one.
    pub fn of(
        alloc: Global,
        project: &Project,
        skeletons: &List<Skeleton>,
        places: &IndexMap<u32, usize>,
        below: &List<List<Export>>,
        group: u32,
    ) -> Result<GroupNames, Fault>
        ensures { MakesNames result project.now skeletons.now (get nat_eq places.now) below.now group }
    {
        let definers = definers_of(alloc, project, skeletons, sources(project, group))?;
        let members = found_among(alloc, places, below, members(project, group))?;
        Ok(GroupNames { definers, members })
    }

    /// The source that defines a name.
    pub fn definer(&self, name: &ModName) -> Found
        ensures { result ≡ defining (get same_name self.now.definers name.now) }
    {
        match self.definers.get(name) {
            Some(unit) => Found::One(*unit),
            None => Found::Missing,
        }
    }

    /// The source that defines a name, other than this one.
    fn other_definer(&self, name: &ModName, unit: u32) -> Found
        ensures { result ≡ defining_else unit (get same_name self.now.definers name.now) }
    {
        match self.definers.get(name) {
            Some(first) => {
                if *first == unit {
                    Found::Missing
                } else {
                    Found::One(*first)
                }
            }
            None => Found::Missing,
        }
    }

    /// What stands behind a name in the export list: the source that defines it, or else the units of the members.
    pub fn behind(&self, name: &ModName) -> Found
        ensures { result ≡ behind_by self.now name.now }
    {
        self.definer(name).or_else(found_at(&self.members, name))
    }

    /// The provider of a name that a unit uses.
    pub fn provider(&self, name: &ModName, unit: u32) -> Found
        ensures { result ≡ provider_by self.now unit name.now }
    {
        self.other_definer(name, unit)
            .or_else(found_at(&self.members, name))
    }
}
