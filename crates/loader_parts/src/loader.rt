//! What was loaded so far, with tables in which groups are found by their names.

ghost use Rattle.std.specs.Prelude.{◌≡◌, ◌<◌, ◌^◌, None, IfOk, OnOk, length};
ghost use Rattle.loader_parts.specs.Answers.{LeavesBy};
ghost use Rattle.loader_parts.specs.Loaders.{HasTables};
ghost use Rattle.project_loading.specs.Projects.{number_of, is_finished, passes_limits, with_source};
ghost use Rattle.project_checks.specs.Loaded.{nothing, with_begun, with_finished, with_membership};

use cm_base::{Diag, Fault, List, NoMemory, Options, Text};
use cm_description::{Group, Unit, UnitBody};
use indexmap::IndexSet;
use project_checks::{ALL_SOURCES, GROUPS, Membership, Progress, UNITS};
use std::alloc::Global;

/// What was loaded so far. Beside it stand the names of the groups, in the order of their numbers, and the numbers of
/// those whose loading ended.
#[derive(Drop)]
pub struct Loader {
    pub progress: Progress,
    pub names: IndexSet<Text>,
    pub ended: IndexSet<u32>,
}

impl Loader {
    /// Nothing was loaded.
    pub fn new(alloc: Global) -> Loader
        ensures nothing { result.progress ≡ nothing }
        ensures tables { HasTables result }
    {
        Loader {
            progress: Progress {
                units: List::new(alloc),
                groups: List::new(alloc),
                memberships: List::new(alloc),
                finished: List::new(alloc),
                sum: 0,
            },
            names: IndexSet::new(alloc),
            ended: IndexSet::new(alloc),
        }
    }

    /// The number of the next group.
    pub fn next_number(&self) -> u32
        requires { HasTables self.now }
        ensures { result ≡ length self.now.progress.groups }
    {
        self.progress.groups.len() as u32
    }

    /// The number of the group of a name, if its loading began.
    pub fn number_of(&self, name: &Text) -> Option<u32>
        requires { HasTables self.now }
        ensures { result ≡ number_of self.now.progress name.now }
    {
        match self.names.get_index_of(name) {
            Some(number) => Some(number as u32),
            None => None,
        }
    }

    /// Whether the loading of a group ended.
    pub fn is_finished(&self, number: u32) -> bool
        requires { HasTables self.now }
        ensures { result ≡ is_finished self.now.progress number }
    {
        self.ended.contains(&number)
    }

    /// The loading of a group begins.
    pub fn begin(&mut self, group: Group) -> Result<(), NoMemory>
        requires tables { HasTables self.old }
        requires new { number_of self.old.progress group.file ≡ None }
        requires room { length self.old.progress.groups < GROUPS }
        ensures begun { OnOk result (self.new.progress ≡ with_begun group self.old.progress) }
        ensures tables { OnOk result (HasTables self.new) }
    {
        self.names.insert(group.file.copy()?)?;
        self.progress.groups.add(group)?;
        Ok(())
    }

    /// The loading of a group ends.
    pub fn finish(&mut self, number: u32) -> Result<(), NoMemory>
        requires tables { HasTables self.old }
        ensures finished { OnOk result (self.new.progress ≡ with_finished number self.old.progress) }
        ensures tables { OnOk result (HasTables self.new) }
    {
        self.ended.insert(number)?;
        self.progress.finished.add(number)?;
        Ok(())
    }

    /// A group is a member of another one.
    pub fn join(&mut self, group: u32, member: u32) -> Result<(), NoMemory>
        requires tables { HasTables self.old }
        ensures joined { OnOk result (self.new.progress ≡ with_membership group member self.old.progress) }
        ensures tables { OnOk result (HasTables self.new) }
    {
        self.progress.memberships.add(Membership { group, member })?;
        Ok(())
    }

    /// Whether one unit more, with a source of so many bytes, passes a limit.
    fn is_full(&self, bytes: usize) -> bool
        requires { HasTables self.now }
        ensures { result ≡ passes_limits self.now.progress bytes }
    {
        self.progress.units.len() as u64 >= UNITS || bytes as u64 > ALL_SOURCES - self.progress.sum
    }

    /// A unit is met in the group of a number. 12 for one unit too many, or for the sum of all sources.
    #[tactic(auto, using(crate::proofs::Sourcing::room_for_units, crate::proofs::Sourcing::room_for_bytes, crate::proofs::Sourcing::sources_more))]
    pub fn add_source(
        &mut self,
        alloc: Global,
        group: u32,
        name: Text,
        options: Options,
        source: Text,
    ) -> Result<(), Fault>
        requires tables { HasTables self.old }
        requires named { length name < 2 ^ 32 }
        ensures gives { LeavesBy result (with_source group name options source self.old.progress) self.new.progress }
        ensures tables { OnOk result (HasTables self.new) }
    {
        let bytes = source.as_bytes().len();
        if self.is_full(bytes) {
            return Err(Fault::Diag(Diag::on_file(alloc, 12, &name)?));
        }
        self.progress.units.add(Unit {
            name,
            group,
            body: UnitBody::Source { options, source },
        })?;
        self.progress.sum += bytes as u64;
        Ok(())
    }

    /// What was loaded.
    pub fn into_progress(self) -> Progress
        ensures { result ≡ self.progress }
    {
        let Loader {
            progress,
            names: _names,
            ended: _ended,
        } = self;
        progress
    }
}
