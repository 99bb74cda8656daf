//! Sources that were read and not compiled yet, so that none is read twice.

ghost use Rattle.std.specs.Prelude.{◌≡◌, List, ℕ, Ok, Some, IfSome, OnErr, OnOk, cond, nat_eq};
ghost use Rattle.indexmap.specs.IndexMap.{get};
ghost use Rattle.cm_base.specs.Calls.{Gives};
ghost use Rattle.unit_compiling.specs.Compiled.{bare_of_source};
ghost use Rattle.unit_compiling.specs.Kept.{AreRead, IsBareOf};
ghost use lib.Pointwise.{pointwise};

use crate::source::bare_of_source;
use cm_base::{Fault, NoMemory, Text};
use indexmap::IndexMap;
use sml_trees::BareUnit;
use std::alloc::Global;

/// The most bytes of sources whose bare units are kept, so that a large project doesn't hold all of its trees at once.
const KEPT_LIMIT: usize = 262_144;

/// A source and its bare unit.
#[derive(Drop)]
pub struct ReadSource {
    pub source: Text,
    pub bare: BareUnit,
}

/// The sources that were read and not compiled yet, by their units, and how many bytes they have. Those that come first
/// are kept: they are compiled first.
#[derive(Drop)]
pub struct ReadSources {
    pub by_unit: IndexMap<Text, ReadSource>,
    pub bytes: usize,
}

/// Notes the source of a unit in the place of the one before it.
fn note(
    by_unit: &mut IndexMap<Text, ReadSource>,
    unit: Text,
    read: ReadSource,
) -> Result<(), NoMemory>
    ensures ok { OnOk result ((name : List ℕ) → get (pointwise nat_eq) by_unit.new name
        ≡ cond (pointwise nat_eq unit name) (Some read) (get (pointwise nat_eq) by_unit.old name)) }
    ensures err { OnErr result (by_unit.new.entries ≡ by_unit.old.entries) }
{
    by_unit.insert(unit, read)?;
    Ok(())
}

impl ReadSources {
    /// None was read.
    pub fn new(alloc: Global) -> ReadSources
        ensures { AreRead result }
    {
        ReadSources {
            by_unit: IndexMap::new(alloc),
            bytes: 0,
        }
    }

    /// Keeps the bare unit of a source until it is taken, unless that would be too many bytes.
    pub fn keep(&mut self, unit: &Text, source: &Text, bare: BareUnit) -> Result<(), NoMemory>
        requires read { AreRead self.old }
        requires is { bare_of_source unit.now source.now ≡ Ok bare }
        ensures { AreRead self.new }
    {
        let bytes = self.bytes.saturating_add(source.as_bytes().len());
        if bytes > KEPT_LIMIT {
            return Ok(());
        }
        let unit = unit.copy()?;
        let source = source.copy()?;
        note(&mut self.by_unit, unit, ReadSource { source, bare })?;
        self.bytes = bytes;
        Ok(())
    }

    /// Takes the bare unit of a source, if it is kept. What is kept of another source of the unit is let go.
    fn take(&mut self, unit: &Text, source: &Text) -> Option<BareUnit>
        requires { AreRead self.old }
        ensures read { AreRead self.new }
        ensures is { IfSome result (λ bare. bare_of_source unit.now source.now ≡ Ok bare) }
    {
        let Some(read) = self.by_unit.swap_remove(unit) else {
            return None;
        };
        self.bytes = self.bytes.saturating_sub(read.source.as_bytes().len());
        bare_if_of(read, source)
    }

    /// The bare unit of a source, or its first diagnostic; the source is read where its bare unit isn't kept.
    pub fn bare_of(&mut self, alloc: Global, unit: &Text, source: &Text) -> Result<BareUnit, Fault>
        requires { AreRead self.old }
        ensures read { AreRead self.new }
        ensures gives { Gives result (bare_of_source unit.now source.now) }
    {
        match self.take(unit, source) {
            Some(bare) => Ok(bare),
            None => bare_of_source(alloc, unit, source),
        }
    }
}

/// The bare unit of what was read, if that was this source.
fn bare_if_of(read: ReadSource, source: &Text) -> Option<BareUnit>
    ensures { IfSome result (IsBareOf read source.now) }
{
    if read.source.as_bytes() == source.as_bytes() {
        Some(read.bare)
    } else {
        None
    }
}
