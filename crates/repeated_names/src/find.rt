//! Names that stand twice in a list that may hold each but once, and the earliest place of one.

ghost use Rattle.std.specs.Prelude.{◌≡◌, [], None, OnOk, map};
ghost use Rattle.repeated_names.specs.Finding as finding;
ghost use Rattle.repeated_names.specs.Repeats as spec;
ghost use Rattle.repeated_names.specs.RepeatedTypes.{tyvar_repeats};

use bare_forms::name::place;
use cm_base::{NoMemory, Text};
use indexmap::IndexSet;
use sml_trees::{At, Name};
use std::alloc::Global;
use std::marker::Model;

/// The earliest place of those that are found so far. Contracts see it alone.
#[derive(Drop)]
pub struct Finder {
    alloc: Global,
    first: Option<At>,
}

impl Model for Finder {
    ghost use Rattle.std.specs.Prelude.{Option};
    ghost use Rattle.sml_trees.specs.declared.name.At.{At};

    ghost Value = { Option At };

    ghost view = { λ f. f.first };
}

/// The earlier of two places of one file.
pub fn earlier(a: At, b: At) -> At
    ensures { result ≡ spec.earlier a b }
{
    if a.line < b.line || (a.line == b.line && a.col < b.col) {
        a
    } else {
        b
    }
}

impl Finder {
    /// Nothing is found yet.
    pub fn new(alloc: Global) -> Finder
        ensures { result ≡ None }
    {
        Finder { alloc, first: None }
    }

    /// The earliest place.
    pub fn first(&self) -> Option<At>
        ensures { result ≡ self.now }
    {
        self.first
    }

    /// No name of a list is seen yet.
    pub fn no_names(&self) -> IndexSet<Text>
        ensures { result.keys ≡ [] }
    {
        IndexSet::new(self.alloc)
    }

    /// A place is found.
    fn note(&mut self, at: At)
        ensures { self.new ≡ spec.sooner self.old at }
    {
        match self.first {
            None => self.first = Some(at),
            Some(first) => self.first = Some(earlier(at, first)),
        }
    }

    /// A name, behind those of its list that were seen.
    pub fn see(&mut self, seen: &mut IndexSet<Text>, name: &Name) -> Result<(), NoMemory>
        ensures first { OnOk result
            (self.new ≡ spec.earliest_with self.old (spec.place_again seen.old.keys name.now)) }
        ensures names { OnOk result (seen.new.keys ≡ finding.names_then seen.old.keys name.now) }
    {
        if !seen.insert(name.text.copy()?)? {
            self.note(place(name));
        }
        Ok(())
    }
}

/// A member of a list that may hold each name but once.
pub trait Listed {
    ghost use Rattle.repeated_names.specs.Repeats.{Member, earliest_with};

    ghost listed: { Self → Member };

    fn name(&self) -> &Name
        ensures { result.now ≡ (listed self.now).name };

    fn find_inside(&self, finder: &mut Finder) -> Result<(), NoMemory>
        ensures { OnOk result (finder.new ≡ earliest_with finder.old (listed self.now).inside) };
}

/// Names behind others of their list.
#[tactic(auto, using(crate::proofs::Found::found_steps))]
pub fn find_behind<T: Listed>(
    finder: &mut Finder,
    seen: &mut IndexSet<Text>,
    items: &[T],
) -> Result<(), NoMemory>
    ensures first { OnOk result
        (finder.new ≡ spec.earliest_with finder.old (finding.found_behind seen.old.keys (map T.listed items.now))) }
    ensures names { OnOk result (seen.new.keys ≡ finding.names_behind seen.old.keys (map T.listed items.now)) }
{
    for item in items {
        finder.see(seen, item.name())?;
        item.find_inside(finder)?;
    }
    Ok(())
}

/// The names of a list.
#[tactic(auto, using(crate::proofs::Found::found_in))]
pub fn find_in<T: Listed>(finder: &mut Finder, items: &[T]) -> Result<(), NoMemory>
    ensures { OnOk result
        (finder.new ≡ spec.earliest_with finder.old (spec.repeats_in (map T.listed items.now))) }
{
    let mut seen = finder.no_names();
    find_behind(finder, &mut seen, items)
}

/// What holds lists, and has no name of its own in one.
pub trait Searched {
    ghost use Rattle.std.specs.Prelude.{List};
    ghost use Rattle.sml_trees.specs.declared.name.At.{At};
    ghost use Rattle.repeated_names.specs.Repeats.{earliest_with};

    ghost repeats: { Self → List At };

    fn find(&self, finder: &mut Finder) -> Result<(), NoMemory>
        ensures { OnOk result (finder.new ≡ earliest_with finder.old (repeats self.now)) };
}

/// The lists of all of these.
#[tactic(auto, using(crate::proofs::Found::found_steps))]
pub fn find_all<T: Searched>(finder: &mut Finder, items: &[T]) -> Result<(), NoMemory>
    ensures { OnOk result
        (finder.new ≡ spec.earliest_with finder.old (spec.all_repeats (map T.repeats items.now))) }
{
    for item in items {
        item.find(finder)?;
    }
    Ok(())
}

impl Listed for Name {
    ghost use Rattle.repeated_names.specs.Repeats.{bare_member};

    ghost listed = { bare_member };

    fn name(&self) -> &Name {
        self
    }

    fn find_inside(&self, finder: &mut Finder) -> Result<(), NoMemory> {
        let _finder = finder;
        Ok(())
    }
}

/// A list of type variables.
pub fn find_tyvars(finder: &mut Finder, tyvars: &[Name]) -> Result<(), NoMemory>
    ensures { OnOk result (finder.new ≡ spec.earliest_with finder.old (tyvar_repeats tyvars.now)) }
{
    find_in(finder, tyvars)
}
