//! The module names that are bound where a phrase stands.

ghost use Rattle.std.specs.Prelude.{◌≡◌, ◌≤◌, ◌+◌, ◌-◌, [], ◌∷◌, ◌++◌, Some, IfOk, OnErr, OnOk, length, take};
ghost use Rattle.skeletons.specs.Scopes.{is_bound};
ghost use Rattle.skeletons.specs.Counting.{count_in, Puts, CountsAlike, Drops, DropsAll, IsCounted, hide_at};

use crate::first_places::copied;
use cm_base::{ModName, NoMemory};
use indexmap::IndexMap;
use std::alloc::Global;
use std::marker::Model;

/// The names that are bound, in the order of their bindings, and how many bindings of each there are. A binding
/// that a `local` has hidden again stands as None. Contracts see the list.
#[derive(Drop)]
pub(crate) struct Names {
    counts: IndexMap<ModName, usize>,
    trail: Vec<Option<ModName>>,
}

impl Model for Names {
    ghost use Rattle.std.specs.Prelude.{List, Option};
    ghost use Rattle.cm_base.specs.declared.record.ModName.{ModName};
    ghost use Rattle.skeletons.specs.Counting.{IsCounted};

    ghost Value = { List (Option ModName) };

    ghost view = { λ n. n.trail.items };

    ghost invariant = { λ n. IsCounted n.counts n.trail.items };
}

/// How many bindings a name has.
fn count_of(counts: &IndexMap<ModName, usize>, name: &ModName) -> usize
    ensures { result ≡ count_in counts.now name.now }
{
    match counts.get(name) {
        Some(count) => *count,
        None => 0,
    }
}

/// One more. A number that has no room is answered as want of memory, which is met long before it.
pub(crate) fn more(count: usize) -> Result<usize, NoMemory>
    ensures { IfOk result (λ more. more ≡ count + 1) }
{
    count.checked_add(1).ok_or(NoMemory)
}

/// Sets the count of a name. Want of memory leaves the counts as they were.
fn put(counts: &mut IndexMap<ModName, usize>, name: ModName, count: usize) -> Result<(), NoMemory>
    ensures ok { OnOk result (Puts counts.old counts.new name count) }
    ensures err { OnErr result (CountsAlike counts.old counts.new) }
{
    match counts.insert(name, count) {
        Ok(_) => Ok(()),
        Err(_) => Err(NoMemory),
    }
}

/// Counts one binding less of a name, if there is one.
fn uncount(counts: &mut IndexMap<ModName, usize>, name: &Option<ModName>)
    ensures { Drops counts.old counts.new name.now }
{
    let Some(name) = name else {
        return;
    };
    if let Some(count) = counts.get_mut(name) {
        *count = count.saturating_sub(1);
    }
}

/// Counts these bindings no more.
fn uncount_all(counts: &mut IndexMap<ModName, usize>, names: &[Option<ModName>])
    ensures { DropsAll counts.old counts.new names.now }
{
    for name in names {
        uncount(counts, name);
    }
}

/// Hides the bindings from one place up to another, and counts them no more.
fn hide_names(
    counts: &mut IndexMap<ModName, usize>,
    names: &mut Vec<Option<ModName>>,
    from: usize,
    to: usize,
)
    requires counted { IsCounted counts.old names.old.items }
    requires order { from ≤ to }
    requires within { to ≤ length names.old.items }
    ensures hidden { names.new.items ≡ hide_at from (to - from) names.old.items }
    ensures counted { IsCounted counts.new names.new.items }
{
    for at in from..to {
        let name = names[at].take();
        uncount(counts, &name);
    }
}

impl Names {
    /// No name.
    pub(crate) fn new(alloc: Global) -> Names
        ensures { result ≡ [] }
    {
        Names {
            counts: IndexMap::new(alloc),
            trail: Vec::new(alloc),
        }
    }

    /// How many bindings there have been, hidden ones among them.
    pub(crate) fn len(&self) -> usize
        ensures { result ≡ length self.now }
    {
        self.trail.len()
    }

    /// Whether a name is bound.
    pub(crate) fn binds(&self, name: &ModName) -> bool
        ensures { result ≡ is_bound self.now name.now }
    {
        count_of(&self.counts, name) != 0
    }

    /// Binds a name.
    pub(crate) fn bind(&mut self, name: ModName) -> Result<(), NoMemory>
        ensures { OnOk result (self.new ≡ self.old ++ Some name ∷ []) }
    {
        let copy = copied(&name)?;
        let more = more(count_of(&self.counts, &name))?;
        let before = self.trail.len();
        self.trail.push(Some(copy))?;
        match put(&mut self.counts, name, more) {
            Ok(()) => Ok(()),
            Err(NoMemory) => {
                self.trail.truncate(before);
                Err(NoMemory)
            }
        }
    }

    /// Ends the scope of all bindings but the first ones.
    #[tactic(auto, using(crate::proofs::Counts::take_past))]
    pub(crate) fn leave(&mut self, kept: usize)
        ensures { self.new ≡ take kept self.old }
    {
        if kept >= self.trail.len() {
            return;
        }
        uncount_all(&mut self.counts, &self.trail[kept..]);
        self.trail.truncate(kept);
    }

    /// Hides the bindings from one place up to another.
    pub(crate) fn hide(&mut self, from: usize, to: usize)
        requires order { from ≤ to }
        requires within { to ≤ length self.old }
        ensures { self.new ≡ hide_at from (to - from) self.old }
    {
        hide_names(&mut self.counts, &mut self.trail, from, to);
    }
}
