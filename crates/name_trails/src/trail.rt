//! Entries by name, in the order in which they were bound.

ghost use Rattle.std.specs.Prelude.{◌≡◌, [], ◌∷◌, ◌++◌, length, take, drop, OnOk, OnErr};
ghost use Rattle.std.specs.Option.{option_copied};
ghost use Rattle.name_trails.specs.Trails.{last_entry};
ghost use Rattle.name_trails.specs.Places.{Puts, TellsAlike, entry_at};

use crate::places::{forget, place_of};
use cm_base::{NoMemory, Text};
use indexmap::IndexMap;
use std::alloc::Global;
use std::marker::Model;

/// Bindings of names in the order in which they were made, which is how contracts see them. A table tells where the
/// last binding of each name stands, and each binding where the one of its name before it does.
#[derive(Drop)]
pub struct NameTrail<T> {
    rows: Vec<(Text, T)>,
    links: Vec<Option<usize>>,
    last: IndexMap<Text, Option<usize>>,
}

impl<T> Model for NameTrail<T> {
    ghost use Rattle.std.specs.Prelude.{ℕ, List};
    ghost use Rattle.std.specs.Coded.{coded_list, coded×, coded_ℕ};

    ghost Value = { List (List ℕ × T) };

    ghost coded = { coded_list (coded× (coded_list coded_ℕ) T.code) };

    ghost use Rattle.name_trails.specs.Places.{IsTable};

    ghost view = { λ t. t.rows.items };

    ghost invariant = { λ t. IsTable t.last t.links.items t.rows.items };
}

impl<T> NameTrail<T> {
    /// No binding. It takes no memory.
    pub fn new(alloc: Global) -> NameTrail<T>
        ensures { result ≡ [] }
    {
        NameTrail {
            rows: Vec::new(alloc),
            links: Vec::new(alloc),
            last: IndexMap::new(alloc),
        }
    }

    /// How many bindings there are.
    pub fn len(&self) -> usize
        ensures { result ≡ length self.now }
    {
        self.rows.len()
    }

    /// The bindings, for a loop over them.
    pub fn rows(&self) -> &[(Text, T)]
        ensures { result.now ≡ self.now }
    {
        self.rows.as_slice()
    }

    /// What the last binding of a name gives it.
    pub fn find(&self, name: &Text) -> Option<&T>
        ensures { option_copied result ≡ last_entry self.now name.now }
    {
        self.find_since(0, name)
    }

    /// What the last binding of a name gives it, where those before a place don't count.
    pub fn find_since(&self, start: usize, name: &Text) -> Option<&T>
        ensures { option_copied result ≡ last_entry (drop start self.now) name.now }
    {
        match place_of(&self.last, name) {
            Some(place) => entry_since(&self.rows, start, place),
            None => None,
        }
    }
}

impl<T: Drop> NameTrail<T> {
    /// Binds a name. Want of memory leaves all bindings as they were.
    pub fn bind(&mut self, name: Text, entry: T) -> Result<(), NoMemory>
        ensures ok { OnOk result (self.new ≡ self.old ++ (name, entry) ∷ []) }
        ensures err { OnErr result (self.new ≡ self.old) }
    {
        let key = name.copy()?;
        let before = place_of(&self.last, &key);
        let at = self.links.len();
        self.links.push(before)?;
        match put(&mut self.rows, &mut self.last, key, name, entry) {
            Ok(()) => Ok(()),
            Err(NoMemory) => {
                self.links.truncate(at);
                Err(NoMemory)
            }
        }
    }

    /// Takes all bindings back but so many. It takes no memory.
    pub fn truncate(&mut self, len: usize)
        ensures { self.new ≡ take len self.old }
    {
        if len < self.rows.len() {
            forget(&mut self.last, &self.rows, &self.links, len);
            self.rows.truncate(len);
            self.links.truncate(len);
        }
    }
}

/// The entry at a place, if the place counts.
fn entry_since<T>(rows: &[(Text, T)], start: usize, place: usize) -> Option<&T>
    ensures { option_copied result ≡ entry_at start rows.now place }
{
    if place < start {
        return None;
    }
    match rows.get(place) {
        Some(row) => Some(&row.1),
        None => None,
    }
}

/// Puts a row behind the others, and its place into the table. Want of memory leaves both as they were.
fn put<T: Drop>(
    rows: &mut Vec<(Text, T)>,
    last: &mut IndexMap<Text, Option<usize>>,
    key: Text,
    name: Text,
    entry: T,
) -> Result<(), NoMemory>
    ensures row { OnOk result (rows.new.items ≡ rows.old.items ++ (name, entry) ∷ []) }
    ensures place { OnOk result (Puts last.old last.new key (length rows.old.items)) }
    ensures none { OnErr result (rows.new.items ≡ rows.old.items) }
    ensures alike { OnErr result (TellsAlike last.old last.new) }
{
    let at = rows.len();
    rows.push((name, entry))?;
    match last.insert(key, Some(at)) {
        Ok(_) => Ok(()),
        Err(_) => {
            rows.truncate(at);
            Err(NoMemory)
        }
    }
}
