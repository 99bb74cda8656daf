//! A table by name: under each name the place of a node. It is kept in byte order of names.

ghost use Rattle.std.specs.Prelude.{◌≡◌, [], IfOk, OnOk, OnErr, map};
ghost use Rattle.semantic_objects.specs.Symbols.{AreRising};
ghost use Rattle.semantic_objects.specs.Tables.{entry, with_entry, with_all, names_of};

use cm_base::{List, NoMemory, Text};
use std::alloc::Global;
use std::collections::BTreeMap;
use std::marker::Model;

/// Places by name, which contracts see as the list of the rows in byte order of names.
#[derive(Drop)]
pub struct Rows {
    places: BTreeMap<Text, usize>,
}

impl Model for Rows {
    ghost use Rattle.std.specs.Prelude.{List, ℕ};

    ghost Value = { List (List ℕ × ℕ) };

    ghost view = { λ r. r.places.entries };
}

impl Rows {
    /// No rows. It takes no memory.
    pub fn new(alloc: Global) -> Rows
        ensures { result ≡ [] }
    {
        Rows {
            places: BTreeMap::new(alloc),
        }
    }

    /// The place under a name.
    pub fn get(&self, name: &Text) -> Option<usize>
        ensures { result ≡ entry name.now self.now }
    {
        match self.places.get(name) {
            Some(place) => Some(*place),
            None => None,
        }
    }

    /// Sets the place under a name. Want of memory leaves the rows as they were.
    pub fn set(&mut self, name: Text, place: usize) -> Result<(), NoMemory>
        ensures ok { OnOk result (self.new ≡ with_entry name place self.old) }
        ensures err { OnErr result (self.new ≡ self.old) }
    {
        self.places.insert(name, place)?;
        Ok(())
    }

    /// Sets what other rows have. After want of memory some of it may be set.
    pub fn set_all(&mut self, rows: &Rows) -> Result<(), NoMemory>
        ensures { OnOk result (self.new ≡ with_all rows.now self.old) }
    {
        for (name, place) in &rows.places {
            self.places.insert(name.copy()?, *place)?;
        }
        Ok(())
    }

    /// The same rows.
    pub fn copy(&self) -> Result<Rows, NoMemory>
        ensures { IfOk result (λ copy. copy ≡ self.now) }
    {
        Ok(Rows {
            places: self.places.clone()?,
        })
    }

    /// The names in byte order.
    pub fn names(&self, alloc: Global) -> Result<List<Text>, NoMemory>
        ensures names { IfOk result (λ names. names ≡ names_of self.now) }
        ensures rising { IfOk result AreRising }
    {
        let mut names = List::new(alloc);
        for name in self.places.keys() {
            names.add(name.copy()?)?;
        }
        Ok(names)
    }

    /// The places, in byte order of their names.
    pub fn places(&self, alloc: Global) -> Result<List<usize>, NoMemory>
        ensures { IfOk result (λ places. places ≡ map (λ row. row.1) self.now) }
    {
        let mut places = List::new(alloc);
        for place in self.places.values() {
            places.add(*place)?;
        }
        Ok(places)
    }
}
