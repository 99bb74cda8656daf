//! Type names in a table, by which the place of a name in a list is looked up.

ghost use Rattle.std.specs.Prelude.{◌≡◌, [], ◌∷◌, ◌++◌, cond, Some, IfOk, OnOk};
ghost use Rattle.indexmap.specs.IndexMap.{get};
ghost use Rattle.type_walks.specs.Tables.{key_of, same_key, place_among, AreTold, Notes};

use cm_base::{List, NoMemory, Text};
use indexmap::IndexMap;
use semantic_objects::{Owner, TyName};
use std::alloc::Global;

/// An owner as a part of a key.
#[derive(PartialEq, Eq, Hash, Drop)]
pub(crate) enum KeyOwner {
    Basis,
    Unit(Text),
    Bound,
}

/// A type name as a key.
#[derive(PartialEq, Eq, Hash, Drop)]
pub(crate) struct NameKey {
    pub(crate) owner: KeyOwner,
    pub(crate) number: u64,
    pub(crate) arity: u32,
    pub(crate) eq: bool,
}

/// The key of a name.
fn key_of(name: &TyName) -> Result<NameKey, NoMemory>
    ensures { IfOk result (λ key. key ≡ key_of name.now) }
{
    let owner = match &name.owner {
        Owner::Basis => KeyOwner::Basis,
        Owner::Unit(unit) => KeyOwner::Unit(unit.copy()?),
        Owner::Bound => KeyOwner::Bound,
    };
    Ok(NameKey {
        owner,
        number: name.number,
        arity: name.arity,
        eq: name.eq,
    })
}

/// Puts a place for a key.
fn put(places: &mut IndexMap<NameKey, usize>, key: NameKey, place: usize) -> Result<(), NoMemory>
    ensures { OnOk result (
        (k : NameKey) → get same_key places.new k ≡ cond (same_key key k) (Some place) (get same_key places.old k)
        ) }
{
    places.insert(key, place)?;
    Ok(())
}

/// Notes a place for a name that has none yet.
fn note(places: &mut IndexMap<NameKey, usize>, name: &TyName, place: usize) -> Result<(), NoMemory>
    ensures { OnOk result (Notes places.old places.new name.now place) }
{
    let key = key_of(name)?;
    match places.get(&key) {
        Some(_) => Ok(()),
        None => put(places, key, place),
    }
}

/// Names in a list, with the first place of each.
#[derive(Drop)]
pub struct NameTable {
    pub names: List<TyName>,
    pub(crate) places: IndexMap<NameKey, usize>,
}

impl NameTable {
    /// No name.
    pub fn new(alloc: Global) -> NameTable
        ensures names { result.names ≡ [] }
        ensures told { AreTold result }
    {
        NameTable {
            names: List::new(alloc),
            places: IndexMap::new(alloc),
        }
    }

    /// The first place of a name.
    pub fn place_of(&self, name: &TyName) -> Result<Option<usize>, NoMemory>
        requires { AreTold self.now }
        ensures { IfOk result (λ place. place ≡ place_among name.now self.now.names) }
    {
        let key = key_of(name)?;
        match self.places.get(&key) {
            Some(place) => Ok(Some(*place)),
            None => Ok(None),
        }
    }

    /// Adds a name at the end. After want of memory the table may tell less.
    pub fn add(&mut self, name: TyName) -> Result<(), NoMemory>
        requires { AreTold self.old }
        ensures names { OnOk result (self.new.names ≡ self.old.names ++ name ∷ []) }
        ensures told { OnOk result (AreTold self.new) }
    {
        note(&mut self.places, &name, self.names.len())?;
        self.names.add(name)
    }
}
