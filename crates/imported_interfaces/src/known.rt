//! Type names that are known, found by their owner and their number.

ghost use Rattle.std.specs.Prelude.{◌≡◌, [], ◌∷◌, ◌++◌, IfOk, OnOk};
ghost use Rattle.imported_interfaces.specs.Known.{key_of, standing, standing_by, AreKept};
ghost use Rattle.semantic_objects.specs.Symbols.{same_name};

use cm_base::{List, NoMemory};
use semantic_objects::TyName;
use std::alloc::Global;
use type_walks::NameTable;

/// What is known of a type name: no name of its owner has its number, or it is known itself, or another one is.
#[derive(Clone, Copy, Debug, PartialEq, Eq)]
pub enum Standing {
    New,
    Same,
    Other,
}

/// A name with its owner and its number alone.
fn key_of(name: &TyName) -> Result<TyName, NoMemory>
    ensures { IfOk result (λ key. key ≡ key_of name.now) }
{
    let mut key = name.copy()?;
    key.arity = 0;
    key.eq = false;
    Ok(key)
}

/// Whether a known name with the owner and the number of a name is that name.
fn standing_by(known: &TyName, name: &TyName) -> Standing
    ensures { result ≡ standing_by (same_name known.now name.now) }
{
    if known.is_same(name) {
        Standing::Same
    } else {
        Standing::Other
    }
}

/// Type names in a list, with the first place of each owner and number.
#[derive(Drop)]
pub struct KnownNames {
    pub(crate) names: List<TyName>,
    pub(crate) keys: NameTable,
}

impl KnownNames {
    /// No name.
    pub fn new(alloc: Global) -> KnownNames
        ensures names { result.names ≡ [] }
        ensures kept { AreKept result }
    {
        KnownNames {
            names: List::new(alloc),
            keys: NameTable::new(alloc),
        }
    }

    /// What is known of a name.
    pub fn standing(&self, name: &TyName) -> Result<Standing, NoMemory>
        requires { AreKept self.now }
        ensures { IfOk result (λ is. is ≡ standing name.now self.now.names) }
    {
        let key = key_of(name)?;
        match self.keys.place_of(&key)? {
            None => Ok(Standing::New),
            Some(place) => match self.names.get(place) {
                Some(known) => Ok(standing_by(known, name)),
                None => Err(NoMemory),
            },
        }
    }

    /// Adds a name at the end. After want of memory the names are of no use.
    pub fn add(&mut self, name: &TyName) -> Result<(), NoMemory>
        requires { AreKept self.old }
        ensures names { OnOk result (self.new.names ≡ self.old.names ++ name.now ∷ []) }
        ensures kept { OnOk result (AreKept self.new) }
    {
        let key = key_of(name)?;
        let name = name.copy()?;
        self.keys.add(key)?;
        self.names.add(name)
    }
}
