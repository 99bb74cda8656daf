//! The anchors that are bound, with their directories.

ghost use Rattle.std.specs.Prelude.{◌≡◌, [], ◌∷◌, ◌++◌, IfOk, OnOk, None};
ghost use Rattle.std.specs.Option.{option_copied};
ghost use Rattle.path_anchors.specs.Names.{bound_to, is_claimed};
ghost use Rattle.path_anchors.specs.Pathconfig.{is_nested};

use crate::table::PathTable;
use cm_base::{NoMemory, Text};
use indexmap::IndexMap;
use std::alloc::Global;
use std::marker::Model;
use std::mem;

/// The anchors that a pathconfig binds, in the order of its lines. Contracts see the pairs of an anchor and its
/// directory. Beside them stand a table of the directories and one of all fronts of them, so that a path is asked for
/// its own fronts and not compared with each directory.
#[derive(Drop)]
pub struct Anchors {
    table: IndexMap<Text, Text>,
    directories: PathTable,
    fronts: PathTable,
    alloc: Global,
}

impl Model for Anchors {
    ghost use Rattle.std.specs.Coded.{coded_ℕ, coded_list, coded×};
    ghost use Rattle.path_anchors.specs.Names.{Bindings};
    ghost use Rattle.path_anchors.specs.Tables.{AreTables};

    ghost Value = { Bindings };

    ghost coded = { coded_list (coded× (coded_list coded_ℕ) (coded_list coded_ℕ)) };

    ghost view = { λ a. a.table.entries };

    ghost invariant = { λ a. AreTables a.table.entries a.directories a.fronts };
}

impl Anchors {
    /// No anchor.
    pub(crate) fn new(alloc: Global) -> Anchors
        ensures { result ≡ [] }
    {
        Anchors {
            table: IndexMap::new(alloc),
            directories: PathTable::new(alloc),
            fronts: PathTable::new(alloc),
            alloc,
        }
    }

    /// The directory of an anchor, if it is bound.
    pub(crate) fn get(&self, anchor: &Text) -> Option<&Text>
        ensures { option_copied result ≡ bound_to self.now anchor.now }
    {
        self.table.get(anchor)
    }

    /// Whether a path lies in the directory of an anchor.
    pub(crate) fn claims(&self, path: &Text) -> bool
        ensures { result ≡ is_claimed self.now path.now }
    {
        self.directories.has_front(path.as_bytes())
    }

    /// Whether a directory is that of an anchor, or one of them lies inside the other.
    pub(crate) fn touches(&self, path: &Text) -> bool
        ensures { result ≡ is_nested self.now path.now }
    {
        self.claims(path) || self.fronts.has(path.as_bytes())
    }

    /// These anchors, and one more.
    fn with_bound(self, anchor: Text, directory: Text) -> Result<Anchors, NoMemory>
        requires { bound_to self anchor ≡ None }
        ensures { IfOk result (λ now. now ≡ self ++ (anchor, directory) ∷ []) }
    {
        let Anchors {
            mut table,
            mut directories,
            mut fronts,
            alloc,
        } = self;
        directories.add(directory.as_bytes())?;
        fronts.add_fronts(directory.as_bytes())?;
        table.insert(anchor, directory)?;
        Ok(Anchors {
            table,
            directories,
            fronts,
            alloc,
        })
    }

    /// Binds one anchor more. Want of memory leaves none.
    pub(crate) fn bind(&mut self, anchor: Text, directory: Text) -> Result<(), NoMemory>
        requires { bound_to self.old anchor ≡ None }
        ensures { OnOk result (self.new ≡ self.old ++ (anchor, directory) ∷ []) }
    {
        let none = Anchors::new(self.alloc);
        let anchors = mem::replace(self, none);
        *self = anchors.with_bound(anchor, directory)?;
        Ok(())
    }
}
