//! A table of paths, in which the fronts of a path are looked up.

ghost use Rattle.std.specs.Prelude.{◌≡◌, ◌<◌, ◌&&◌, true, [], OnOk, length, take};
ghost use Rattle.std.specs.List.{list_any};
ghost use Rattle.path_anchors.specs.Names.{begins_with, parts_of};
ghost use Rattle.path_anchors.specs.Tables.{holds, slash_at, Adds, AddsBefore, AddsFronts};

use cm_base::NoMemory;
use indexmap::IndexSet;
use std::alloc::Global;
use std::marker::Model;

/// Paths, each of which is found by its bytes. Contracts see them as a list. Beside them stand the lengths that they
/// have, so that of a long path only the fronts of these lengths are looked up.
#[derive(Drop)]
pub struct PathTable {
    paths: IndexSet<Vec<u8>>,
    lengths: IndexSet<usize>,
    alloc: Global,
}

impl Model for PathTable {
    ghost use Rattle.std.specs.Prelude.{List, ℕ, map};
    ghost use Rattle.path_anchors.specs.Tables.{HasLengths};

    ghost Value = { List (List ℕ) };

    ghost view = { λ t. map (λ path. path.items) t.paths.keys };

    ghost invariant = { λ t. HasLengths (map (λ path. path.items) t.paths.keys) t.lengths.keys };
}

impl PathTable {
    /// No path.
    pub fn new(alloc: Global) -> PathTable
        ensures { result ≡ [] }
    {
        PathTable {
            paths: IndexSet::new(alloc),
            lengths: IndexSet::new(alloc),
            alloc,
        }
    }

    /// Whether a path is in the table.
    pub fn has(&self, path: &[u8]) -> bool
        ensures { result ≡ holds self.now path.now }
    {
        self.paths.contains(path)
    }

    /// Whether no path is in the table.
    fn is_empty(&self) -> bool
        ensures { result ≡ true → self.now ≡ [] }
    {
        self.paths.is_empty()
    }

    /// Whether some path in the table may be as long as this one; if not, this one isn't there.
    fn may_have(&self, path: &[u8]) -> bool
        ensures { holds self.now path.now ≡ true → result ≡ true }
    {
        self.lengths.contains(&path.len())
    }

    /// Whether a path is in the table. It is looked up only where one of its length is.
    fn has_quickly(&self, path: &[u8]) -> bool
        ensures { result ≡ holds self.now path.now }
    {
        self.may_have(path) && self.has(path)
    }

    /// Whether a slash stands at a place of a path, and what stands before it is in the table.
    fn has_before(&self, path: &[u8], at: usize) -> bool
        requires { at < length path.now }
        ensures { result ≡ (slash_at path.now at && holds self.now (take at path.now)) }
    {
        path[at] == b'/' && self.has_quickly(&path[..at])
    }

    /// Whether the components of a path begin with those of one in the table.
    pub fn has_front(&self, path: &[u8]) -> bool
        ensures { result ≡ list_any (λ front. begins_with (parts_of path.now) (parts_of front)) self.now }
    {
        if self.is_empty() {
            return false;
        }
        for at in 0..path.len() {
            if self.has_before(path, at) {
                return true;
            }
        }
        self.has_quickly(path)
    }

    /// Adds a path.
    pub fn add(&mut self, path: &[u8]) -> Result<(), NoMemory>
        ensures { OnOk result (Adds self.old self.new path.now) }
    {
        let path = Vec::from_slice(self.alloc, path)?;
        self.lengths.insert(path.len())?;
        self.paths.insert(path)?;
        Ok(())
    }

    /// Adds what stands before a place of a path, if a slash stands there.
    fn add_before(&mut self, path: &[u8], at: usize) -> Result<(), NoMemory>
        requires { at < length path.now }
        ensures { OnOk result (AddsBefore self.old self.new path.now at) }
    {
        if path[at] != b'/' {
            return Ok(());
        }
        self.add(&path[..at])
    }

    /// Adds a path, and each path whose components it begins with.
    pub fn add_fronts(&mut self, path: &[u8]) -> Result<(), NoMemory>
        ensures { OnOk result (AddsFronts self.old self.new path.now) }
    {
        for at in 0..path.len() {
            self.add_before(path, at)?;
        }
        self.add(path)
    }
}
