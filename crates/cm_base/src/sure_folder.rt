//! A folder in memory that never fails.

ghost use Rattle.std.specs.Prelude.{◌≡◌, ◌+◌, OnOk, OnErr, IfOk, take, filter, nat_eq};
ghost use Rattle.std.specs.Option.{option_copied};
ghost use Rattle.std.specs.FinMap.{empty, get, insert, remove};
ghost use Rattle.std.specs.Ordering.{nat_cmp};
ghost use Rattle.std.specs.Cmp.Lexicographic.{slice_cmp};
ghost use Rattle.std.specs.List.{starts_with};
ghost use Rattle.std.specs.List.Sorted.{IsStrictlySortedBy};
ghost use Rattle.std.specs.Map.{keys_of};

use crate::fault::{FolderFault, NoMemory};
use crate::folder::Folder;
use crate::list::List;
use crate::text::Text;
use std::alloc::Global;
use std::collections::BTreeMap;
use std::marker::Model;

/// A folder in memory that never fails: its count of faults is the constant 0.
#[derive(Drop)]
pub struct SureFolder {
    alloc: Global,
    files: BTreeMap<Text, Text>,
}

impl Model for SureFolder {
    ghost use Rattle.std.specs.Coded.{coded_ℕ, coded_list};
    ghost use Rattle.std.specs.FinMap as map;
    ghost use Rattle.cm_base.specs.Files.{Files};

    ghost Value = { Files };

    ghost coded = { map.code (coded_list coded_ℕ) (coded_list coded_ℕ) };

    ghost view = { λ f. map.from_entries f.files.entries };
}

impl SureFolder {
    /// An empty folder. It takes no memory.
    pub fn new(alloc: Global) -> SureFolder
        ensures { result ≡ empty }
    {
        SureFolder {
            alloc,
            files: BTreeMap::new(alloc),
        }
    }

    /// The bytes of a file, and `None` exactly where the path isn't there. It takes no memory.
    pub fn get(&self, path: &Text) -> Option<&[u8]>
        ensures { option_copied result ≡ get self.now path.now }
    {
        match self.files.get(path) {
            Some(bytes) => Some(bytes.as_bytes()),
            None => None,
        }
    }

    /// Sets a file. Want of memory leaves the folder as it was.
    pub fn put(&mut self, path: &Text, bytes: &[u8]) -> Result<(), NoMemory>
        ensures ok { OnOk result (self.new ≡ insert self.old path.now bytes.now) }
        ensures err { OnErr result (self.new ≡ self.old) }
    {
        let name = path.copy()?;
        let text = Text::from_bytes(self.alloc, bytes)?;
        self.files.insert(name, text)?;
        Ok(())
    }

    /// Takes a file away, if it is there. It takes no memory.
    pub fn take(&mut self, path: &Text)
        ensures { self.new ≡ remove self.old path.now }
    {
        self.files.remove(path);
    }
}

/// The paths of a table that begin so, in byte order.
fn keys_below(
    alloc: Global,
    files: &BTreeMap<Text, Text>,
    prefix: &Text,
) -> Result<List<Text>, NoMemory>
    ensures below { IfOk result (λ paths. paths ≡ filter (λ path. starts_with nat_eq path prefix.now) (keys_of files.now.entries)) }
    ensures ordered { IsStrictlySortedBy (slice_cmp nat_cmp) (keys_of files.now.entries) }
{
    let mut paths = List::new(alloc);
    for path in files.keys() {
        if path.as_bytes().starts_with(prefix.as_bytes()) && paths.push(path.copy()?).is_err() {
            return Err(NoMemory);
        }
    }
    Ok(paths)
}

/// The first bytes of a file, up to one more than `max`.
fn first_bytes(bytes: &[u8], max: u32) -> &[u8]
    ensures { result.now ≡ take (max + 1) bytes.now }
{
    bytes.get(..=max as usize).unwrap_or(bytes)
}

/// A copy of these bytes.
fn copied(alloc: Global, bytes: &[u8]) -> Result<Vec<u8>, NoMemory>
    ensures { IfOk result (λ copy. copy.items ≡ bytes.now) }
{
    Ok(Vec::from_slice(alloc, bytes)?)
}

impl Folder for SureFolder {
    ghost use Rattle.std.specs.Prelude.{Some};

    ghost holds = { λ f. Some f };

    ghost faults = { λ f. 0 };

    fn read(
        &mut self,
        alloc: Global,
        path: &Text,
        max: u32,
        into: &mut Vec<u8>,
    ) -> Result<bool, FolderFault> {
        let Some(bytes) = self.get(path) else {
            into.clear();
            return Ok(false);
        };
        *into = copied(alloc, first_bytes(bytes, max))?;
        Ok(true)
    }

    fn write(&mut self, _alloc: Global, path: &Text, bytes: &[u8]) -> Result<(), FolderFault> {
        Ok(self.put(path, bytes)?)
    }

    fn remove(&mut self, _alloc: Global, path: &Text) -> Result<(), FolderFault> {
        self.take(path);
        Ok(())
    }

    fn list(
        &mut self,
        alloc: Global,
        prefix: &Text,
        into: &mut List<Text>,
    ) -> Result<(), FolderFault> {
        *into = keys_below(alloc, &self.files, prefix)?;
        Ok(())
    }
}
