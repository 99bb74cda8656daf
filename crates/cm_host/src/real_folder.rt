//! A folder over a directory of the machine.

ghost use Rattle.std.specs.Prelude.{◌≡◌, ◌≤◌, ◌+◌, Err, IfOk, IfSome, OnOk, length};
ghost use Rattle.cm_base.specs.Causes.{HasCause};

use crate::walk::files_below;
use cm_base::{Folder, FolderFault, List, NoMemory, Text};
use std::alloc::Global;
use std::io::{ErrorKind, Read, Write};
use std::rt::Files;
use std::{fs, io};

/// The files below a directory. It tells nothing of what they hold, and counts its failures.
#[derive(Drop)]
pub struct RealFolder<R> {
    rt: R,
    top: Text,
    faults: u64,
}

/// Whether an error says that nothing stands at a path: it isn't there, or a plain file stands on the way.
pub fn is_missing(error: &io::Error) -> bool {
    matches!(error.kind(), ErrorKind::NotFound | ErrorKind::NotADirectory)
}

/// The fault that stands for an error of a call that changes no file.
pub fn fault_of(error: &io::Error) -> FolderFault {
    match error.kind() {
        ErrorKind::OutOfMemory => FolderFault::NoMemory,
        _ => FolderFault::Failed,
    }
}

/// A path below a directory, in bytes; below the empty text it stays as it is.
fn joined(alloc: Global, top: &Text, path: &Text) -> Result<Vec<u8>, NoMemory> {
    let mut whole = Vec::new(alloc);
    if !top.as_bytes().is_empty() {
        whole.extend_from_slice(top.as_bytes())?;
        whole.push(b'/')?;
    }
    whole.extend_from_slice(path.as_bytes())?;
    Ok(whole)
}

/// The machine's path of a file; one that isn't UTF-8 has none.
pub fn path_below(alloc: Global, top: &Text, path: &Text) -> Result<String, FolderFault> {
    match String::from_utf8(joined(alloc, top, path)?) {
        Ok(whole) => Ok(whole),
        Err(_) => Err(FolderFault::Failed),
    }
}

/// Adds bytes at the end.
fn append(bytes: &mut Vec<u8>, piece: &[u8]) -> Result<(), NoMemory>
    ensures { OnOk result (length bytes.new.items ≡ length bytes.old.items + length piece.now) }
{
    Ok(bytes.extend_from_slice(piece)?)
}

/// Reads a piece, up to so many bytes in all, and answers whether the file may go on.
fn read_piece<F: Read>(file: &mut F, most: usize, bytes: &mut Vec<u8>) -> Result<bool, FolderFault>
    requires { length bytes.old.items ≤ most }
    ensures { OnOk result (length bytes.new.items ≤ most) }
{
    let mut piece = [0u8; 4096];
    let wanted = (most - bytes.len()).min(4096);
    match file.read(&mut piece[..wanted]) {
        Ok(0) => Ok(false),
        Ok(count) => {
            append(bytes, &piece[..count])?;
            Ok(true)
        }
        Err(error) if error.kind() == ErrorKind::Interrupted => Ok(true),
        Err(error) => Err(fault_of(&error)),
    }
}

/// The first bytes of an open file, up to so many.
fn read_front<F: Read>(alloc: Global, file: &mut F, most: usize) -> Result<Vec<u8>, FolderFault>
    ensures { IfOk result (λ bytes. length bytes.items ≤ most) }
{
    let mut bytes = Vec::new(alloc);
    for _ in 0..u64::MAX {
        if !read_piece(file, most, &mut bytes)? {
            return Ok(bytes);
        }
    }
    Err(FolderFault::Failed)
}

/// Whether a file stands at a path, by what a link there leads to. A directory, a pipe and whatever else is no file
/// are a failure, so that no pipe is waited for.
fn is_file<R: Files>(rt: &R, path: &str) -> Result<bool, FolderFault> {
    match fs::metadata(rt, path) {
        Ok(data) if data.is_file() => Ok(true),
        Ok(_) => Err(FolderFault::Failed),
        Err(error) if is_missing(&error) => Ok(false),
        Err(error) => Err(fault_of(&error)),
    }
}

/// The first bytes of the file at a path, up to so many; none where nothing stands there.
fn read_path<R: Files>(
    rt: &R,
    alloc: Global,
    path: &str,
    most: usize,
) -> Result<Option<Vec<u8>>, FolderFault>
    ensures { IfOk result (λ found. IfSome found (λ bytes. length bytes.items ≤ most)) }
{
    if !is_file(rt, path)? {
        return Ok(None);
    }
    match fs::open(rt, path) {
        Ok(mut file) => Ok(Some(read_front(alloc, &mut file, most)?)),
        Err(error) if is_missing(&error) => Ok(None),
        Err(error) => Err(fault_of(&error)),
    }
}

/// Writes all bytes to a new file at a path, below directories that are made where they are missing.
fn create_path<R: Files>(rt: &R, path: &str, bytes: &[u8]) -> io::Result<()> {
    if let Some((parent, _)) = path.rsplit_once('/') {
        fs::create_dir_all(rt, parent)?;
    }
    let mut file = fs::create(rt, path)?;
    file.write_all(bytes)?;
    file.flush()
}

/// Replaces the file at a path. Any failure may come after the work was begun, so it is never want of memory.
fn write_path<R: Files>(rt: &R, path: &str, bytes: &[u8]) -> Result<(), FolderFault> {
    if is_file(rt, path).is_err() {
        return Err(FolderFault::Failed);
    }
    match create_path(rt, path, bytes) {
        Ok(()) => Ok(()),
        Err(_) => Err(FolderFault::Failed),
    }
}

/// Takes the file at a path away, if there is one.
fn remove_path<R: Files>(rt: &R, path: &str) -> Result<(), FolderFault> {
    if is_file(rt, path).is_err() {
        return Err(FolderFault::Failed);
    }
    match fs::remove_file(rt, path) {
        Ok(()) => Ok(()),
        Err(error) if is_missing(&error) => Ok(()),
        Err(_) => Err(FolderFault::Failed),
    }
}

impl<R: Files + AllocGlobal + Clone + Drop> RealFolder<R> {
    /// The folder over the directory at this path.
    pub fn new(rt: R, top: &Text) -> Result<RealFolder<R>, NoMemory> {
        let top = top.copy()?;
        Ok(RealFolder { rt, top, faults: 0 })
    }

    /// The answer of a call that couldn't do its work. A failure is counted.
    fn refused<T>(&mut self, fault: FolderFault) -> Result<T, FolderFault>
        ensures fault { result ≡ Err fault }
        ensures cause { HasCause self.old.faults self.new.faults (result ≡ Err FolderFault.Failed) }
    {
        if fault == FolderFault::Failed {
            self.faults = self.faults.saturating_add(1);
        }
        Err(fault)
    }

    /// The first bytes of a file, up to one more than `max`; none where nothing stands there.
    fn find(&self, alloc: Global, path: &Text, max: u32) -> Result<Option<Vec<u8>>, FolderFault>
        ensures { IfOk result (λ found. IfSome found (λ bytes. length bytes.items ≤ max + 1)) }
    {
        let whole = path_below(alloc, &self.top, path)?;
        read_path(&self.rt, alloc, whole.as_str(), max as usize + 1)
    }

    /// Replaces a file.
    fn put(&self, alloc: Global, path: &Text, bytes: &[u8]) -> Result<(), FolderFault> {
        let whole = path_below(alloc, &self.top, path)?;
        write_path(&self.rt, whole.as_str(), bytes)
    }

    /// Takes a file away, if it is there.
    fn take(&self, alloc: Global, path: &Text) -> Result<(), FolderFault> {
        let whole = path_below(alloc, &self.top, path)?;
        remove_path(&self.rt, whole.as_str())
    }
}

impl<R: Files + AllocGlobal + Clone + Drop> Folder for RealFolder<R> {
    ghost use Rattle.std.specs.Prelude.{None};

    ghost holds = { λ f. None };

    ghost faults = { λ f. f.faults };

    fn read(
        &mut self,
        alloc: Global,
        path: &Text,
        max: u32,
        into: &mut Vec<u8>,
    ) -> Result<bool, FolderFault> {
        match self.find(alloc, path, max) {
            Ok(Some(bytes)) => {
                *into = bytes;
                Ok(true)
            }
            Ok(None) => {
                into.clear();
                Ok(false)
            }
            Err(fault) => self.refused(fault),
        }
    }

    fn write(&mut self, alloc: Global, path: &Text, bytes: &[u8]) -> Result<(), FolderFault> {
        match self.put(alloc, path, bytes) {
            Ok(()) => Ok(()),
            Err(fault) => self.refused(fault),
        }
    }

    fn remove(&mut self, alloc: Global, path: &Text) -> Result<(), FolderFault> {
        match self.take(alloc, path) {
            Ok(()) => Ok(()),
            Err(fault) => self.refused(fault),
        }
    }

    fn list(
        &mut self,
        alloc: Global,
        prefix: &Text,
        into: &mut List<Text>,
    ) -> Result<(), FolderFault> {
        match files_below(&self.rt, alloc, &self.top, prefix) {
            Ok(files) => {
                *into = files;
                Ok(())
            }
            Err(fault) => self.refused(fault),
        }
    }
}
