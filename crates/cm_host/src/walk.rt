//! The files below a directory, by a walk that keeps the directories still to be seen in a list.

use crate::real_folder::{fault_of, is_missing, path_below};
use cm_base::{FolderFault, List, NoMemory, Text};
use std::alloc::Global;
use std::fs;
use std::fs::DirEntry;
use std::rt::Files;

/// The most entries of directories that a walk may meet.
const MOST_ENTRIES: u32 = 1_048_576;

/// A walk: the directories to be seen, each with `/` at its end, the files that were found, and how many
/// entries were met. Paths are below the top.
#[derive(Drop)]
struct Walk {
    pending: Vec<Text>,
    found: Vec<Text>,
    met: u32,
}

/// A text with more bytes behind it.
fn extended(alloc: Global, text: &Text, more: &[u8]) -> Result<Text, NoMemory> {
    let mut bytes = Vec::from_slice(alloc, text.as_bytes())?;
    bytes.extend_from_slice(more)?;
    Ok(Text::from_vec(bytes))
}

/// The directory in which the paths that begin so stand: the prefix up to its last `/`.
fn directory_of(alloc: Global, prefix: &Text) -> Result<Text, NoMemory> {
    let bytes = prefix.as_bytes();
    match bytes.iter().rposition(|byte| *byte == b'/') {
        Some(slash) => Text::from_bytes(alloc, &bytes[..=slash]),
        None => Text::from_bytes(alloc, b""),
    }
}

/// Counts an entry; one too many ends the walk.
fn count_entry(walk: &mut Walk) -> Result<(), FolderFault> {
    walk.met = walk.met.saturating_add(1);
    if walk.met > MOST_ENTRIES {
        return Err(FolderFault::Failed);
    }
    Ok(())
}

/// Notes a path that begins as is asked for: a directory to be seen, or a file. A link counts as what it
/// leads to, and one that leads nowhere isn't there.
fn note_path<R: Files>(
    rt: &R,
    alloc: Global,
    path: Text,
    entry: &DirEntry<R>,
    walk: &mut Walk,
) -> Result<(), FolderFault> {
    match fs::metadata(rt, entry.path()) {
        Ok(data) if data.is_dir() => Ok(push(&mut walk.pending, extended(alloc, &path, b"/")?)?),
        Ok(data) if data.is_file() => Ok(push(&mut walk.found, path)?),
        Ok(_) => Ok(()),
        Err(error) if is_missing(&error) => Ok(()),
        Err(error) => Err(fault_of(&error)),
    }
}

/// Adds a path at the end.
fn push(paths: &mut Vec<Text>, path: Text) -> Result<(), NoMemory> {
    Ok(paths.push(path)?)
}

/// Notes an entry of a directory if its path begins as is asked for.
fn note_entry<R: Files>(
    rt: &R,
    alloc: Global,
    directory: &Text,
    prefix: &Text,
    entry: &DirEntry<R>,
    walk: &mut Walk,
) -> Result<(), FolderFault> {
    count_entry(walk)?;
    let path = extended(alloc, directory, entry.file_name().as_bytes())?;
    if !path.as_bytes().starts_with(prefix.as_bytes()) {
        return Ok(());
    }
    note_path(rt, alloc, path, entry, walk)
}

/// Notes the entries of a directory. One that isn't there has none.
fn see_directory<R: Files + AllocGlobal + Clone + Drop>(
    rt: &R,
    alloc: Global,
    top: &Text,
    directory: &Text,
    prefix: &Text,
    walk: &mut Walk,
) -> Result<(), FolderFault> {
    let whole = path_below(alloc, top, directory)?;
    let entries = match fs::read_dir(rt, whole.as_str()) {
        Ok(entries) => entries,
        Err(error) if is_missing(&error) => return Ok(()),
        Err(error) => return Err(fault_of(&error)),
    };
    for entry in entries {
        match entry {
            Ok(entry) => note_entry(rt, alloc, directory, prefix, &entry, walk)?,
            Err(error) => return Err(fault_of(&error)),
        }
    }
    Ok(())
}

/// The paths in byte order.
fn in_order(mut paths: Vec<Text>) -> Result<List<Text>, NoMemory> {
    paths.sort()?;
    Ok(List::from_vec(paths))
}

/// The walk before its first directory.
fn begun(alloc: Global, prefix: &Text) -> Result<Walk, NoMemory> {
    let mut pending = Vec::new(alloc);
    pending.push(directory_of(alloc, prefix)?)?;
    Ok(Walk {
        pending,
        found: Vec::new(alloc),
        met: 0,
    })
}

/// The files below a directory whose path begins so, in byte order.
pub fn files_below<R: Files + AllocGlobal + Clone + Drop>(
    rt: &R,
    alloc: Global,
    top: &Text,
    prefix: &Text,
) -> Result<List<Text>, FolderFault> {
    let mut walk = begun(alloc, prefix)?;
    for _ in 0..u64::MAX {
        let Some(directory) = walk.pending.pop() else {
            return Ok(in_order(walk.found)?);
        };
        see_directory(rt, alloc, top, &directory, prefix, &mut walk)?;
    }
    Err(FolderFault::Failed)
}
