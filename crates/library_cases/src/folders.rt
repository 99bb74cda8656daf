//! Cases `sure-folder` and `folder`: the calls of folders in memory, by steps.

use crate::plans::plan_of;
use case_files::{Part, number_of, push_parts};
use case_texts::{Scene, line};
use cm_base::{Folder, FolderFault, List, MemFolder, NoMemory, SureFolder, Text};
use std::alloc::Global;

/// A folder that doesn't fail.
#[derive(Drop)]
pub struct SureScene {
    pub folder: SureFolder,
}

/// A folder with a plan of failing calls.
#[derive(Drop)]
pub struct MemScene {
    pub folder: MemFolder,
}

/// How a call ended that has no other answer.
fn done(alloc: Global, end: Result<(), FolderFault>) -> Result<Vec<u8>, NoMemory> {
    match end {
        Ok(()) => line(alloc, b"ok"),
        Err(FolderFault::Failed) => line(alloc, b"folder fault"),
        Err(FolderFault::NoMemory) => Err(NoMemory),
    }
}

/// What a read answers, into a buffer that held something.
fn read<F: Folder>(
    alloc: Global,
    folder: &mut F,
    path: &Text,
    max: u32,
) -> Result<Vec<u8>, NoMemory> {
    let mut into = Vec::from_slice(alloc, b"old")?;
    match folder.read(alloc, path, max, &mut into) {
        Ok(is_there) => {
            let mut out = Vec::new(alloc);
            let parts = [
                Part::Text(if is_there { b"file <" } else { b"none <" }),
                Part::Text(into.as_slice()),
                Part::Text(b">\n"),
            ];
            push_parts(alloc, &mut out, &parts)?;
            Ok(out)
        }
        Err(fault) => done(alloc, Err(fault)),
    }
}

/// A line of paths.
fn paths_line(alloc: Global, paths: &[Text]) -> Result<Vec<u8>, NoMemory> {
    let mut out = Vec::new(alloc);
    push_parts(alloc, &mut out, &[Part::Text(b"paths")])?;
    for path in paths {
        push_parts(
            alloc,
            &mut out,
            &[Part::Text(b" "), Part::Text(path.as_bytes())],
        )?;
    }
    push_parts(alloc, &mut out, &[Part::Text(b"\n")])?;
    Ok(out)
}

/// What a listing answers, into a list that held something.
fn list<F: Folder>(alloc: Global, folder: &mut F, prefix: &Text) -> Result<Vec<u8>, NoMemory> {
    let mut into = List::new(alloc);
    into.add(Text::from_bytes(alloc, b"old")?)?;
    match folder.list(alloc, prefix, &mut into) {
        Ok(()) => paths_line(alloc, into.as_slice()),
        Err(fault) => done(alloc, Err(fault)),
    }
}

/// What a call answers that each folder has.
fn called<F: Folder>(
    alloc: Global,
    folder: &mut F,
    step: &[u8],
    words: &[Text],
) -> Result<Option<Vec<u8>>, NoMemory> {
    match (step, words) {
        (b"write", [path, bytes]) => {
            let end = folder.write(alloc, path, bytes.as_bytes());
            Ok(Some(done(alloc, end)?))
        }
        (b"read", [path, max]) => match number_of(max.as_bytes()) {
            Some(max) => Ok(Some(read(alloc, folder, path, max)?)),
            None => Ok(None),
        },
        (b"remove", [path]) => {
            let end = folder.remove(alloc, path);
            Ok(Some(done(alloc, end)?))
        }
        (b"list", [prefix]) => Ok(Some(list(alloc, folder, prefix)?)),
        _ => Ok(None),
    }
}

/// The line of what stands at a path.
fn found(alloc: Global, file: Option<&[u8]>) -> Result<Vec<u8>, NoMemory> {
    let Some(bytes) = file else {
        return line(alloc, b"none");
    };
    let mut out = Vec::new(alloc);
    push_parts(
        alloc,
        &mut out,
        &[Part::Text(b"file <"), Part::Text(bytes), Part::Text(b">\n")],
    )?;
    Ok(out)
}

impl Scene for SureScene {
    fn answer(
        &mut self,
        alloc: Global,
        step: &[u8],
        words: &[Text],
    ) -> Result<Option<Vec<u8>>, NoMemory> {
        match (step, words) {
            (b"get", [path]) => Ok(Some(found(alloc, self.folder.get(path))?)),
            (b"take", [path]) => {
                self.folder.take(path);
                Ok(Some(line(alloc, b"ok")?))
            }
            (b"put", [path, bytes]) => {
                self.folder.put(path, bytes.as_bytes())?;
                Ok(Some(line(alloc, b"ok")?))
            }
            _ => called(alloc, &mut self.folder, step, words),
        }
    }
}

/// How often each call was made, and how many failed.
fn counts(alloc: Global, folder: &MemFolder) -> Result<Vec<u8>, NoMemory> {
    let mut out = Vec::new(alloc);
    let parts = [
        Part::Number(folder.calls.reads),
        Part::Text(b" reads "),
        Part::Number(folder.calls.writes),
        Part::Text(b" writes "),
        Part::Number(folder.calls.removes),
        Part::Text(b" removes "),
        Part::Number(folder.calls.lists),
        Part::Text(b" lists "),
        Part::Number(folder.faults),
        Part::Text(b" faults\n"),
    ];
    push_parts(alloc, &mut out, &parts)?;
    Ok(out)
}

impl MemScene {
    /// Makes a plan of failing calls.
    fn plan(&mut self, alloc: Global, words: &[Text]) -> Result<Option<Vec<u8>>, NoMemory> {
        match plan_of(alloc, words)? {
            Some(plan) => {
                self.folder.fail(plan);
                Ok(Some(line(alloc, b"ok")?))
            }
            None => Ok(None),
        }
    }

    /// Puts a file without a call.
    fn put(&mut self, alloc: Global, path: &Text, bytes: &Text) -> Result<Vec<u8>, NoMemory> {
        self.folder.put(path, bytes.as_bytes())?;
        line(alloc, b"ok")
    }
}

impl Scene for MemScene {
    fn answer(
        &mut self,
        alloc: Global,
        step: &[u8],
        words: &[Text],
    ) -> Result<Option<Vec<u8>>, NoMemory> {
        match (step, words) {
            (b"plan", plan) => self.plan(alloc, plan),
            (b"counts", []) => Ok(Some(counts(alloc, &self.folder)?)),
            (b"writes", []) => Ok(Some(paths_line(alloc, self.folder.writes().as_slice())?)),
            (b"get", [path]) => Ok(Some(found(alloc, self.folder.get(path))?)),
            (b"put", [path, bytes]) => Ok(Some(self.put(alloc, path, bytes)?)),
            _ => called(alloc, &mut self.folder, step, words),
        }
    }
}
