//! Cases `pathconfig`, `resolve` and `lie`: anchors, the names that written paths mean, and where names lie.

use case_files::{Case, CaseFault, Part, Wrong, push_parts};
use case_texts::{expanded, line, refusal};
use cm_base::{Fault, NoMemory, Text};
use path_anchors::{Anchors, PathFault, folder_path, read_pathconfig, resolve};
use std::alloc::Global;

/// Whether a pathconfig is good, or its refusal.
pub fn read(alloc: Global, text: &Text) -> Result<Vec<u8>, NoMemory> {
    match read_pathconfig(alloc, text) {
        Ok(_anchors) => line(alloc, b"good"),
        Err(fault) => refusal(alloc, &fault),
    }
}

/// The anchors of a case.
fn anchors_of(alloc: Global, case: &Case) -> Result<Anchors, CaseFault> {
    let section = case.the(b"pathconfig")?;
    let text = expanded(alloc, section.line, section.bytes(alloc)?.as_bytes())?;
    match read_pathconfig(alloc, &text) {
        Ok(anchors) => Ok(anchors),
        Err(Fault::Diag(_diag)) => Err(CaseFault::Wrong(section.line, Wrong::Words)),
        Err(Fault::NoMemory) => Err(CaseFault::NoMemory),
    }
}

/// The name of a description, and the path behind a bar.
fn at_bar(text: &[u8]) -> Option<(&[u8], &[u8])> {
    match text.iter().position(|byte| *byte == b'|') {
        Some(at) => Some((&text[..at], &text[at + 1..])),
        None => None,
    }
}

/// The line of a refused path.
fn refused(alloc: Global, number: u8) -> Result<Vec<u8>, NoMemory> {
    let mut out = Vec::new(alloc);
    let parts = [
        Part::Text(b"refused "),
        Part::Number(u64::from(number)),
        Part::Text(b"\n"),
    ];
    push_parts(alloc, &mut out, &parts)?;
    Ok(out)
}

/// The name that a path in a description means, or the number of its refusal.
fn name_of(
    alloc: Global,
    anchors: &Anchors,
    base: &[u8],
    path: &[u8],
) -> Result<Vec<u8>, NoMemory> {
    let base = Text::from_bytes(alloc, base)?;
    let path = Text::from_bytes(alloc, path)?;
    match resolve(alloc, anchors, &base, &path) {
        Ok(name) => line(alloc, name.as_bytes()),
        Err(PathFault::Number(number)) => refused(alloc, number),
        Err(PathFault::NoMemory) => Err(NoMemory),
    }
}

/// What the path behind a bar means in the description before it.
pub fn resolved(alloc: Global, case: &Case, text: &Text) -> Result<Vec<u8>, CaseFault> {
    let anchors = anchors_of(alloc, case)?;
    match at_bar(text.as_bytes()) {
        Some((base, path)) => Ok(name_of(alloc, &anchors, base, path)?),
        None => Err(CaseFault::Wrong(case.line, Wrong::Words)),
    }
}

/// Where in the folder a name lies.
pub fn laid(alloc: Global, case: &Case, text: &Text) -> Result<Vec<u8>, CaseFault> {
    let anchors = anchors_of(alloc, case)?;
    let path = folder_path(alloc, &anchors, text)?;
    Ok(line(alloc, path.as_bytes())?)
}
