//! What is read of the bytes of a binfile: a line a field, with the hashes of its source and code.

use crate::store::file_of;
use bin_store::{Bin, read_bin};
use case_files::{Part, push_all, push_parts};
use case_texts::{line, push_line};
use cm_base::{Import, Namespace, Need, NoMemory, Pid, Spot, Text};
use cm_bytes::{pid_name, pid_of};
use std::alloc::Global;

/// The word of a name space.
pub fn space_word(space: Namespace) -> &'static [u8] {
    match space {
        Namespace::Structure => b"structure",
        Namespace::Signature => b"signature",
        Namespace::Functor => b"functor",
        Namespace::Funsig => b"funsig",
    }
}

/// Adds a line of a word and a hash.
fn push_hash(alloc: Global, out: &mut Vec<u8>, word: &[u8], hash: &Pid) -> Result<(), NoMemory> {
    push_all(out, word)?;
    push_line(alloc, out, pid_name(alloc, hash)?.as_bytes())
}

/// Adds the line of a module name with its place: what is done with it, and a last word.
fn push_spot(
    alloc: Global,
    out: &mut Vec<u8>,
    spot: &Spot,
    words: (&'static [u8], &'static [u8]),
) -> Result<(), NoMemory> {
    let parts = [
        Part::Text(words.0),
        Part::Text(space_word(spot.name.space)),
        Part::Text(b" "),
        Part::Text(spot.name.name.as_bytes()),
        Part::Text(b" at "),
        Part::Number(u64::from(spot.line)),
        Part::Text(b":"),
        Part::Number(u64::from(spot.col)),
        Part::Text(words.1),
    ];
    push_parts(alloc, out, &parts)
}

/// Adds the line of a name that is used.
fn push_need(alloc: Global, out: &mut Vec<u8>, need: &Need) -> Result<(), NoMemory> {
    if need.sure {
        push_spot(alloc, out, &need.spot, (b"uses ", b" sure\n"))
    } else {
        push_spot(alloc, out, &need.spot, (b"uses ", b" unsure\n"))
    }
}

/// Adds the line of an import.
fn push_import(alloc: Global, out: &mut Vec<u8>, import: &Import) -> Result<(), NoMemory> {
    let parts = [
        Part::Text(b"imports "),
        Part::Text(space_word(import.name.space)),
        Part::Text(b" "),
        Part::Text(import.name.name.as_bytes()),
        Part::Text(b" from "),
        Part::Text(import.provider.as_bytes()),
    ];
    push_parts(alloc, out, &parts)?;
    push_hash(alloc, out, b" ", &import.hash)
}

/// Adds the names that are defined.
fn push_defined(alloc: Global, out: &mut Vec<u8>, spots: &[Spot]) -> Result<(), NoMemory> {
    for spot in spots {
        push_spot(alloc, out, spot, (b"defines ", b"\n"))?;
    }
    Ok(())
}

/// Adds the names that are used.
fn push_free(alloc: Global, out: &mut Vec<u8>, needs: &[Need]) -> Result<(), NoMemory> {
    for need in needs {
        push_need(alloc, out, need)?;
    }
    Ok(())
}

/// Adds the imports.
fn push_imports(alloc: Global, out: &mut Vec<u8>, imports: &[Import]) -> Result<(), NoMemory> {
    for import in imports {
        push_import(alloc, out, import)?;
    }
    Ok(())
}

/// Adds the unit and its options.
fn push_unit(alloc: Global, out: &mut Vec<u8>, bin: &Bin) -> Result<(), NoMemory> {
    let nobasis: &[u8] = if bin.options.nobasis {
        b" nobasis"
    } else {
        b""
    };
    let opaque: &[u8] = if bin.options.opaque { b" opaque" } else { b"" };
    let parts = [
        Part::Text(b"unit "),
        Part::Text(bin.unit.as_bytes()),
        Part::Text(b"\noptions"),
        Part::Text(nobasis),
        Part::Text(opaque),
        Part::Text(b"\n"),
    ];
    push_parts(alloc, out, &parts)
}

/// Whether a file that was made is these bytes, as a line.
pub fn again_line(file: Option<&[u8]>, bytes: &[u8]) -> &'static [u8] {
    if file == Some(bytes) {
        b"written again the same\n"
    } else {
        b"written again otherwise\n"
    }
}

/// The lines of a binfile, and whether it is written again as the same bytes.
fn lines_of(alloc: Global, bin: &Bin, bytes: &[u8]) -> Result<Vec<u8>, NoMemory> {
    let mut out = Vec::new(alloc);
    push_unit(alloc, &mut out, bin)?;
    push_hash(alloc, &mut out, b"source ", &pid_of(bin.source.as_bytes()))?;
    push_defined(alloc, &mut out, bin.skeleton.defined.as_slice())?;
    push_free(alloc, &mut out, bin.skeleton.free.as_slice())?;
    push_imports(alloc, &mut out, bin.imports.as_slice())?;
    push_hash(alloc, &mut out, b"interface ", &bin.interface)?;
    push_hash(alloc, &mut out, b"code ", &pid_of(bin.code.as_bytes()))?;
    let again = file_of(alloc, bin)?;
    let file = again.as_ref().map(|file| file.as_bytes());
    push_parts(alloc, &mut out, &[Part::Text(again_line(file, bytes))])?;
    Ok(out)
}

/// The lines of the binfile that some bytes are, or that they are none.
pub fn shown(alloc: Global, bytes: &Text) -> Result<Vec<u8>, NoMemory> {
    match read_bin(alloc, bytes.as_bytes())? {
        Some(bin) => lines_of(alloc, &bin, bytes.as_bytes()),
        None => line(alloc, b"none"),
    }
}
