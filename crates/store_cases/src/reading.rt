//! Cases of bytes that are read: what a section `text` is read as; how many of its proper fronts are read; and how many
//! are read with each single byte of `text` changed, before the bytes of a section `rest`.

use crate::kind::{Format, ReadKind};
use crate::{bin_lines, programs};
use bin_store::read_bin;
use case_files::{Case, CaseFault, Part, Report, push_all, push_parts};
use cm_base::{NoMemory, Text};
use linker::read_linked;
use std::alloc::Global;

/// Whether bytes are a file of a format.
fn is_read(alloc: Global, format: Format, bytes: &[u8]) -> Result<bool, NoMemory> {
    match format {
        Format::Binfile => Ok(read_bin(alloc, bytes)?.is_some()),
        Format::Linked => Ok(read_linked(alloc, bytes)?.is_some()),
    }
}

/// What bytes are read as.
fn shown(alloc: Global, format: Format, bytes: &Text) -> Result<Vec<u8>, NoMemory> {
    match format {
        Format::Binfile => bin_lines::shown(alloc, bytes),
        Format::Linked => programs::shown(alloc, bytes),
    }
}

/// The line that so many of so many are read.
fn count_line(alloc: Global, read: u64, all: usize) -> Result<Vec<u8>, NoMemory> {
    let mut out = Vec::new(alloc);
    let parts = [
        Part::Number(read),
        Part::Text(b" of "),
        Part::Number(all as u64),
        Part::Text(b" are read\n"),
    ];
    push_parts(alloc, &mut out, &parts)?;
    Ok(out)
}

/// How many of the proper fronts of some bytes are read.
fn fronts(alloc: Global, format: Format, bytes: &[u8]) -> Result<Vec<u8>, NoMemory> {
    let mut read = 0_u64;
    for length in 0..bytes.len() {
        if is_read(alloc, format, &bytes[..length])? {
            read = read.saturating_add(1);
        }
    }
    count_line(alloc, read, bytes.len())
}

/// Bytes with the lowest bit of one of them changed.
fn changed(alloc: Global, bytes: &[u8], place: usize) -> Result<Vec<u8>, NoMemory> {
    let mut all = Vec::from_slice(alloc, bytes)?;
    if let Some(byte) = all.get_mut(place) {
        *byte ^= 1;
    }
    Ok(all)
}

/// How many are read of some bytes with each single one of the first of them changed.
fn changes(alloc: Global, format: Format, bytes: &[u8], count: usize) -> Result<Vec<u8>, NoMemory> {
    let mut read = 0_u64;
    for place in 0..count {
        if is_read(alloc, format, changed(alloc, bytes, place)?.as_slice())? {
            read = read.saturating_add(1);
        }
    }
    count_line(alloc, read, count)
}

/// The bytes of `text`, and those of `rest` behind them.
fn whole(alloc: Global, case: &Case, text: &Text) -> Result<Vec<u8>, CaseFault> {
    let mut bytes = Vec::from_slice(alloc, text.as_bytes())?;
    if let Some(rest) = case.find(b"rest")? {
        push_all(&mut bytes, rest.bytes(alloc)?.as_bytes())?;
    }
    Ok(bytes)
}

/// What is answered to the bytes of a case.
fn answer_of(
    alloc: Global,
    kind: ReadKind,
    format: Format,
    case: &Case,
) -> Result<Vec<u8>, CaseFault> {
    let text = case.the(b"text")?.bytes(alloc)?;
    match kind {
        ReadKind::Whole => Ok(shown(alloc, format, &text)?),
        ReadKind::Fronts => Ok(fronts(alloc, format, text.as_bytes())?),
        ReadKind::Changes => {
            let bytes = whole(alloc, case, &text)?;
            Ok(changes(alloc, format, bytes.as_slice(), text.as_bytes().len())?)
        }
    }
}

/// The name of a section that a kind has beside `text` and `gives`.
fn own_section(kind: ReadKind) -> &'static [u8] {
    match kind {
        ReadKind::Changes => b"rest",
        ReadKind::Whole | ReadKind::Fronts => b"",
    }
}

/// Reads the bytes of a case, and compares what is answered with what is wanted.
pub fn try_read(
    alloc: Global,
    kind: ReadKind,
    format: Format,
    case: &Case,
    report: &mut Report,
) -> Result<(), CaseFault> {
    case.has_only(&[b"text", b"gives", own_section(kind)])?;
    let wanted = case.the(b"gives")?;
    let given = answer_of(alloc, kind, format, case)?;
    Ok(report.compare(
        case,
        wanted.line,
        b"another answer",
        wanted.bytes(alloc)?.as_bytes(),
        given.as_slice(),
    )?)
}
