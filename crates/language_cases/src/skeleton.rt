//! Cases `skeleton`: the names that a source defines, a bar, and the names that it uses, behind which a `?` stands
//! where the use isn't sure; or the diagnostic.

use crate::diagnostics::{file, told};
use case_files::{Part, push_all, push_parts};
use cm_base::{CompileFault, Compiler, Namespace, NoMemory, Skeleton, Spot, Text};
use sml_compiler::SmlCompiler;
use std::alloc::Global;

/// The word of a name space.
fn word(space: Namespace) -> &'static [u8] {
    match space {
        Namespace::Structure => b"structure",
        Namespace::Signature => b"signature",
        Namespace::Functor => b"functor",
        Namespace::Funsig => b"funsig",
    }
}

/// Adds a name with its place, before one mark and behind another.
fn push_spot<'x>(
    alloc: Global,
    out: &mut Vec<u8>,
    before: &'x [u8],
    spot: &'x Spot,
    behind: &'x [u8],
) -> Result<(), NoMemory> {
    let parts = [
        Part::Text(before),
        Part::Text(word(spot.name.space)),
        Part::Text(b" "),
        Part::Text(spot.name.name.as_bytes()),
        Part::Text(b" "),
        Part::Number(u64::from(spot.line)),
        Part::Text(b":"),
        Part::Number(u64::from(spot.col)),
        Part::Text(behind),
    ];
    push_parts(alloc, out, &parts)
}

/// A skeleton in a line.
fn shown(alloc: Global, skeleton: &Skeleton) -> Result<Vec<u8>, NoMemory> {
    let mut out = Vec::new(alloc);
    for spot in skeleton.defined.as_slice() {
        push_spot(alloc, &mut out, b"", spot, b"; ")?;
    }
    push_all(&mut out, b"|")?;
    for need in skeleton.free.as_slice() {
        push_spot(
            alloc,
            &mut out,
            b" ",
            &need.spot,
            if need.sure { b";" } else { b"?" },
        )?;
    }
    push_all(&mut out, b"\n")?;
    Ok(out)
}

/// The diagnostic that a fault of the compiler is. Want of memory is handed on.
pub fn refused(alloc: Global, fault: &CompileFault) -> Result<Vec<u8>, NoMemory> {
    match fault {
        CompileFault::Diag(diag) => {
            let mut line = told(alloc, diag)?;
            push_all(&mut line, b"\n")?;
            Ok(line)
        }
        CompileFault::NoMemory => Err(NoMemory),
    }
}

/// What the compiler tells of a source.
pub fn answer(alloc: Global, text: &[u8]) -> Result<Vec<u8>, NoMemory> {
    let mut compiler = SmlCompiler::new(alloc)?;
    let source = Text::from_bytes(alloc, text)?;
    match compiler.skeleton(alloc, &file(alloc)?, &source) {
        Ok(skeleton) => shown(alloc, &skeleton),
        Err(fault) => refused(alloc, &fault),
    }
}
