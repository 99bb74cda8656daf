//! What is shown of a unit.

ghost use Rattle.sml_modules.specs.Graphs.{HasTop};

use crate::kind::Kind;
use case_files::{Part, push_parts};
use case_texts::{line, refusal};
use cm_base::{NoMemory, Text};
use env_pickle::pickle;
use sml_modules::{EnvGraph, TopId};
use sml_trees::{BareUnit, FunBind, FunsigBind, SigBind, StrBind, TopDec};
use std::alloc::Global;
use type_printing::NameNumbers;
use unit_printing::{push_functor, push_funsig, push_signature, push_structure, push_top};

/// A graph, and a top in it.
#[derive(Clone, Copy)]
struct Made<'a> {
    graph: &'a EnvGraph,
    top: TopId,
}

/// Adds the lines of the structures of a declaration.
fn push_structures(
    alloc: Global,
    out: &mut Vec<u8>,
    made: Made<'_>,
    numbers: &mut NameNumbers,
    binds: &[StrBind],
) -> Result<(), NoMemory>
    requires { HasTop made.graph.now made.top }
{
    for bind in binds {
        push_structure(alloc, out, numbers, made.graph, made.top, &bind.name.text)?;
    }
    Ok(())
}

/// Adds the lines of the signatures of a declaration.
fn push_signatures(
    alloc: Global,
    out: &mut Vec<u8>,
    made: Made<'_>,
    numbers: &mut NameNumbers,
    binds: &[SigBind],
) -> Result<(), NoMemory>
    requires { HasTop made.graph.now made.top }
{
    for bind in binds {
        push_signature(alloc, out, numbers, made.graph, made.top, &bind.name.text)?;
    }
    Ok(())
}

/// Adds the lines of the functors of a declaration.
fn push_functors(
    alloc: Global,
    out: &mut Vec<u8>,
    made: Made<'_>,
    numbers: &mut NameNumbers,
    binds: &[FunBind],
) -> Result<(), NoMemory>
    requires { HasTop made.graph.now made.top }
{
    for bind in binds {
        push_functor(alloc, out, numbers, made.graph, made.top, &bind.name.text)?;
    }
    Ok(())
}

/// Adds the lines of the signatures of functors of a declaration.
fn push_funsigs(
    alloc: Global,
    out: &mut Vec<u8>,
    made: Made<'_>,
    numbers: &mut NameNumbers,
    binds: &[FunsigBind],
) -> Result<(), NoMemory>
    requires { HasTop made.graph.now made.top }
{
    for bind in binds {
        push_funsig(alloc, out, numbers, made.graph, made.top, &bind.name.text)?;
    }
    Ok(())
}

/// Adds the lines of what a declaration defines.
fn push_defined(
    alloc: Global,
    out: &mut Vec<u8>,
    made: Made<'_>,
    dec: &TopDec,
) -> Result<(), NoMemory>
    requires { HasTop made.graph.now made.top }
{
    let mut numbers = NameNumbers::by_order(alloc);
    match dec {
        TopDec::Structures(binds, _) => push_structures(
            alloc,
            out,
            made,
            &mut numbers,
            binds.as_slice(),
        ),
        TopDec::Signatures(binds, _) => push_signatures(
            alloc,
            out,
            made,
            &mut numbers,
            binds.as_slice(),
        ),
        TopDec::Functors(binds, _) => push_functors(
            alloc,
            out,
            made,
            &mut numbers,
            binds.as_slice(),
        ),
        TopDec::Funsigs(binds, _) => push_funsigs(alloc, out, made, &mut numbers, binds.as_slice()),
    }
}

/// Bytes in hex, as a line.
fn hex_line(alloc: Global, bytes: &[u8]) -> Result<Vec<u8>, NoMemory> {
    let digits = hex::encode(alloc, bytes)?;
    line(alloc, digits.as_bytes())
}

/// How many bytes there are, as a line.
fn size_line(alloc: Global, bytes: &[u8]) -> Result<Vec<u8>, NoMemory> {
    let mut out = Vec::new(alloc);
    let count = bytes.len() as u64;
    push_parts(alloc, &mut out, &[Part::Number(count), Part::Text(b"\n")])?;
    Ok(out)
}

/// The line of an interface, as it stands or as its size, or its refusal.
fn interface_line(
    alloc: Global,
    home: &Text,
    graph: &EnvGraph,
    top: TopId,
    is_whole: bool,
) -> Result<Vec<u8>, NoMemory>
    requires { HasTop graph.now top }
{
    match pickle(graph, top, home) {
        Ok(text) if is_whole => hex_line(alloc, text.as_bytes()),
        Ok(text) => size_line(alloc, text.as_bytes()),
        Err(fault) => refusal(alloc, &fault),
    }
}

/// The lines that a case of a kind has for a unit of this name and for what it defines.
pub fn lines_of(
    alloc: Global,
    kind: Kind,
    unit: &BareUnit,
    name: &Text,
    graph: &EnvGraph,
    top: TopId,
) -> Result<Vec<u8>, NoMemory>
    requires { HasTop graph.now top }
{
    let mut out = Vec::new(alloc);
    match kind {
        Kind::Interface => return interface_line(alloc, name, graph, top, true),
        Kind::InterfaceSize => return interface_line(alloc, name, graph, top, false),
        Kind::Defined => {
            let mut numbers = NameNumbers::by_order(alloc);
            push_top(alloc, &mut out, &mut numbers, graph, top)?;
        }
        Kind::Last => {
            if let [.., last] = unit.topdecs.as_slice() {
                push_defined(alloc, &mut out, Made { graph, top }, last)?;
            }
        }
        Kind::Accepted => {}
    }
    if out.is_empty() {
        for byte in b"ok\n" {
            out.push(*byte)?;
        }
    }
    Ok(out)
}
