//! Type names and labels as they are printed.

use crate::piece::{Piece, push_bytes};
use case_files::{Part, push_parts};
use cm_base::{List, NoMemory, Text};
use semantic_objects::{Owner, TyName};
use std::alloc::Global;

/// The type names of the initial basis by their numbers.
const BASIS: [&[u8]; 9] = [
    b"int", b"bool", b"string", b"char", b"list", b"option", b"ref", b"exn", b"order",
];

/// A number behind a mark.
fn push_numbered(
    alloc: Global,
    pieces: &mut List<Piece>,
    owner: &[u8],
    number: u64,
) -> Result<(), NoMemory> {
    let mut out = Vec::new(alloc);
    push_parts(
        alloc,
        &mut out,
        &[Part::Text(owner), Part::Text(b"#"), Part::Number(number)],
    )?;
    push_bytes(pieces, out.as_slice())
}

/// Adds the number of a type name behind a mark.
fn push_marked(pieces: &mut List<Piece>, number: Piece) -> Result<(), NoMemory> {
    push_bytes(pieces, b"#")?;
    pieces.add(number)
}

/// The name of a type name of the basis.
fn basis_name(number: u64) -> &'static [u8] {
    match usize::try_from(number) {
        Ok(place) => match BASIS.get(place) {
            Some(name) => name,
            None => b"",
        },
        Err(_) => b"",
    }
}

/// Adds a type name: one of the basis by its name where it has one, and any other by its owner and its number.
pub(crate) fn push_name(
    alloc: Global,
    pieces: &mut List<Piece>,
    name: &TyName,
) -> Result<(), NoMemory> {
    match &name.owner {
        Owner::Basis => {
            let known = basis_name(name.number);
            if known.is_empty() {
                push_numbered(alloc, pieces, b"basis", name.number)
            } else {
                push_bytes(pieces, known)
            }
        }
        Owner::Unit(unit) => {
            push_bytes(pieces, unit.as_bytes())?;
            push_marked(pieces, Piece::OwnNumber(name.number))
        }
        Owner::Bound => push_marked(pieces, Piece::BoundNumber(name.number)),
    }
}

/// Whether a label is that of a place of a tuple, which count from 1.
fn is_place(alloc: Global, label: &Text, place: u64) -> Result<bool, NoMemory> {
    let mut out = Vec::new(alloc);
    push_parts(alloc, &mut out, &[Part::Number(place)])?;
    Ok(label.as_bytes() == out.as_slice())
}

/// Whether labels are those of a tuple of two parts or more. Those of nine parts at most stand in the order of places.
pub(crate) fn are_places(alloc: Global, labels: &List<Text>) -> Result<bool, NoMemory> {
    let mut place = 0u64;
    for label in labels.as_slice() {
        place = place.saturating_add(1);
        if !is_place(alloc, label, place)? {
            return Ok(false);
        }
    }
    Ok(labels.len() > 1)
}
