//! What a type is printed of before its variables have names.

use cm_base::{List, NoMemory};
use std::alloc::Global;

/// A byte, a variable of the scheme, or one of a table; or the number of a type name, of one that a unit made or of one
/// that a signature or a functor binds.
#[derive(Clone, Copy)]
pub(crate) enum Piece {
    Byte(u8),
    Bound(u32),
    Free(usize),
    OwnNumber(u64),
    BoundNumber(u64),
}

/// How a type is held together: what may stand around it without parentheses.
#[derive(Clone, Copy)]
pub(crate) enum Tightness {
    Arrow,
    Tuple,
    Applied,
}

/// A printed type.
#[derive(Drop)]
pub(crate) struct Printed {
    pub(crate) pieces: List<Piece>,
    pub(crate) tightness: Tightness,
}

/// Adds bytes.
pub(crate) fn push_bytes(pieces: &mut List<Piece>, bytes: &[u8]) -> Result<(), NoMemory> {
    for byte in bytes {
        pieces.add(Piece::Byte(*byte))?;
    }
    Ok(())
}

/// Adds pieces.
fn push_pieces(pieces: &mut List<Piece>, more: &List<Piece>) -> Result<(), NoMemory> {
    for piece in more.as_slice() {
        pieces.add(*piece)?;
    }
    Ok(())
}

/// Whether a type needs parentheses as a part of one that is as tight as this.
fn needs_parentheses(part: Tightness, whole: Tightness) -> bool {
    match (part, whole) {
        (Tightness::Applied, _) => false,
        (Tightness::Tuple, Tightness::Arrow) => false,
        _ => true,
    }
}

/// Adds a part, in parentheses where it needs them.
pub(crate) fn push_part(
    pieces: &mut List<Piece>,
    part: &Printed,
    whole: Tightness,
) -> Result<(), NoMemory> {
    if needs_parentheses(part.tightness, whole) {
        push_bytes(pieces, b"(")?;
        push_pieces(pieces, &part.pieces)?;
        push_bytes(pieces, b")")
    } else {
        push_pieces(pieces, &part.pieces)
    }
}

/// Adds a part that stands alone.
pub(crate) fn push_whole(pieces: &mut List<Piece>, part: &Printed) -> Result<(), NoMemory> {
    push_pieces(pieces, &part.pieces)
}

/// A printed leaf.
pub(crate) fn leaf(alloc: Global, piece: Piece) -> Result<Printed, NoMemory> {
    let mut pieces = List::new(alloc);
    pieces.add(piece)?;
    Ok(Printed {
        pieces,
        tightness: Tightness::Applied,
    })
}
