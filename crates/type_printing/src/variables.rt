//! Names for variables, by first occurrence.

use crate::numbers::NameNumbers;
use crate::piece::Piece;
use case_files::{Part, push_parts};
use cm_base::{List, NoMemory};
use std::alloc::Global;

const LETTERS: &[u8] = b"abcdefghijklmnopqrstuvwxyz";

/// The variables that were printed, each in the place of its name.
#[derive(Drop)]
struct Seen {
    bound: List<u32>,
    free: List<usize>,
}

/// Adds the name of a place: a letter, and a number behind the last letter.
fn push_letter(alloc: Global, out: &mut Vec<u8>, place: usize) -> Result<(), NoMemory> {
    match LETTERS.get(place) {
        Some(letter) => {
            out.push(*letter)?;
            Ok(())
        }
        None => push_parts(alloc, out, &[Part::Text(b"z"), Part::Number(place as u64)]),
    }
}

/// Adds a variable of the scheme: `'a`, or `''a` where it is marked.
fn push_bound(
    alloc: Global,
    out: &mut Vec<u8>,
    seen: &mut Seen,
    marks: &[bool],
    i: u32,
) -> Result<(), NoMemory> {
    let is_marked = match marks.get(i as usize) {
        Some(mark) => *mark,
        None => false,
    };
    let mark: &[u8] = if is_marked { b"''" } else { b"'" };
    push_parts(alloc, out, &[Part::Text(mark)])?;
    match seen.bound.as_slice().iter().position(|known| *known == i) {
        Some(place) => push_letter(alloc, out, place),
        None => {
            let place = seen.bound.len();
            seen.bound.add(i)?;
            push_letter(alloc, out, place)
        }
    }
}

/// Adds a variable of a table: `?a`.
fn push_free(alloc: Global, out: &mut Vec<u8>, seen: &mut Seen, n: usize) -> Result<(), NoMemory> {
    push_parts(alloc, out, &[Part::Text(b"?")])?;
    match seen.free.as_slice().iter().position(|known| *known == n) {
        Some(place) => push_letter(alloc, out, place),
        None => {
            let place = seen.free.len();
            seen.free.add(n)?;
            push_letter(alloc, out, place)
        }
    }
}

/// Adds the number of a type name.
fn push_number(alloc: Global, out: &mut Vec<u8>, number: u64) -> Result<(), NoMemory> {
    push_parts(alloc, out, &[Part::Number(number)])
}

/// The variables of a type function, in the order of its arguments.
fn arguments(alloc: Global, arity: u32) -> Result<List<u32>, NoMemory> {
    let mut bound = List::new(alloc);
    for i in 0..arity {
        bound.add(i)?;
    }
    Ok(bound)
}

/// Adds the arguments of a type function as they stand in front of its name: nothing, `'a `, or `('a, 'b) `.
pub fn push_arguments(alloc: Global, out: &mut Vec<u8>, arity: u32) -> Result<(), NoMemory> {
    if arity > 1 {
        push_parts(alloc, out, &[Part::Text(b"(")])?;
    }
    for i in 0..arity {
        let mark: &[u8] = if i == 0 { b"'" } else { b", '" };
        push_parts(alloc, out, &[Part::Text(mark)])?;
        push_letter(alloc, out, i as usize)?;
    }
    let end: &[u8] = match arity {
        0 => b"",
        1 => b" ",
        _ => b") ",
    };
    push_parts(alloc, out, &[Part::Text(end)])
}

/// Adds pieces, with names in the places of variables and of numbers. The first variables have the first names, in
/// order.
pub(crate) fn push_named(
    alloc: Global,
    out: &mut Vec<u8>,
    numbers: &mut NameNumbers,
    pieces: &List<Piece>,
    first: u32,
    marks: &[bool],
) -> Result<(), NoMemory> {
    let mut seen = Seen {
        bound: arguments(alloc, first)?,
        free: List::new(alloc),
    };
    for piece in pieces.as_slice() {
        match *piece {
            Piece::Byte(byte) => out.push(byte)?,
            Piece::Bound(i) => push_bound(alloc, out, &mut seen, marks, i)?,
            Piece::Free(n) => push_free(alloc, out, &mut seen, n)?,
            Piece::OwnNumber(number) => push_number(alloc, out, numbers.of_own(number)?)?,
            Piece::BoundNumber(number) => push_number(alloc, out, numbers.of_bound(number)?)?,
        }
    }
    Ok(())
}
