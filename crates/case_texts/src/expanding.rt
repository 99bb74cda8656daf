//! Long texts in short: `{200*x}` stands for 200 of the bytes behind the star, and `{3+a@ }` for `a0 a1 a2 `, with the
//! number of the turn for each `@`. An opening brace is `{}`.

use case_files::{CaseFault, Part, Wrong, number_of, push_all, push_parts};
use cm_base::{NoMemory, Text};
use std::alloc::Global;

/// Bytes that are repeated: how often, and whether each `@` of them is the number of the turn.
#[derive(Clone, Copy)]
struct Repetition<'a> {
    count: u32,
    is_numbered: bool,
    bytes: &'a [u8],
}

/// Adds bytes with a number for each `@`.
fn push_numbered(
    alloc: Global,
    out: &mut Vec<u8>,
    number: u32,
    bytes: &[u8],
) -> Result<(), NoMemory> {
    for byte in bytes {
        match *byte {
            b'@' => push_parts(alloc, out, &[Part::Number(u64::from(number))])?,
            other => push_all(out, &[other])?,
        }
    }
    Ok(())
}

/// Adds bytes so many times.
fn push_times(alloc: Global, out: &mut Vec<u8>, piece: Repetition<'_>) -> Result<(), NoMemory> {
    for turn in 0..piece.count {
        if piece.is_numbered {
            push_numbered(alloc, out, turn, piece.bytes)?;
        } else {
            push_all(out, piece.bytes)?;
        }
    }
    Ok(())
}

/// What a repetition is, and the rest behind its closing brace.
fn read_repetition(text: &[u8]) -> Option<(Repetition<'_>, &[u8])> {
    let mark = text.iter().position(|byte| *byte == b'*' || *byte == b'+')?;
    let (digits, after) = text.split_at(mark);
    let end = after.iter().position(|byte| *byte == b'}')?;
    let (marked, rest) = after.split_at(end);
    let [sign, bytes @ ..] = marked else {
        return None;
    };
    let [_brace, rest @ ..] = rest else {
        return None;
    };
    let piece = Repetition {
        count: number_of(digits)?,
        is_numbered: *sign == b'+',
        bytes,
    };
    Some((piece, rest))
}

/// Adds the piece of a text behind an opening brace. None where it is neither a brace nor a repetition.
fn push_piece(alloc: Global, out: &mut Vec<u8>, text: &[u8]) -> Result<Option<()>, NoMemory> {
    if let [b'}', rest @ ..] = text {
        push_all(out, b"{")?;
        push_all(out, rest)?;
        return Ok(Some(()));
    }
    let Some((piece, rest)) = read_repetition(text) else {
        return Ok(None);
    };
    push_times(alloc, out, piece)?;
    push_all(out, rest)?;
    Ok(Some(()))
}

/// A text with its repetitions written out. A brace that opens nothing is refused.
pub fn expanded(alloc: Global, line: u32, text: &[u8]) -> Result<Text, CaseFault> {
    let mut out = Vec::new(alloc);
    let mut is_first = true;
    for piece in text.split(|byte| *byte == b'{') {
        if is_first {
            push_all(&mut out, piece)?;
            is_first = false;
        } else if push_piece(alloc, &mut out, piece)?.is_none() {
            return Err(CaseFault::Wrong(line, Wrong::Escape));
        }
    }
    Ok(Text::from_vec(out))
}
