//! Joined datatypes, of which each is an argument of the one before.

use case_files::{Part, number_of, push_parts};
use cm_base::NoMemory;
use std::alloc::Global;

/// Adds a datatype whose argument is the next one.
fn push_link(alloc: Global, out: &mut Vec<u8>, number: u64) -> Result<(), NoMemory> {
    let word: &[u8] = if number == 0 { b"datatype" } else { b" and" };
    push_parts(
        alloc,
        out,
        &[
            Part::Text(word),
            Part::Text(b" t"),
            Part::Number(number),
            Part::Text(b" = C"),
            Part::Number(number),
            Part::Text(b" of t"),
            Part::Number(number.saturating_add(1)),
        ],
    )
}

/// A chain of so many datatypes, and one with an argument of this type at its end.
fn chain_of(alloc: Global, count: u32, last: &[u8]) -> Result<Vec<u8>, NoMemory> {
    let mut out = Vec::new(alloc);
    let count = u64::from(count);
    for number in 0..count {
        push_link(alloc, &mut out, number)?;
    }
    push_parts(
        alloc,
        &mut out,
        &[
            Part::Text(b" and t"),
            Part::Number(count),
            Part::Text(b" = C of "),
            Part::Text(last),
        ],
    )?;
    Ok(out)
}

/// The declaration of a chain by its text: how many, and the type at its end. `None` where it isn't one.
pub fn chain(alloc: Global, text: &[u8]) -> Result<Option<Vec<u8>>, NoMemory> {
    let Some(at) = text.iter().position(|byte| *byte == b' ') else {
        return Ok(None);
    };
    let (count, last) = text.split_at(at);
    match number_of(count) {
        Some(count) if count > 0 => Ok(Some(chain_of(alloc, count, last)?)),
        _ => Ok(None),
    }
}
