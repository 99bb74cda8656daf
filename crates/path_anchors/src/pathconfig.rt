//! Reads a pathconfig.

ghost use Rattle.std.specs.Prelude.{◌≡◌, ◌∷◌, [], ◌<◌, ◌≤◌, ◌^◌, ◌==◌, IfOk, drop, length};
ghost use Rattle.std.specs.List.{position, position_or_len};
ghost use Rattle.cm_base.specs.Calls.{Gives};
ghost use Rattle.path_anchors.specs.Pathconfig.{after_line, bindings_of, bound_more, refusal, is_in_store, Binds};

use crate::anchors::Anchors;
use crate::line::{BoundLine, is_skipped, read_line};
use crate::parts::path_of;
use cm_base::{Diag, Fault, List, NoMemory, Place, Text};
use std::alloc::Global;

/// A diagnostic of the pathconfig.
#[tactic(auto, unfolding(crate::specs::Pathconfig::config_file))]
fn refusal(alloc: Global, number: u8, line: u32, col: u32) -> Result<Diag, NoMemory>
    ensures { IfOk result (λ diag. diag ≡ refusal number line col []) }
{
    Ok(Diag {
        number,
        at: Place {
            file: Text::from_bytes(alloc, b"pathconfig")?,
            line,
            col,
        },
        names: List::new(alloc),
    })
}

/// .. with a name.
fn refusal_of(alloc: Global, number: u8, line: u32, col: u32, name: Text) -> Result<Diag, NoMemory>
    ensures { IfOk result (λ diag. diag ≡ refusal number line col (name ∷ [])) }
{
    let mut diag = refusal(alloc, number, line, col)?;
    diag.names.add(name)?;
    Ok(diag)
}

/// Whether a directory lies in the store.
fn is_in_store(directory: &[Text]) -> bool
    ensures { result ≡ is_in_store directory.now }
{
    match directory {
        [first, ..] => first.as_bytes() == b".cm".as_slice(),
        [] => false,
    }
}

/// Adds what a line binds. 16 for an anchor that is bound, 17 for a directory that touches another one, and 18 for
/// one in the store.
fn bind(alloc: Global, anchors: &mut Anchors, line: u32, bound: BoundLine) -> Result<(), Fault>
    ensures { Binds result (bound_more anchors.old line bound) anchors.new }
{
    let BoundLine {
        anchor,
        written,
        col,
        directory,
    } = bound;
    if anchors.get(&anchor).is_some() {
        return Err(Fault::Diag(refusal_of(alloc, 16, line, 1, anchor)?));
    }
    let path = path_of(alloc, directory.as_slice())?;
    if anchors.touches(&path) {
        return Err(Fault::Diag(refusal_of(alloc, 17, line, col, anchor)?));
    }
    if is_in_store(directory.as_slice()) {
        return Err(Fault::Diag(refusal_of(alloc, 18, line, col, written)?));
    }
    anchors.bind(anchor, path)?;
    Ok(())
}

/// Adds what a line of the pathconfig binds, if it isn't one to skip. 2 for a line of another form.
fn add_line(alloc: Global, anchors: &mut Anchors, line: u32, text: &[u8]) -> Result<(), Fault>
    requires { length text.now < 2 ^ 32 }
    ensures { Binds result (after_line anchors.old line text.now) anchors.new }
{
    if is_skipped(text) {
        return Ok(());
    }
    match read_line(alloc, text)? {
        Some(bound) => bind(alloc, anchors, line, bound),
        None => Err(Fault::Diag(refusal(alloc, 2, line, 1)?)),
    }
}

/// The place of the first line feed.
fn first_feed(text: &[u8]) -> Option<usize>
    ensures { result ≡ position (λ byte. byte == 10) text.now }
{
    text.iter().position(|byte| *byte == b'\n')
}

/// The length of the line at the front.
#[tactic(auto, using(crate::proofs::Runs::runs))]
fn line_len(text: &[u8]) -> usize
    ensures run { result ≡ position_or_len (λ byte. byte == 10) text.now }
    ensures within { result ≤ length text.now }
{
    first_feed(text).unwrap_or(text.len())
}

/// What follows a line's feed, if there is one.
fn without_feed(text: &[u8]) -> &[u8]
    ensures { result.now ≡ drop 1 text.now }
{
    match text {
        [_, rest @ ..] => rest,
        [] => text,
    }
}

/// The anchors that the lines bind, the first of which is line 1.
fn read_lines(alloc: Global, text: &Text) -> Result<Anchors, Fault>
    requires { length text.now < 2 ^ 32 }
    ensures { Gives result (bindings_of text.now) }
{
    let mut anchors = Anchors::new(alloc);
    let mut rest = text.as_bytes();
    let mut number = 1usize;
    while !rest.is_empty() {
        let (line, after) = rest.split_at(line_len(rest));
        add_line(alloc, &mut anchors, number as u32, line)?;
        rest = without_feed(after);
        number += 1;
    }
    Ok(anchors)
}

/// The anchors that a pathconfig binds, or the diagnostic of its first bad line: 2, 16, 17 or 18. A text of 2^32 bytes
/// or more, whose places have no numbers, counts as want of memory.
pub fn read_pathconfig(alloc: Global, text: &Text) -> Result<Anchors, Fault>
    ensures { Gives result (bindings_of text.now) }
{
    if text.as_bytes().len() >= 1 << 32 {
        return Err(Fault::NoMemory);
    }
    read_lines(alloc, text)
}
