//! The sizes of types that were counted, which hold until something is put in for one of their variables.

ghost use Rattle.std.specs.Prelude.{◌≡◌, true, drop};
ghost use Rattle.type_nodes.specs.Stamps.{IsAbove, AreAbove};

use crate::entry::Entry;

/// How many nodes a type has as a tree (a large one has `LARGE`), and a number above those of all its variables that
/// aren't rigid.
#[derive(Clone, Copy, Debug, PartialEq, Eq)]
pub struct Weight {
    pub size: u32,
    pub above: usize,
}

/// What was counted of a node's type, how many entries the trail had then, and how often one had been taken back.
#[derive(Clone, Copy, Debug, PartialEq, Eq)]
pub(crate) struct Stamp {
    pub(crate) weight: Weight,
    pub(crate) entries: usize,
    pub(crate) cuts: usize,
}

/// Whether an entry puts nothing in for a variable below a number.
fn is_above(entry: Entry, number: usize) -> bool
    ensures { result ≡ true → IsAbove number entry }
{
    match entry {
        Entry::Bound(variable, _) => number <= variable,
        Entry::Marked(_) => true,
    }
}

/// Whether none of some entries does.
fn are_above(entries: &[Entry], number: usize) -> bool
    ensures { result ≡ true → AreAbove number entries.now }
{
    let mut rest = entries;
    while let Some((first, further)) = rest.split_first() {
        if !is_above(*first, number) {
            return false;
        }
        rest = further;
    }
    true
}

/// Whether no entry from a place on does, where there are at most so many; false where there are more.
pub(crate) fn are_above_since(trail: &[Entry], from: usize, number: usize, most: usize) -> bool
    ensures { result ≡ true → AreAbove number (drop from trail.now) }
{
    if from > trail.len() || trail.len() - from > most {
        return false;
    }
    are_above(trail.split_at(from).1, number)
}
