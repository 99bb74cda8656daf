//! Places, and the names that stand at them.

use cm_base::{List, Text};

/// Where a phrase begins in its file: a line and a byte in it, each counted from 1. A tree that was read from
/// code has 0 and 0 throughout.
#[derive(Clone, Copy, Debug, PartialEq, Eq)]
pub struct At {
    pub line: u32,
    pub col: u32,
}

/// A name of one part: an identifier, a label, a type variable or the name of a structure and the like.
#[derive(Clone, Debug, Drop)]
pub struct Name {
    pub text: Text,
    pub line: u32,
    pub col: u32,
}

/// A name with the structures that it is found in before it, from the outermost.
#[derive(Clone, Debug, Drop)]
pub struct LongName {
    pub parts: List<Text>,
    pub line: u32,
    pub col: u32,
}
