//! The lines of a list that conditions select from.

use crate::cond::Cond;
use cm_base::{Place, Text};

/// A directive or an item of a list, and where it stands: a directive at its `#`.
#[derive(Debug, Drop)]
pub struct Line {
    pub at: Place,
    pub body: LineBody,
}

/// What a line of a list is. A list is a sequence of lines in the order of the text, whether or not they are balanced.
#[derive(Debug, Drop)]
pub enum LineBody {
    /// `#if`: what follows is chosen where the condition isn't 0.
    If(Cond),
    /// `#elif`: another branch of the `#if` that is open.
    Elif(Cond),
    /// `#else`: the last branch of the `#if` that is open.
    Else,
    /// `#endif`: closes the `#if` that is open.
    Endif,
    /// `#error`, with the text that is the name of its refusal.
    Error(Text),
    /// The item of this number.
    Item(u32),
}
