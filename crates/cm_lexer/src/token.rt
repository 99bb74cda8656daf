//! Tokens, and what a scan of a text gives.

use crate::point::Point;
use cm_base::List;

/// What a token is.
#[derive(Clone, Copy, Debug, PartialEq, Eq)]
pub enum TokenKind {
    /// A run of letters, digits and `_ . - / $ ' + ~ @ %`.
    Word,
    /// A text in double quotes, with its quotes.
    Quoted,
    /// `:`
    Colon,
    /// `(`
    Open,
    /// `)`
    Close,
    /// `#if`, `#elif`, `#else`, `#endif` or `#error`, first on its line.
    Directive,
    /// All that follows a directive on its line, blanks and all; perhaps no byte. One stands behind each directive.
    Rest,
}

/// A token: the bytes of its text from `start` up to `end`, and the line and the column of the first of them,
/// which count from 1.
#[derive(Clone, Copy, Debug, PartialEq, Eq)]
pub struct Token {
    pub kind: TokenKind,
    pub start: u32,
    pub end: u32,
    pub line: u32,
    pub col: u32,
}

/// The tokens of a text up to the first byte at which it is refused, if it is.
#[derive(Debug, Drop)]
pub struct Scan {
    pub tokens: List<Token>,
    pub wrong: Option<Point>,
}
