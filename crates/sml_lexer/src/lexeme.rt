//! A lexeme: its kind, with the value that it stands for, and its place.

use cm_base::{List, Text};

/// A kind of lexeme, with what tells lexemes of this kind apart.
#[derive(Debug, Drop)]
pub enum LexemeKind {
    /// A reserved word, or a mark such as `(`, `=>` or `...`.
    Reserved(Text),
    /// An identifier: the structure names before its last part, and that part.
    Name(List<Text>),
    /// A type variable, with its primes.
    TyVar(Text),
    /// An integer constant. It may be a record's label where it has no sign and is decimal with no leading `0`.
    Int { value: i64, label: bool },
    /// A string constant: the bytes that it stands for.
    Str(Text),
    /// A character constant: the byte that it stands for.
    Char(u8),
}

/// A lexeme, with the line and the column of its first byte; both count from 1, columns in bytes.
#[derive(Debug, Drop)]
pub struct Lexeme {
    pub kind: LexemeKind,
    pub line: u32,
    pub col: u32,
}
