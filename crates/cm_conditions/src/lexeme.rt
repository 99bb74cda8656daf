//! The lexemes of a condition.

use cm_base::Text;

/// A mark of conditions.
#[derive(Clone, Copy, Debug, PartialEq, Eq)]
pub enum Mark {
    Open,
    Close,
    Times,
    Plus,
    Minus,
    Equal,
    Unequal,
    Less,
    LessEqual,
    Greater,
    GreaterEqual,
}

/// What a condition is made of.
#[derive(Debug, Drop)]
pub enum Lexeme {
    /// A decimal number up to the greatest of 64 bits.
    Number(i64),
    /// A letter, and then letters, digits, `_` and the prime.
    Word(Text),
    Mark(Mark),
    /// A greater number, or a byte that begins no lexeme. No condition has one.
    Wrong,
}

/// The operators between two sides, from the loosest on: which may stand in one chain.
#[derive(Clone, Copy, Debug, PartialEq, Eq)]
pub enum Strength {
    Or,
    And,
    Sum,
    Product,
}

/// An operator between two sides.
#[derive(Clone, Copy, Debug, PartialEq, Eq)]
pub enum Operator {
    Multiply,
    Div,
    Mod,
    Add,
    Subtract,
    Equal,
    Unequal,
    Less,
    LessEqual,
    Greater,
    GreaterEqual,
    Andalso,
    Orelse,
}
