//! What texts of the toy grammar are read as.

/// An operator between two parts.
#[derive(Clone, Copy, Debug, PartialEq, Eq)]
pub enum Operator {
    Add,
    Subtract,
    Multiply,
    Divide,
}

/// A text that was read: brackets and all.
#[derive(Debug, Drop)]
pub enum Tree {
    Number(u32),
    Name(char),
    Negated(Box<Tree>),
    Grouped(Box<Tree>),
    Joined(Operator, Box<Tree>, Box<Tree>),
}
