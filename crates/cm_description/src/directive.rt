//! Directives.

/// A directive of a list.
#[derive(Clone, Copy, Debug, PartialEq, Eq)]
pub enum Directive {
    If,
    Elif,
    Else,
    Endif,
    Error,
}
