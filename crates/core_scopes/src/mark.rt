//! Marks of scopes.

/// A scope as it stood when the mark was made.
#[derive(Clone, Copy, Debug, PartialEq, Eq)]
pub struct ScopeMark {
    pub(crate) structures: usize,
    pub(crate) types: usize,
    pub(crate) values: usize,
    pub(crate) written: usize,
    pub(crate) hidden: usize,
}
