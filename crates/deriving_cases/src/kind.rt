//! The kinds of cases, by their names.

/// A kind of cases.
#[derive(Clone, Copy)]
pub enum Kind {
    /// Loading of a project with a box of tools.
    Deriving,
}

/// The kinds with their names.
const KINDS: [(&[u8], Kind); 1] = [(b"deriving", Kind::Deriving)];

/// The kind of this name.
pub fn kind_of(name: &[u8]) -> Option<Kind> {
    for (known, kind) in KINDS {
        if known == name {
            return Some(kind);
        }
    }
    None
}
