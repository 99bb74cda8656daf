//! The kinds of cases, by their names.

/// A kind of cases.
#[derive(Clone, Copy)]
pub enum Kind {
    /// Commands with a compiler that takes any source.
    Marked,
    /// Commands with the compiler of the program.
    Build,
}

/// The kinds with their names.
const KINDS: [(&[u8], Kind); 2] = [(b"marked", Kind::Marked), (b"build", Kind::Build)];

/// The kind of this name.
pub fn kind_of(name: &[u8]) -> Option<Kind> {
    for (known, kind) in KINDS {
        if known == name {
            return Some(kind);
        }
    }
    None
}
