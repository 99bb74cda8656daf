//! The kinds of cases, by the names that stand behind `@`.

/// What a case is a case of.
#[derive(Clone, Copy)]
pub enum Kind {
    /// `nodes`: a table of nodes, by steps.
    Nodes,
    /// `restored`: bytes that are read back as interfaces, by steps.
    Restored,
    /// `imports`: imports of a unit that are read, by steps.
    Imports,
}

/// The kinds with their names.
const KINDS: [(&[u8], Kind); 3] = [
    (b"nodes", Kind::Nodes),
    (b"restored", Kind::Restored),
    (b"imports", Kind::Imports),
];

/// The kind of a name.
pub fn kind_of(name: &[u8]) -> Option<Kind> {
    for (known, kind) in KINDS {
        if known == name {
            return Some(kind);
        }
    }
    None
}
