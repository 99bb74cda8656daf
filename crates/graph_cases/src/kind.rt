//! The kinds of cases, by the names that stand behind `@`.

/// What a case is a case of.
#[derive(Clone, Copy)]
pub enum Kind {
    /// `graph`: the calls of a graph of environments, by steps.
    Graph,
}

/// The kinds with their names.
const KINDS: [(&[u8], Kind); 1] = [(b"graph", Kind::Graph)];

/// The kind of a name.
pub fn kind_of(name: &[u8]) -> Option<Kind> {
    for (known, kind) in KINDS {
        if known == name {
            return Some(kind);
        }
    }
    None
}
