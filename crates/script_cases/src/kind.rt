//! The kinds of cases, by the names that stand behind `@`.

/// A kind of cases of texts.
#[derive(Clone, Copy)]
pub enum TextKind {
    /// `script`: the steps of a script.
    Script,
    /// `generated`: the steps that make a project of so many units.
    Generated,
}

/// The kinds with their names.
const KINDS: [(&[u8], TextKind); 2] = [
    (b"script", TextKind::Script),
    (b"generated", TextKind::Generated),
];

/// The kind of a name.
pub fn kind_of(name: &[u8]) -> Option<TextKind> {
    for (known, kind) in KINDS {
        if known == name {
            return Some(kind);
        }
    }
    None
}
