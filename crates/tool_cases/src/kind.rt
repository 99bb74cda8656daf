//! The kinds of cases, by the names that stand behind `@`.

/// What a case is a case of.
#[derive(Clone, Copy)]
pub enum Kind {
    /// A text that a tool makes of another.
    Made(MadeKind),
    /// `derive`: uses of tools over a store, by steps.
    Derive,
}

/// Which tool makes a text.
#[derive(Clone, Copy)]
pub enum MadeKind {
    /// `embedded`: of the unit `t.txt`, with the value name `text`.
    Embedded,
    /// `module`: an empty input of the unit that is the text, with the value name `v`.
    Module,
    /// `literate`: of the unit `t.txt`.
    Literate,
    /// `prelude`: behind the head of a line `(* head *)`.
    Prelude,
    /// `record-path`: where the record of a unit stands.
    RecordPath,
}

/// The kinds with their names.
const KINDS: [(&[u8], Kind); 6] = [
    (b"embedded", Kind::Made(MadeKind::Embedded)),
    (b"module", Kind::Made(MadeKind::Module)),
    (b"literate", Kind::Made(MadeKind::Literate)),
    (b"prelude", Kind::Made(MadeKind::Prelude)),
    (b"record-path", Kind::Made(MadeKind::RecordPath)),
    (b"derive", Kind::Derive),
];

/// The kind of a name.
pub fn kind_of(name: &[u8]) -> Option<Kind> {
    for (known, kind) in KINDS {
        if known == name {
            return Some(kind);
        }
    }
    None
}
