//! The kinds of cases, by the names that stand behind `@`.

/// What a case is a case of.
#[derive(Clone, Copy)]
pub enum Kind {
    /// `scopes`: what is in scope, by steps. `value NAME N`, `type NAME N`, `structure NAME ENV`, `written NAME N ..`
    /// and `written-alone NAME N ..` bind; `open ENV` opens. `mark` answers the number of a mark, and `leave MARK` goes
    /// back to it. `pack MARK` makes an environment of what was bound since, and answers its number; `over ENV` begins
    /// a scope over one. `keep OUTER INNER` is the end of a `local`. `find-value`, `find-type` and `find-structure`
    /// look a long name up, `find-written` a written type variable. A value that was bound is its number, and one of
    /// an environment is the type of that number. `many COUNT`, `scopes COUNT` and `nested DEPTH COUNT` bind many
    /// values.
    Scopes,
    /// `equality`: which types admit equality, by steps. `types COUNT` begins, `bar N` and `holds N M` say what stands
    /// against it; `choice` is those that do, and `count` how many. `chain COUNT` is types that each hold the next one,
    /// the last of them barred.
    Equality,
}

/// The kinds with their names.
const KINDS: [(&[u8], Kind); 2] = [(b"scopes", Kind::Scopes), (b"equality", Kind::Equality)];

/// The kind of a name.
pub fn kind_of(name: &[u8]) -> Option<Kind> {
    for (known, kind) in KINDS {
        if known == name {
            return Some(kind);
        }
    }
    None
}
