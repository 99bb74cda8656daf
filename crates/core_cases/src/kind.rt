//! The kinds of cases, by the names that stand behind `@`.

/// What a case is a case of. `briefly` puts `ok` in the place of a type or of values.
#[derive(Clone, Copy)]
pub enum Kind {
    /// `expression-type`: the type of an expression in the initial basis, closed over all its variables, or what it is
    /// refused for.
    ExpressionType,
    /// `declared-values`: the values of declarations in the initial basis, of any kind but structures, as `NAME : TYPE`
    /// with `; ` between them, in the byte order of their names, or `nothing`, or what they are refused for. Behind a type
    /// that isn't closed over all its variables stands `, open`. The declarations are those of a structure, from the
    /// second line of the source on.
    DeclaredValues,
}

/// The kinds with their names.
const KINDS: [(&[u8], Kind); 2] = [
    (b"expression-type", Kind::ExpressionType),
    (b"declared-values", Kind::DeclaredValues),
];

/// The kind of a name.
pub fn kind_of(name: &[u8]) -> Option<Kind> {
    for (known, kind) in KINDS {
        if known == name {
            return Some(kind);
        }
    }
    None
}
