//! The kinds of cases, by the names that stand behind `@`.

/// What a case is a case of. A text is the declarations of a structure in the initial basis, of datatypes, exceptions and
/// types, and of structures of these. It stands from the second line of its source on.
#[derive(Clone, Copy)]
pub enum Kind {
    /// `elaborated`: what the declarations bind, or what they are refused for: a line `type NAME` with an arity, a type,
    /// its number with `eq` where it admits equality, and the constructors behind; then a line `value NAME` with a status
    /// and a scheme.
    Elaborated,
    /// `made-names`: how many type names were made when the declarations ended, well or not.
    MadeNames,
    /// `counted`: how many types they bind, how many of these are type names that admit equality, and how many values.
    Counted,
    /// `chain`: the same of joined datatypes, of which each is an argument of the one before. A text is how many, and the
    /// type that the last one's argument has.
    Chain,
}

/// The kinds with their names.
const KINDS: [(&[u8], Kind); 4] = [
    (b"elaborated", Kind::Elaborated),
    (b"made-names", Kind::MadeNames),
    (b"counted", Kind::Counted),
    (b"chain", Kind::Chain),
];

/// The kind of a name.
pub fn kind_of(name: &[u8]) -> Option<Kind> {
    for (known, kind) in KINDS {
        if known == name {
            return Some(kind);
        }
    }
    None
}
