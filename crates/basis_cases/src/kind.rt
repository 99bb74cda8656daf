//! The kinds of cases, by the names that stand behind `@`.

/// What a case is a case of.
#[derive(Clone, Copy)]
pub enum Kind {
    /// `basis`: the initial basis, by steps. `basis` and `basis nobasis` make it, in the graph that is there. `values`,
    /// `types` and `structures` are the names of its tables, and `signatures`, `functors` and `funsigs` those of its
    /// top. `value NAME` is a status and a scheme; `values STRUCTURE`, `types STRUCTURE`, `structures STRUCTURE` and
    /// `value STRUCTURE NAME` are of a built-in structure. `type NAME` is an arity, a type, its number with `eq` where
    /// it admits equality, and the constructors behind.
    Basis,
}

/// The kinds with their names.
const KINDS: [(&[u8], Kind); 1] = [(b"basis", Kind::Basis)];

/// The kind of a name.
pub fn kind_of(name: &[u8]) -> Option<Kind> {
    for (known, kind) in KINDS {
        if known == name {
            return Some(kind);
        }
    }
    None
}
