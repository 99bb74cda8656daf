//! The kinds of cases, by the names that stand behind `@`.

/// What a case is a case of.
#[derive(Clone, Copy)]
pub enum Kind {
    /// `same`: whether two symbols are one, and where they are type names, their owners and names.
    Same,
    /// `equality`: whether types under a symbol admit equality.
    Equality,
    /// `make`: the tree that is made of a type, one symbol after another.
    Make,
    /// `part`: what a tree is, one level of it.
    Part,
    /// `copy`: the copy of a tree.
    Copy,
    /// `nodes`: the tree that nodes are.
    Nodes,
    /// `scheme`: the marks and the type of a scheme, and its parts.
    Scheme,
    /// `unify`: what stands for variables when two types are made one, or the first fault.
    Unify,
}

/// The kinds with their names.
const KINDS: [(&[u8], Kind); 8] = [
    (b"same", Kind::Same),
    (b"equality", Kind::Equality),
    (b"make", Kind::Make),
    (b"part", Kind::Part),
    (b"copy", Kind::Copy),
    (b"nodes", Kind::Nodes),
    (b"scheme", Kind::Scheme),
    (b"unify", Kind::Unify),
];

/// The kind of a name.
pub fn kind_of(name: &[u8]) -> Option<Kind> {
    for (known, kind) in KINDS {
        if known == name {
            return Some(kind);
        }
    }
    None
}
