//! The kinds of cases, by the names that stand behind `@`.

/// What a case is a case of.
#[derive(Clone, Copy)]
pub enum Kind {
    /// `names`: what groups show and units import.
    Names,
    /// `order`: the order of units, or their cycle.
    Order,
    /// `compared`: projects made by a counter, and what a plain program finds of them.
    Compared,
}

/// The kinds with their names.
const KINDS: [(&[u8], Kind); 3] = [
    (b"names", Kind::Names),
    (b"order", Kind::Order),
    (b"compared", Kind::Compared),
];

/// The kind of a name.
pub fn kind_of(name: &[u8]) -> Option<Kind> {
    for (known, kind) in KINDS {
        if known == name {
            return Some(kind);
        }
    }
    None
}
