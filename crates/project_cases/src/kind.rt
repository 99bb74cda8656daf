//! The kinds of cases, by the names that stand behind `@`.

/// A kind of cases of texts.
#[derive(Clone, Copy)]
pub enum TextKind {
    /// `description`: the lines of a description with their places.
    Description,
    /// `printed`: a description as it is printed.
    Printed,
    /// `pathconfig`: whether a pathconfig is good.
    Pathconfig,
    /// `resolve`: the name of the file that a path in a description means.
    Resolve,
    /// `lie`: where in the folder a name lies.
    Lie,
    /// `order`: the order of units, or a cycle.
    Order,
    /// `large-order`: the same for thousands of units, which are made by a rule.
    LargeOrder,
    /// `ask`: the skeletons that are asked for.
    Ask,
}

/// The kinds with their names.
const KINDS: [(&[u8], TextKind); 8] = [
    (b"description", TextKind::Description),
    (b"printed", TextKind::Printed),
    (b"pathconfig", TextKind::Pathconfig),
    (b"resolve", TextKind::Resolve),
    (b"lie", TextKind::Lie),
    (b"order", TextKind::Order),
    (b"large-order", TextKind::LargeOrder),
    (b"ask", TextKind::Ask),
];

/// The kind of a name.
pub fn kind_of(name: &[u8]) -> Option<TextKind> {
    for (known, kind) in KINDS {
        if known == name {
            return Some(kind);
        }
    }
    None
}
