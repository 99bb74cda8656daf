//! The kinds of cases, by their names.

/// A kind of cases.
#[derive(Clone, Copy)]
pub enum Kind {
    /// Commands over a folder in memory, with a compiler of letters.
    Letters,
    /// Commands over a folder in memory, with a compiler whose sources say what shows in their interface.
    Seamed,
    /// Commands over a folder in memory, with a compiler of capital letters in whose interfaces nothing shows.
    Quiet,
    /// Commands over a folder in memory, with a compiler of capital letters whose interfaces are its sources.
    Shown,
    /// Commands over a folder in memory, with the compiler of the program.
    Build,
    /// Calls of the folder and the output of the machine.
    Machine,
    /// The words that a program is called with.
    Call,
}

/// The kinds with their names.
const KINDS: [(&[u8], Kind); 7] = [
    (b"letters", Kind::Letters),
    (b"seamed", Kind::Seamed),
    (b"quiet", Kind::Quiet),
    (b"shown", Kind::Shown),
    (b"build", Kind::Build),
    (b"machine", Kind::Machine),
    (b"call", Kind::Call),
];

/// The kind of this name.
pub fn kind_of(name: &[u8]) -> Option<Kind> {
    for (known, kind) in KINDS {
        if known == name {
            return Some(kind);
        }
    }
    None
}
