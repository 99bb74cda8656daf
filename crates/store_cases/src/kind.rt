//! The kinds of cases, by the names that stand behind `@`.

/// What a case is a case of.
#[derive(Clone, Copy)]
pub enum Kind {
    /// Paths of the store.
    Path(PathKind),
    /// `linked`: the bytes of the program that units make.
    Link,
    /// `linked-chain`: how many units are read of the program that so many make.
    Chain,
    /// `binfile`: the bytes of a binfile.
    Binfile,
    /// Bytes that are read in a format.
    Read(ReadKind, Format),
    /// `store`: what is put into a store, and found there.
    Store,
}

/// What has a path in the store.
#[derive(Clone, Copy)]
pub enum PathKind {
    /// `bin-path`: the path of a unit's binfile.
    Unit,
    /// `interface-path`: the path of an interface.
    Interface,
}

/// A format of files.
#[derive(Clone, Copy)]
pub enum Format {
    /// A binfile.
    Binfile,
    /// A linked program.
    Linked,
}

/// Which bytes are read.
#[derive(Clone, Copy)]
pub enum ReadKind {
    /// All of them, and what they are read as is shown.
    Whole,
    /// Each proper front.
    Fronts,
    /// All of them, with each single byte changed.
    Changes,
}

/// The kinds with their names.
const KINDS: [(&[u8], Kind); 12] = [
    (b"bin-path", Kind::Path(PathKind::Unit)),
    (b"interface-path", Kind::Path(PathKind::Interface)),
    (b"linked", Kind::Link),
    (b"linked-chain", Kind::Chain),
    (b"read-linked", Kind::Read(ReadKind::Whole, Format::Linked)),
    (
        b"linked-fronts",
        Kind::Read(ReadKind::Fronts, Format::Linked),
    ),
    (
        b"linked-changes",
        Kind::Read(ReadKind::Changes, Format::Linked),
    ),
    (b"binfile", Kind::Binfile),
    (
        b"read-binfile",
        Kind::Read(ReadKind::Whole, Format::Binfile),
    ),
    (
        b"binfile-fronts",
        Kind::Read(ReadKind::Fronts, Format::Binfile),
    ),
    (
        b"binfile-changes",
        Kind::Read(ReadKind::Changes, Format::Binfile),
    ),
    (b"store", Kind::Store),
];

/// The kind of a name.
pub fn kind_of(name: &[u8]) -> Option<Kind> {
    for (known, kind) in KINDS {
        if known == name {
            return Some(kind);
        }
    }
    None
}
