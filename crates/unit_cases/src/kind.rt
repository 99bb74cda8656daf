//! The kinds of cases, by the names that stand behind `@`, and the words of their options.

use case_files::{Case, CaseFault};
use cm_base::Options;
use std::alloc::Global;

/// What a case is a case of. A text is a whole unit over the initial basis and nothing else, behind the lines of the
/// section `before`, where there is one. It is refused with its first diagnostic.
#[derive(Clone, Copy)]
pub enum Kind {
    /// `defined`: what the unit defines, a line for each structure, signature, functor and signature of functors.
    Defined,
    /// `last`: what its last declaration defines, in the order in which it is written.
    Last,
    /// `accepted`: `ok`.
    Accepted,
    /// `interface`: the bytes of its interface in hex, as that of the unit `a.sml`. Those that it has as the unit `b.sml`
    /// are a second line, where they are others.
    Interface,
    /// `interface-size`: how many bytes its interface has, in the same way.
    InterfaceSize,
}

impl Kind {
    /// Whether interfaces are asked for.
    pub fn is_of_interfaces(self) -> bool {
        match self {
            Kind::Interface | Kind::InterfaceSize => true,
            Kind::Defined | Kind::Last | Kind::Accepted => false,
        }
    }
}

/// The kinds with their names.
const KINDS: [(&[u8], Kind); 5] = [
    (b"defined", Kind::Defined),
    (b"last", Kind::Last),
    (b"accepted", Kind::Accepted),
    (b"interface", Kind::Interface),
    (b"interface-size", Kind::InterfaceSize),
];

/// The kind of a name.
pub fn kind_of(name: &[u8]) -> Option<Kind> {
    for (known, kind) in KINDS {
        if known == name {
            return Some(kind);
        }
    }
    None
}

/// The options of a case: the words behind its `options`, `nobasis` and `opaque`.
pub fn options_of(alloc: Global, case: &Case) -> Result<Options, CaseFault> {
    let mut options = Options {
        nobasis: false,
        opaque: false,
    };
    if let Some(section) = case.find(b"options")? {
        for word in section.words(alloc)?.as_slice() {
            match word.as_bytes() {
                b"nobasis" => options.nobasis = true,
                b"opaque" => options.opaque = true,
                _ => return Err(section.means_nothing()),
            }
        }
    }
    Ok(options)
}
