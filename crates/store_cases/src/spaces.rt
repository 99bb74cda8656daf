//! Module names as words write them.

use cm_base::{ModName, Namespace, NoMemory, Text};

/// The name spaces by their words.
const SPACES: [(&[u8], Namespace); 4] = [
    (b"structure", Namespace::Structure),
    (b"signature", Namespace::Signature),
    (b"functor", Namespace::Functor),
    (b"funsig", Namespace::Funsig),
];

/// The name space of a word.
fn space_of(word: &[u8]) -> Option<Namespace> {
    for (known, space) in SPACES {
        if known == word {
            return Some(space);
        }
    }
    None
}

/// The module name of a word for its space and another for itself.
pub fn module_of(space: &Text, name: &Text) -> Result<Option<ModName>, NoMemory> {
    match space_of(space.as_bytes()) {
        Some(space) => Ok(Some(ModName {
            space,
            name: name.copy()?,
        })),
        None => Ok(None),
    }
}
