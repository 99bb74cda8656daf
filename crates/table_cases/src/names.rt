//! The type names of the initial basis, by their words.

use semantic_objects::{Owner, TyName};

/// The type names by their numbers: the word of each, how many arguments it takes, and whether it admits equality.
const BASIS: [(&[u8], u32, bool); 9] = [
    (b"int", 0, true),
    (b"bool", 0, true),
    (b"string", 0, true),
    (b"char", 0, true),
    (b"list", 1, true),
    (b"option", 1, true),
    (b"ref", 1, true),
    (b"exn", 0, false),
    (b"order", 0, true),
];

/// The type name of a word.
pub fn name_of(word: &[u8]) -> Option<TyName> {
    for number in 0..BASIS.len() {
        let (known, arity, eq) = BASIS[number];
        if known == word {
            return Some(TyName {
                owner: Owner::Basis,
                number: number as u64,
                arity,
                eq,
            });
        }
    }
    None
}
