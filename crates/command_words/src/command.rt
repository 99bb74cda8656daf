//! Commands, and the table of the words that name them.

ghost use Rattle.std.specs.Prelude.{◌≡◌};
ghost use Rattle.command_words.specs.Words.{verb_of, takes_definitions, with_operands};

use cm_base::{Def, List, Text};

/// A command that the words mean.
#[derive(Debug, Drop)]
pub enum Command {
    /// Builds the project that a description leads to.
    Build {
        defs: List<Def>,
        root: Text,
    },
    /// Builds it, and writes the linked program to the path OUT too.
    Link {
        defs: List<Def>,
        root: Text,
        out: Text,
    },
}

/// A command as its first word names it.
#[derive(Clone, Copy, Debug, PartialEq, Eq)]
pub enum Verb {
    Build,
    Link,
}

/// The command that a word names.
#[tactic(auto, unfolding(crate::specs::Words::verb_of))]
pub fn verb_of(word: &[u8]) -> Option<Verb>
    ensures { result ≡ verb_of word.now }
{
    if word == b"build".as_slice() {
        Some(Verb::Build)
    } else if word == b"link".as_slice() {
        Some(Verb::Link)
    } else {
        None
    }
}

/// Whether a command takes definitions.
pub fn takes_definitions(verb: Verb) -> bool
    ensures { result ≡ takes_definitions verb }
{
    match verb {
        Verb::Build | Verb::Link => true,
    }
}

/// The command of these operands, where it has exactly so many.
pub fn with_operands(verb: Verb, defs: List<Def>, operands: List<Text>) -> Option<Command>
    ensures { result ≡ with_operands verb defs operands }
{
    let mut operands = operands;
    match verb {
        Verb::Build => {
            let root = operands.pop()?;
            operands.is_empty().then_some(Command::Build { defs, root })
        }
        Verb::Link => {
            let out = operands.pop()?;
            let root = operands.pop()?;
            operands
                .is_empty()
                .then_some(Command::Link { defs, root, out })
        }
    }
}
