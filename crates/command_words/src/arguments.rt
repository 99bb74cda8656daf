//! The words behind a command.

ghost use Rattle.std.specs.Prelude.{◌≡◌, ◌&&◌, ℕ, true, false, List, ◌∷◌, IfOk};
ghost use Rattle.command_words.specs.Reading.{going_on, joined};
ghost use Rattle.command_words.specs.Words.{arguments, arguments_from, begins_with_dash, is_definition_mark};

use crate::definitions::definition_of;
use cm_base::{Def, List, NoMemory, Text};
use std::alloc::Global;

/// The definitions and the operands of a command, each in the order of the words.
#[derive(Debug, Drop)]
pub struct Arguments {
    pub defs: List<Def>,
    pub operands: List<Text>,
}

/// Whether a word begins with `-`.
fn begins_with_dash(word: &[u8]) -> bool
    ensures { result ≡ begins_with_dash word.now }
{
    match word.first() {
        Some(byte) => *byte == b'-',
        None => false,
    }
}

/// Whether a word is `-D`.
#[tactic(auto, unfolding(crate::specs::Words::is_definition_mark))]
fn is_definition_mark(word: &[u8]) -> bool
    ensures { result ≡ is_definition_mark word.now }
{
    word == b"-D".as_slice()
}

/// Whether a word says that a definition comes, of a command that takes some.
fn marks_definition(takes: bool, word: &[u8]) -> bool
    ensures { result ≡ (takes && is_definition_mark word.now) }
{
    takes && is_definition_mark(word)
}

/// Reads a word where a definition is due. It answers whether one is due then, or nothing for a word that is none.
fn read_definition(
    alloc: Global,
    takes: bool,
    word: &[u8],
    found: &mut Arguments,
) -> Result<Option<bool>, NoMemory>
    ensures { IfOk result (λ next. (more : List (List ℕ)) →
        joined found.old (arguments_from takes true (word.now ∷ more)) ≡ going_on takes found.new next more) }
{
    match definition_of(alloc, word)? {
        Some(def) => {
            found.defs.add(def)?;
            Ok(Some(false))
        }
        None => Ok(None),
    }
}

/// Reads a word where none is due: an operand, or `-D` where the command takes definitions.
fn read_operand(
    alloc: Global,
    takes: bool,
    word: &[u8],
    found: &mut Arguments,
) -> Result<Option<bool>, NoMemory>
    ensures { IfOk result (λ next. (more : List (List ℕ)) →
        joined found.old (arguments_from takes false (word.now ∷ more)) ≡ going_on takes found.new next more) }
{
    if marks_definition(takes, word) {
        return Ok(Some(true));
    }
    if begins_with_dash(word) {
        return Ok(None);
    }
    found.operands.add(Text::from_bytes(alloc, word)?)?;
    Ok(Some(false))
}

/// Reads a word, where a definition is due or not.
fn read_word(
    alloc: Global,
    takes: bool,
    due: bool,
    word: &[u8],
    found: &mut Arguments,
) -> Result<Option<bool>, NoMemory>
    ensures { IfOk result (λ next. (more : List (List ℕ)) →
        joined found.old (arguments_from takes due (word.now ∷ more)) ≡ going_on takes found.new next more) }
{
    if due {
        read_definition(alloc, takes, word, found)
    } else {
        read_operand(alloc, takes, word, found)
    }
}

/// The arguments that words are; none where one of them means nothing.
pub fn read_arguments(
    alloc: Global,
    takes: bool,
    words: &[Text],
) -> Result<Option<Arguments>, NoMemory>
    ensures { IfOk result (λ found. found ≡ arguments takes words.now) }
{
    let mut found = Arguments {
        defs: List::new(alloc),
        operands: List::new(alloc),
    };
    let mut due = false;
    for word in words {
        match read_word(alloc, takes, due, word.as_bytes(), &mut found)? {
            Some(next) => due = next,
            None => return Ok(None),
        }
    }
    if due {
        return Ok(None);
    }
    Ok(Some(found))
}
