//! Reading the words of a command line.

ghost use Rattle.std.specs.Prelude.{◌≡◌, IfOk};
ghost use Rattle.command_words.specs.Words.{command_of, of_verb, with_arguments};

use crate::arguments::{Arguments, read_arguments};
use crate::command::{Command, Verb, takes_definitions, verb_of, with_operands};
use crate::definitions::are_defined_once;
use cm_base::{NoMemory, Text};
use std::alloc::Global;

/// The command of these arguments, where no name is defined twice.
fn with_arguments(alloc: Global, verb: Verb, found: Arguments) -> Result<Option<Command>, NoMemory>
    ensures { IfOk result (λ command. command ≡ with_arguments verb found) }
{
    if !are_defined_once(alloc, found.defs.as_slice())? {
        return Ok(None);
    }
    Ok(with_operands(verb, found.defs, found.operands))
}

/// The command that the words behind a verb mean.
fn of_verb(alloc: Global, words: &[Text], verb: Verb) -> Result<Option<Command>, NoMemory>
    ensures { IfOk result (λ command. command ≡ of_verb words.now verb) }
{
    match read_arguments(alloc, takes_definitions(verb), words)? {
        Some(found) => with_arguments(alloc, verb, found),
        None => Ok(None),
    }
}

/// The command that the words mean; none for a list of words that means no command, and for the words of a session.
pub fn read_words(alloc: Global, words: &[Text]) -> Result<Option<Command>, NoMemory>
    ensures { IfOk result (λ command. command ≡ command_of words.now) }
{
    let Some((word, words)) = words.split_first() else {
        return Ok(None);
    };
    match verb_of(word.as_bytes()) {
        Some(verb) => of_verb(alloc, words, verb),
        None => Ok(None),
    }
}
