//! Calls of the program: a command by itself, a generated project, or a session.

ghost use Rattle.std.specs.Prelude.{◌≡◌, IfOk, map, string_bytes};
ghost use Rattle.std.specs.Option.{option_map};
ghost use Rattle.command_words.specs.declared.call.Call.TheVariants.{Single};
ghost use Rattle.command_words.specs.Words.{HasUnitCount, call_of, command_of, gen_of, gen_with, is_gen, is_session, session_of, session_with};

use crate::arguments::read_arguments;
use crate::command::Command;
use crate::unit_count::unit_count;
use crate::words::read_words;
use cm_base::{List, NoMemory, Text};
use std::alloc::Global;

/// What the words of a call of the program mean.
#[derive(Debug, Drop)]
pub enum Call {
    /// A command by itself.
    Single(Command),
    /// A project of so many units, from 1 to 2,000, is made and built.
    Gen { n: u32 },
    /// The edits and commands of the script FILE, one after the other.
    Session { file: Text },
}

/// Whether a word names a generated project.
#[tactic(auto, unfolding(crate::specs::Words::is_gen))]
fn is_gen(word: &[u8]) -> bool
    ensures { result ≡ is_gen word.now }
{
    word == b"gen".as_slice()
}

/// The project of these operands, where there is exactly one.
fn gen_with(operands: &[Text]) -> Option<Call>
    ensures { result ≡ gen_with operands.now }
{
    match operands {
        [word] => unit_count(word.as_bytes()).map(|n| Call::Gen { n }),
        _ => None,
    }
}

/// The project that the words behind `gen` mean.
fn gen_of(alloc: Global, words: &[Text]) -> Result<Option<Call>, NoMemory>
    ensures { IfOk result (λ call. call ≡ gen_of words.now) }
{
    let Some(found) = read_arguments(alloc, false, words)? else {
        return Ok(None);
    };
    Ok(gen_with(found.operands.as_slice()))
}

/// Whether a word names a session.
#[tactic(auto, unfolding(crate::specs::Words::is_session))]
fn is_session(word: &[u8]) -> bool
    ensures { result ≡ is_session word.now }
{
    word == b"session".as_slice()
}

/// The session of these operands, where there is exactly one.
fn session_with(operands: List<Text>) -> Option<Call>
    ensures { result ≡ session_with operands }
{
    let mut operands = operands;
    let file = operands.pop()?;
    operands.is_empty().then_some(Call::Session { file })
}

/// The session that the words behind `session` mean.
fn session_of(alloc: Global, words: &[Text]) -> Result<Option<Call>, NoMemory>
    ensures { IfOk result (λ call. call ≡ session_of words.now) }
{
    match read_arguments(alloc, false, words)? {
        Some(found) => Ok(session_with(found.operands)),
        None => Ok(None),
    }
}

/// The words of a call as texts.
fn texts_of(alloc: Global, words: &[String]) -> Result<List<Text>, NoMemory>
    ensures { IfOk result (λ texts. texts ≡ map string_bytes words.now) }
{
    let mut texts = List::new(alloc);
    for word in words {
        texts.add(Text::from_bytes(alloc, word.as_bytes())?)?;
    }
    Ok(texts)
}

/// What the words of a single command mean.
fn single_of(alloc: Global, words: &[Text]) -> Result<Option<Call>, NoMemory>
    ensures is { IfOk result (λ call. call ≡ option_map (λ command. Single command) (command_of words.now)) }
    ensures count { IfOk result HasUnitCount }
{
    match read_words(alloc, words)? {
        Some(command) => Ok(Some(Call::Single(command))),
        None => Ok(None),
    }
}

/// What the words of a call mean; none for a list of words that means nothing.
pub fn read_line(alloc: Global, words: &[Text]) -> Result<Option<Call>, NoMemory>
    ensures is { IfOk result (λ call. call ≡ call_of words.now) }
    ensures count { IfOk result HasUnitCount }
{
    let Some((first, rest)) = words.split_first() else {
        return Ok(None);
    };
    if is_session(first.as_bytes()) {
        session_of(alloc, rest)
    } else if is_gen(first.as_bytes()) {
        gen_of(alloc, rest)
    } else {
        single_of(alloc, words)
    }
}

/// What the words of a call of the program mean; none for a list of words that means nothing.
pub fn read_call(alloc: Global, words: &[String]) -> Result<Option<Call>, NoMemory>
    ensures is { IfOk result (λ call. call ≡ call_of (map string_bytes words.now)) }
    ensures count { IfOk result HasUnitCount }
{
    let texts = texts_of(alloc, words)?;
    read_line(alloc, texts.as_slice())
}
