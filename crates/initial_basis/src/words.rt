//! The words of a line, and rows of them.

ghost use Rattle.std.specs.Prelude.{◌≡◌, ◌≤◌, IfOk, length, map};
ghost use Rattle.std.specs.List.{before_first, after_first, position, position_or_len};
ghost use Rattle.std.specs.Str.{bytes_eq};
ghost use Rattle.initial_basis.specs.Phrases.{words_of, row_of, rows_of, is_colon};

use crate::row::Row;
use cm_base::{List, NoMemory, Text};
use std::alloc::Global;

/// Whether a word is this one.
pub(crate) fn is_word(word: &Text, other: &[u8]) -> bool
    ensures { result ≡ bytes_eq word.now other.now }
{
    word.as_bytes() == other
}

/// The words of a line, a blank between them.
fn words_of(alloc: Global, line: &[u8]) -> Result<List<Text>, NoMemory>
    ensures { IfOk result (λ words. words ≡ words_of line.now) }
{
    let mut words = List::new(alloc);
    for word in line.split(|byte| *byte == b' ') {
        words.add(Text::from_bytes(alloc, word)?)?;
    }
    Ok(words)
}

/// The same words, in a list of their own.
fn copy_words(alloc: Global, words: &[Text]) -> Result<List<Text>, NoMemory>
    ensures { IfOk result (λ copy. copy ≡ words.now) }
{
    let mut copy = List::new(alloc);
    for word in words {
        copy.add(word.copy()?)?;
    }
    Ok(copy)
}

/// A line as a row.
fn row_of(alloc: Global, line: &[u8]) -> Result<Row, NoMemory>
    ensures { IfOk result (λ row. row ≡ row_of line.now) }
{
    let words = words_of(alloc, line)?;
    let (names, is) = parts_at(words.as_slice(), b":");
    Ok(Row {
        names: copy_words(alloc, names)?,
        is: copy_words(alloc, is)?,
    })
}

/// The place of the first word that is this one.
fn first_place(words: &[Text], mark: &[u8]) -> Option<usize>
    ensures { result ≡ position (λ word. bytes_eq word mark.now) words.now }
{
    words.iter().position(|word| is_word(word, mark))
}

/// The place of the first word that is this one, or how many words there are.
#[tactic(auto, using(crate::proofs::Places::runs))]
fn place_of(words: &[Text], mark: &[u8]) -> usize
    ensures place { result ≡ position_or_len (λ word. bytes_eq word mark.now) words.now }
    ensures within { result ≤ length words.now }
{
    first_place(words, mark).unwrap_or(words.len())
}

/// What stands before the first word that is this one, and what stands behind it.
#[tactic(auto, using(crate::proofs::Places::nothing_behind))]
pub(crate) fn parts_at<'a>(words: &'a [Text], mark: &[u8]) -> (&'a [Text], &'a [Text])
    ensures before { result.0.now ≡ before_first (λ word. bytes_eq word mark.now) words.now }
    ensures behind { result.1.now ≡ after_first (λ word. bytes_eq word mark.now) words.now }
{
    let at = place_of(words, mark);
    if at < words.len() {
        (&words[..at], &words[at + 1..])
    } else {
        (&words[..at], &words[at..])
    }
}

/// The rows of lines.
pub(crate) fn rows_of(alloc: Global, lines: &[&[u8]]) -> Result<List<Row>, NoMemory>
    ensures { IfOk result (λ rows. rows ≡ rows_of (map (λ line. line.now) lines.now)) }
{
    let mut rows = List::new(alloc);
    for line in lines {
        rows.add(row_of(alloc, line)?)?;
    }
    Ok(rows)
}
