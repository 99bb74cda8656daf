//! A whole source: its lexemes in order, each with its place, or the first diagnostic.

ghost use Rattle.std.specs.Prelude.{◌≡◌, ◌≤◌, IfOk, length};
ghost use Rattle.cm_base.specs.Calls.{Gives};
ghost use Rattle.sml_lexer.specs.Fronts.{front};
ghost use Rattle.sml_lexer.specs.Lexing as spec;
ghost use Rattle.sml_lexer.specs.Lexing.{TakesFront};

use crate::front::{Front, at_front};
use crate::lexeme::Lexeme;
use crate::place::{Point, after_bytes};
use cm_base::{Diag, Fault, List, NoMemory, Place, Text};
use std::alloc::Global;

/// The greatest size of a source, in bytes.
const MAX_SOURCE: usize = 1_048_576;

/// The diagnostic of a number at a place.
fn refusal(alloc: Global, file: &Text, at: Point, number: u8) -> Result<Diag, NoMemory>
    ensures { IfOk result (λ diag. diag ≡ spec.refusal file.now at number) }
{
    if number == 12 {
        return Diag::on_file(alloc, 12, file);
    }
    let place = Place {
        file: file.copy()?,
        line: at.line,
        col: at.col,
    };
    Ok(Diag {
        number,
        at: place,
        names: List::new(alloc),
    })
}

/// Takes what stands at the front of a text: adds it to the lexemes where it is one, and gives its length.
fn take_front(
    alloc: Global,
    lexemes: &mut List<Lexeme>,
    file: &Text,
    at: Point,
    text: &[u8],
) -> Result<usize, Fault>
    requires { 1 ≤ length text.now }
    ensures front { TakesFront result lexemes.old lexemes.new file.now at (front text.now) }
    ensures within { IfOk result (λ len. (1 ≤ len) × (len ≤ length text.now)) }
{
    match at_front(alloc, text)? {
        Front::Gap(len) => Ok(len),
        Front::Lexeme(kind, len) => {
            lexemes.add(Lexeme {
                kind,
                line: at.line,
                col: at.col,
            })?;
            Ok(len)
        }
        Front::Refused(number) => Err(Fault::Diag(refusal(alloc, file, at, number)?)),
    }
}

/// The lexemes of a text.
fn lexemes_of(alloc: Global, file: &Text, text: &[u8]) -> Result<List<Lexeme>, Fault>
    requires { length text.now ≤ 1048576 }
    ensures { Gives result (spec.lexemes_after file.now 0 (record { line = 1; col = 1 }) text.now) }
{
    let mut lexemes = List::new(alloc);
    let mut at = Point { line: 1, col: 1 };
    let mut rest = text;
    while !rest.is_empty() {
        let len = take_front(alloc, &mut lexemes, file, at, rest)?;
        let (taken, after) = rest.split_at(len);
        at = after_bytes(at, taken);
        rest = after;
    }
    Ok(lexemes)
}

/// The lexemes of a source, in order, each with the line and column of its first byte. It refuses with 12 a source
/// of more than 1,048,576 bytes and a part of an identifier of more than 255, both on the whole file; with 39 an
/// integer constant outside 64 bits; and with 20, at its first byte, anything that is no lexeme, separator or
/// comment, among them open comments, bad strings, and real and word constants. The first of these is the answer.
#[tactic(auto, unfolding(crate::specs::Lexing::lexemes_of))]
pub fn lex(alloc: Global, file: &Text, source: &Text) -> Result<List<Lexeme>, Fault>
    ensures { Gives result (spec.lexemes_of file.now source.now) }
{
    let text = source.as_bytes();
    if text.len() > MAX_SOURCE {
        return Err(Fault::Diag(Diag::on_file(alloc, 12, file)?));
    }
    lexemes_of(alloc, file, text)
}
