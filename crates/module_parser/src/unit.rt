//! A whole unit, from its text.

ghost use Rattle.std.specs.Prelude.{◌≡◌, None, Some, IfOk};
ghost use Rattle.std.specs.Option.{option_copied};
ghost use Rattle.phrase_reading.specs.Refusals.{refusal};
ghost use Rattle.phrase_reading.specs.Reads.{Reads};
ghost use Rattle.module_parser.specs.Answers.{AnswersUnit, AnswersLexemes, refused, StopsWith};
ghost use Rattle.module_parser.specs.Units.{topdecs, top_refusal};

use crate::topdecs::topdecs;
use cm_base::{Diag, Fault, List, NoMemory, Place, Text};
use expression_parts::exp_starts::starts_dec_word;
use phrase_reading::lexeme;
use phrase_reading::lexemes::Lexemes;
use phrase_reading::stop::Stop;
use sml_lexer::{Lexeme, lex};
use sml_trees::FullUnit;
use std::alloc::Global;

/// The number of a declaration of the core at the top level.
const CORE_AT_TOP: u8 = 21;

/// A refusal at a lexeme, or on the file where there is none.
fn refused(
    alloc: Global,
    file: &Text,
    number: u8,
    lexeme: Option<&Lexeme>,
) -> Result<Diag, NoMemory>
    ensures { IfOk result (λ diag. diag ≡ refused file.now number (option_copied lexeme.entry)) }
{
    let (line, col) = match lexeme {
        Some(found) => (found.line, found.col),
        None => (0, 0),
    };
    Ok(Diag {
        number,
        at: Place {
            file: file.copy()?,
            line,
            col,
        },
        names: List::new(alloc),
    })
}

/// The refusal before these lexemes of all: at the first of them, or at the last of all where none is left.
fn refusal(alloc: Global, file: &Text, all: &[Lexeme], left: &[Lexeme]) -> Result<Diag, NoMemory>
    ensures { IfOk result (λ diag. diag ≡ refusal file.now all.now left.now) }
{
    match left {
        [first, ..] => refused(alloc, file, 20, Some(first)),
        [] => refused(alloc, file, 20, all.last()),
    }
}

/// What is refused behind a whole unit: 21 where a declaration of the core begins there, and else 20.
fn top_refusal(alloc: Global, file: &Text, next: &Lexeme) -> Result<Diag, NoMemory>
    ensures { IfOk result (λ diag. diag ≡ top_refusal file.now next.now) }
{
    let number = if starts_dec_word(lexeme::word(next)) {
        CORE_AT_TOP
    } else {
        20
    };
    refused(alloc, file, number, Some(next))
}

/// The fault of a reading that stopped before these lexemes of all.
fn fault_of(alloc: Global, file: &Text, stop: Stop, all: &[Lexeme], left: &[Lexeme]) -> Fault
    ensures { StopsWith file.now stop all.now left.now result }
{
    let made = match stop {
        Stop::Refused => refusal(alloc, file, all, left),
        Stop::TooDeep => Diag::on_file(alloc, 12, file),
        Stop::NoMemory => Err(NoMemory),
    };
    match made {
        Ok(diag) => Fault::Diag(diag),
        Err(NoMemory) => Fault::NoMemory,
    }
}

/// The unit that these lexemes are.
fn unit_of(alloc: Global, file: &Text, all: &[Lexeme]) -> Result<FullUnit, Fault>
    ensures { AnswersLexemes file.now all.now result }
{
    let mut lexemes = Lexemes { rest: all };
    let made = match topdecs(alloc, &mut lexemes) {
        Ok(made) => made,
        Err(stop) => return Err(fault_of(alloc, file, stop, all, lexemes.rest)),
    };
    match lexemes.peek() {
        Some(next) => Err(Fault::Diag(top_refusal(alloc, file, next)?)),
        None => Ok(FullUnit {
            file: file.copy()?,
            topdecs: made.tree,
        }),
    }
}

/// Reads a source as a unit. It refuses with the first of these that there is: 12 for a source of more than 1,048,576
/// bytes; what `lex` refuses; then, by the lexeme at which it arises, 20 at the first lexeme with which no unit goes on,
/// or at the last one where the text ends and a unit doesn't; 21 in its place where that lexeme begins a declaration of
/// the core behind a whole unit; and 12 on the file where the lexeme before it opens more than 128 levels.
pub fn parse_unit(alloc: Global, file: &Text, source: &Text) -> Result<FullUnit, Fault>
    ensures { AnswersUnit file.now source.now result }
{
    let all = lex(alloc, file, source)?;
    unit_of(alloc, file, all.as_slice())
}
