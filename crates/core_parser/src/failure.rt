//! Why a cursor has failed.

ghost use Rattle.std.specs.Prelude.{◌≡◌, IfOk};
ghost use Rattle.std.specs.Option.{option_copied};
ghost use Rattle.core_parser.specs.Cursors.{fault_of, failure_of, refused, refused_before, refused_at, IsFault};

use cm_base::{Diag, Fault, List, NoMemory, Place, Text};
use phrase_reading::stop::Stop;
use sml_lexer::Lexeme;
use std::alloc::Global;

/// Why a cursor has failed.
#[derive(Clone, Copy, Debug)]
pub enum Failure {
    /// No phrase goes on at this place, which is 20 there.
    Refused { line: u32, col: u32 },
    /// A phrase nests too deep, which is 12 on the file.
    TooDeep,
    NoMemory,
}

/// The refusal at a lexeme, or on the file where there is none.
fn refused_at(lexeme: Option<&Lexeme>) -> Failure
    ensures { result ≡ refused_at (option_copied lexeme.entry) }
{
    match lexeme {
        Some(found) => Failure::Refused {
            line: found.line,
            col: found.col,
        },
        None => Failure::Refused { line: 0, col: 0 },
    }
}

/// The refusal before these lexemes: at the first of them, or else at the last of all.
fn refused_before(all: &[Lexeme], left: &[Lexeme]) -> Failure
    ensures { result ≡ refused_before all.now left.now }
{
    match left {
        [first, ..] => Failure::Refused {
            line: first.line,
            col: first.col,
        },
        [] => refused_at(all.last()),
    }
}

/// Why a cursor fails where reading stops before these lexemes.
pub fn failure_of(all: &[Lexeme], stop: Stop, left: &[Lexeme]) -> Failure
    ensures { result ≡ failure_of all.now stop left.now }
{
    match stop {
        Stop::Refused => refused_before(all, left),
        Stop::TooDeep => Failure::TooDeep,
        Stop::NoMemory => Failure::NoMemory,
    }
}

/// A refusal at a place.
fn refusal(alloc: Global, file: &Text, line: u32, col: u32) -> Result<Diag, NoMemory>
    ensures { IfOk result (λ diag. diag ≡ refused file.now line col) }
{
    Ok(Diag {
        number: 20,
        at: Place {
            file: file.copy()?,
            line,
            col,
        },
        names: List::new(alloc),
    })
}

/// What a cursor of this file answers that has failed so.
pub fn fault_of(alloc: Global, file: &Text, failure: Failure) -> Fault
    ensures { IsFault (fault_of file.now failure) result }
{
    let made = match failure {
        Failure::Refused { line, col } => refusal(alloc, file, line, col),
        Failure::TooDeep => Diag::on_file(alloc, 12, file),
        Failure::NoMemory => Err(NoMemory),
    };
    match made {
        Ok(diag) => Fault::Diag(diag),
        Err(NoMemory) => Fault::NoMemory,
    }
}
