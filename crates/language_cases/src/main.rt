//! Cases of the language: each kind of cases asks a library below the compiler, or the compiler, of a source or a
//! code, and compares what it answers.
#![tactic(auto)]

mod codes;
mod compiled;
mod cursors;
mod diagnostics;
mod fixities;
mod kind;
mod lexemes;
mod phrases;
mod skeleton;
mod table;
mod texts;
mod units;

use case_files::{Case, CaseFault, Kinds, Piece, Report, Section, Wrong, run_cases};
use kind::{Kind, kind_of, refuse_others};
use std::alloc::Global;
use std::process::ExitCode;
use table::row_of;
use texts::{text_of, varying};

/// The kinds of cases of this program.
struct LanguageKinds;

/// What is answered to a text.
fn answer_of(alloc: Global, kind: Kind, case: &Case, text: &[u8]) -> Result<Vec<u8>, CaseFault> {
    match kind {
        Kind::Lexemes => Ok(lexemes::in_a_line(alloc, text)?),
        Kind::LexemeCount => Ok(lexemes::count(alloc, text)?),
        Kind::LexemePlaces => Ok(lexemes::places(alloc, text)?),
        Kind::Type | Kind::Pattern | Kind::Expression | Kind::Declarations => {
            phrases::answer(alloc, kind, case, text)
        }
        Kind::TypeAt | Kind::PatternAt | Kind::ExpressionAt | Kind::DeclarationAt => {
            cursors::answer(alloc, kind, case, text)
        }
        Kind::Unit => units::written(alloc, case, text),
        Kind::Places => Ok(units::places(alloc, text)?),
        Kind::Bare => units::bare(alloc, case, text),
        Kind::Repeat => Ok(units::repeat(alloc, text)?),
        Kind::Height => Ok(units::height(alloc, text)?),
        Kind::SourceCode => Ok(codes::of_source(alloc, text)?),
        Kind::Code => codes::read(alloc, case, text),
        Kind::CodeFronts => Ok(codes::fronts(alloc, text)?),
        Kind::Skeleton => Ok(skeleton::answer(alloc, text)?),
        Kind::Compiled | Kind::Interface | Kind::CompiledCode => compiled::answer(
            alloc, kind, case, text,
        ),
    }
}

/// Compares what is answered to the one text of a case, and to the one with more of what is repeated.
fn try_whole(alloc: Global, kind: Kind, case: &Case, report: &mut Report) -> Result<(), CaseFault> {
    let gives = case.the(b"gives")?;
    try_text(alloc, kind, case, gives, 0, report)?;
    match case.find(b"more")? {
        Some(more) => try_text(alloc, kind, case, more, 1, report),
        None => Ok(()),
    }
}

/// Compares what is answered to the one text of a case, each part of which that is repeated stands so many times
/// more.
fn try_text(
    alloc: Global,
    kind: Kind,
    case: &Case,
    wanted: &Section,
    more: usize,
    report: &mut Report,
) -> Result<(), CaseFault> {
    let text = text_of(alloc, case, b"", more)?;
    let given = answer_of(alloc, kind, case, text.as_slice())?;
    let wanted_bytes = wanted.bytes(alloc)?;
    Ok(report.compare(
        case,
        wanted.line,
        b"this differs",
        wanted_bytes.as_bytes(),
        given.as_slice(),
    )?)
}

/// Compares what is answered to the text that a line is a part of.
fn try_line(
    alloc: Global,
    kind: Kind,
    case: &Case,
    line: &Piece,
    wanted: &[u8],
    report: &mut Report,
) -> Result<(), CaseFault> {
    let text = text_of(alloc, case, line.bytes.as_bytes(), 0)?;
    let given = answer_of(alloc, kind, case, text.as_slice())?;
    Ok(report.compare(
        case,
        line.line,
        b"this line differs",
        wanted,
        given.as_slice(),
    )?)
}

/// Tries each line of a section, all of which give the same.
fn try_each(
    alloc: Global,
    kind: Kind,
    case: &Case,
    each: &Section,
    report: &mut Report,
) -> Result<(), CaseFault> {
    let wanted = case.the(b"gives")?.bytes(alloc)?;
    for line in each.pieces.as_slice() {
        try_line(alloc, kind, case, line, wanted.as_bytes(), report)?;
    }
    Ok(())
}

/// Tries each row of a table.
fn try_table(
    alloc: Global,
    kind: Kind,
    case: &Case,
    table: &Section,
    report: &mut Report,
) -> Result<(), CaseFault> {
    for line in table.pieces.as_slice() {
        let row = row_of(alloc, line)?;
        try_line(alloc, kind, case, &row.text, row.wanted.as_bytes(), report)?;
    }
    Ok(())
}

/// Tries a case of a kind.
fn try_kind(alloc: Global, kind: Kind, case: &Case, report: &mut Report) -> Result<(), CaseFault> {
    refuse_others(kind, case)?;
    match varying(case)? {
        None => try_whole(alloc, kind, case, report),
        Some(section) if section.is_named(b"each") => try_each(alloc, kind, case, section, report),
        Some(section) => try_table(alloc, kind, case, section, report),
    }
}

impl Kinds for LanguageKinds {
    fn try_case(&self, alloc: Global, case: &Case, report: &mut Report) -> Result<(), CaseFault> {
        match kind_of(case.kind.as_bytes()) {
            Some(kind) => try_kind(alloc, kind, case, report),
            None => Err(CaseFault::Wrong(case.line, Wrong::Kind)),
        }
    }
}

fn main(rt: HostRuntime) -> ExitCode {
    ExitCode::from(run_cases(&rt, &LanguageKinds))
}
