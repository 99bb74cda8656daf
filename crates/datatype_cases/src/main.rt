//! Cases of datatypes, exceptions and types: what declarations of them bind, or what they are refused for.
#![tactic(auto)]

mod chain;
mod kind;
mod printing;
mod scene;

use asked_phrases::{AsksDeclarations, declarations_answer};
use case_files::{Case, CaseFault, Kinds, Report, Wrong, run_cases};
use case_texts::{Answers, refusal, try_texts};
use chain::chain;
use cm_base::{Fault, NoMemory, Text};
use kind::{Kind, kind_of};
use printing::{counts_of, lines_of, names_line};
use scene::{Bound, begin, elaborate};
use sml_modules::EnvGraph;
use sml_trees::Dec;
use sml_types::TypeTable;
use std::alloc::Global;
use std::process::ExitCode;

/// The kinds of cases of this program.
struct DatatypeKinds;

/// What a case asks, and the line in which it begins.
#[derive(Clone, Copy)]
struct Asked {
    kind: Kind,
    line: u32,
}

/// What the declarations of a sequence bind. `None` where one is of another kind.
fn bound_in(
    alloc: Global,
    g: &mut EnvGraph,
    t: &mut TypeTable,
    dec: &Dec,
) -> Result<Option<Bound>, Fault> {
    let before = begin(alloc, g)?;
    match dec {
        Dec::Sequence(decs, _) => elaborate(alloc, g, t, before, decs.as_slice()),
        _ => Ok(None),
    }
}

/// What is printed of what declarations bind.
fn printed(alloc: Global, kind: Kind, g: &EnvGraph, bound: Bound) -> Result<Vec<u8>, NoMemory> {
    match kind {
        Kind::Counted | Kind::Chain => counts_of(alloc, g, bound.own),
        Kind::Elaborated | Kind::MadeNames => lines_of(alloc, g, bound.own),
    }
}

/// What is answered of how declarations ended.
fn answered(
    alloc: Global,
    asked: Asked,
    g: &EnvGraph,
    bound: Result<Option<Bound>, Fault>,
) -> Result<Vec<u8>, CaseFault> {
    match bound {
        Ok(Some(bound)) => Ok(printed(alloc, asked.kind, g, bound)?),
        Ok(None) => Err(CaseFault::Wrong(asked.line, Wrong::Words)),
        Err(fault) => Ok(refusal(alloc, &fault)?),
    }
}

/// What is answered of declarations in an empty graph and an empty table.
fn answer_in(
    alloc: Global,
    asked: Asked,
    g: &mut EnvGraph,
    t: &mut TypeTable,
    dec: &Dec,
) -> Result<Vec<u8>, CaseFault> {
    let bound = bound_in(alloc, g, t, dec);
    match asked.kind {
        Kind::MadeNames => Ok(names_line(alloc, g)?),
        _ => answered(alloc, asked, g, bound),
    }
}

impl AsksDeclarations for Asked {
    fn of_declarations(&self, alloc: Global, dec: &Dec) -> Result<Vec<u8>, CaseFault> {
        let mut table = TypeTable::new(alloc)?;
        let mut graph = EnvGraph::new(alloc)?;
        answer_in(alloc, *self, &mut graph, &mut table, dec)
    }
}

impl Answers for Kind {
    fn answer(&self, alloc: Global, case: &Case, text: &Text) -> Result<Vec<u8>, CaseFault> {
        let line = case.line;
        let asked = Asked { kind: *self, line };
        match *self {
            Kind::Chain => match chain(alloc, text.as_bytes())? {
                Some(decs) => declarations_answer(alloc, &asked, line, decs.as_slice()),
                None => Err(CaseFault::Wrong(line, Wrong::Words)),
            },
            _ => declarations_answer(alloc, &asked, line, text.as_bytes()),
        }
    }
}

impl Kinds for DatatypeKinds {
    fn try_case(&self, alloc: Global, case: &Case, report: &mut Report) -> Result<(), CaseFault> {
        match kind_of(case.kind.as_bytes()) {
            Some(kind) => try_texts(alloc, &kind, (b"", b""), case, report),
            None => Err(CaseFault::Wrong(case.line, Wrong::Kind)),
        }
    }
}

fn main(rt: HostRuntime) -> ExitCode {
    ExitCode::from(run_cases(&rt, &DatatypeKinds))
}
