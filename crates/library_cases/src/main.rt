//! Cases of the libraries that texts, folders and bytes go through: each kind of cases calls one, and compares what
//! it answers.
#![tactic(auto)]

mod base;
mod conditions;
mod fields;
mod folders;
mod hashes;
mod kind;
mod lexing;
mod plans;
mod scenes;
mod selecting;
mod sinks;
mod texts;
mod toy_sums;

use case_files::{Case, CaseFault, Kinds, Report, Wrong, run_cases};
use kind::{Kind, kind_of};
use std::alloc::Global;
use std::process::ExitCode;

/// The kinds of cases of this program.
struct LibraryKinds;

impl Kinds for LibraryKinds {
    fn try_case(&self, alloc: Global, case: &Case, report: &mut Report) -> Result<(), CaseFault> {
        match kind_of(case.kind.as_bytes()) {
            Some(Kind::Text(kind)) => texts::try_kind(alloc, kind, case, report),
            Some(Kind::Scene(kind)) => scenes::try_kind(alloc, kind, case, report),
            None => Err(CaseFault::Wrong(case.line, Wrong::Kind)),
        }
    }
}

fn main(rt: HostRuntime) -> ExitCode {
    ExitCode::from(run_cases(&rt, &LibraryKinds))
}
