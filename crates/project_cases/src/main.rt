//! Cases of the libraries that projects go through: each kind of cases calls one, and compares what it answers.
#![tactic(auto)]

mod asking;
mod descriptions;
mod graphs;
mod kind;
mod large_orders;
mod orders;
mod paths;
mod texts;

use case_files::{Case, CaseFault, Kinds, Report, Wrong, run_cases};
use kind::kind_of;
use std::alloc::Global;
use std::process::ExitCode;

/// The kinds of cases of this program.
struct ProjectKinds;

impl Kinds for ProjectKinds {
    fn try_case(&self, alloc: Global, case: &Case, report: &mut Report) -> Result<(), CaseFault> {
        match kind_of(case.kind.as_bytes()) {
            Some(kind) => texts::try_kind(alloc, kind, case, report),
            None => Err(CaseFault::Wrong(case.line, Wrong::Kind)),
        }
    }
}

fn main(rt: HostRuntime) -> ExitCode {
    ExitCode::from(run_cases(&rt, &ProjectKinds))
}
