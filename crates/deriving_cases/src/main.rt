//! Cases of loading with tools: a folder's files and a box of tools go in; the project or its first refusal, the
//! records and the runs come out.
#![tactic(auto)]

mod calls;
mod kind;
mod shown;
mod tools;

use calls::DerivingCalls;
use case_files::{Case, CaseFault, Kinds, Report, Wrong, run_cases};
use case_scenes::play;
use kind::{Kind, kind_of};
use std::alloc::Global;
use std::process::ExitCode;

/// The kinds of cases of this program.
struct DerivingKinds;

impl Kinds for DerivingKinds {
    fn try_case(&self, alloc: Global, case: &Case, report: &mut Report) -> Result<(), CaseFault> {
        match kind_of(case.kind.as_bytes()) {
            Some(Kind::Deriving) => play(alloc, DerivingCalls::new(alloc)?, case, report),
            None => Err(CaseFault::Wrong(case.line, Wrong::Kind)),
        }
    }
}

fn main(rt: HostRuntime) -> ExitCode {
    ExitCode::from(run_cases(&rt, &DerivingKinds))
}
