//! Cases of loading: a folder's files go in, and a project or its first refusal comes out.
#![tactic(auto)]

mod kind;
mod listing;
mod many_files;
mod project_calls;

use case_files::{Case, CaseFault, Kinds, Report, Wrong, run_cases};
use case_scenes::play;
use kind::{Kind, kind_of};
use project_calls::ProjectCalls;
use std::alloc::Global;
use std::process::ExitCode;

/// The kinds of cases of this program.
struct LoaderKinds;

impl Kinds for LoaderKinds {
    fn try_case(&self, alloc: Global, case: &Case, report: &mut Report) -> Result<(), CaseFault> {
        match kind_of(case.kind.as_bytes()) {
            Some(Kind::Project) => play(alloc, ProjectCalls::new(alloc)?, case, report),
            None => Err(CaseFault::Wrong(case.line, Wrong::Kind)),
        }
    }
}

fn main(rt: HostRuntime) -> ExitCode {
    ExitCode::from(run_cases(&rt, &LoaderKinds))
}
