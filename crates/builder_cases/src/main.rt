//! Cases of the builder: units that a case names, edits of them, and builds over a store in memory.
#![tactic(auto)]

mod builds;
mod kind;
mod ordering;
mod units;

use builds::Builds;
use case_files::{Case, CaseFault, Kinds, Report, Wrong, run_cases};
use case_scenes::play;
use kind::{Kind, kind_of};
use std::alloc::Global;
use std::process::ExitCode;

/// The kinds of cases of this program.
#[derive(Drop)]
struct BuilderKinds;

impl Kinds for BuilderKinds {
    fn try_case(&self, alloc: Global, case: &Case, report: &mut Report) -> Result<(), CaseFault> {
        match kind_of(case.kind.as_bytes()) {
            Some(Kind::Builds) => play(alloc, Builds::new(alloc), case, report),
            None => Err(CaseFault::Wrong(case.line, Wrong::Kind)),
        }
    }
}

fn main(rt: HostRuntime) -> ExitCode {
    ExitCode::from(run_cases(&rt, &BuilderKinds))
}
