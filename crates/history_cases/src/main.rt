//! Cases of long histories: lists of edits and commands that a counter makes, and what the next build makes of the
//! store that each of them leaves.
#![tactic(auto)]

mod afresh;
mod calls;
mod counter;
mod histories;
mod kind;
mod script;
mod sketch;
mod tally;

use case_files::{Case, CaseFault, Kinds, Report, Wrong, run_cases};
use case_scenes::play;
use histories::Histories;
use kind::{Kind, kind_of};
use std::alloc::Global;
use std::process::ExitCode;

/// The kinds of cases of this program.
#[derive(Drop)]
struct HistoryKinds;

impl Kinds for HistoryKinds {
    fn try_case(&self, alloc: Global, case: &Case, report: &mut Report) -> Result<(), CaseFault> {
        match kind_of(case.kind.as_bytes()) {
            Some(Kind::Histories) => play(alloc, Histories::new(alloc), case, report),
            None => Err(CaseFault::Wrong(case.line, Wrong::Kind)),
        }
    }
}

fn main(rt: HostRuntime) -> ExitCode {
    ExitCode::from(run_cases(&rt, &HistoryKinds))
}
