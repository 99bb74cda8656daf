//! Cases of tools: each kind of cases calls one, and compares what it answers.
#![tactic(auto)]

mod kind;
mod made;
mod scene;

use case_files::{Case, CaseFault, Kinds, Report, Wrong, run_cases};
use case_texts::try_texts;
use kind::{Kind, kind_of};
use std::alloc::Global;
use std::process::ExitCode;

/// The kinds of cases of this program.
struct ToolKinds;

impl Kinds for ToolKinds {
    fn try_case(&self, alloc: Global, case: &Case, report: &mut Report) -> Result<(), CaseFault> {
        match kind_of(case.kind.as_bytes()) {
            Some(Kind::Made(kind)) => try_texts(alloc, &kind, (b"", b""), case, report),
            Some(Kind::Derive) => scene::try_derive(alloc, case, report),
            None => Err(CaseFault::Wrong(case.line, Wrong::Kind)),
        }
    }
}

fn main(rt: HostRuntime) -> ExitCode {
    ExitCode::from(run_cases(&rt, &ToolKinds))
}
