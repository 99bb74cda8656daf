//! Cases of the initial basis: what stands in it under each name.
#![tactic(auto)]

mod kind;
mod scene;

use case_files::{Case, CaseFault, Kinds, Report, Wrong, run_cases};
use case_texts::take_steps;
use kind::{Kind, kind_of};
use scene::BasisScene;
use sml_modules::EnvGraph;
use std::alloc::Global;
use std::process::ExitCode;

/// The kinds of cases of this program.
struct BasisKinds;

/// Takes the steps of a graph that is empty.
fn try_basis(alloc: Global, case: &Case, report: &mut Report) -> Result<(), CaseFault> {
    case.has_only(&[b"steps"])?;
    let graph = EnvGraph::new(alloc)?;
    let mut scene = BasisScene::new(alloc, graph);
    take_steps(alloc, &mut scene, case, report)
}

impl Kinds for BasisKinds {
    fn try_case(&self, alloc: Global, case: &Case, report: &mut Report) -> Result<(), CaseFault> {
        match kind_of(case.kind.as_bytes()) {
            Some(Kind::Basis) => try_basis(alloc, case, report),
            None => Err(CaseFault::Wrong(case.line, Wrong::Kind)),
        }
    }
}

fn main(rt: HostRuntime) -> ExitCode {
    ExitCode::from(run_cases(&rt, &BasisKinds))
}
