//! Cases of graphs of environments: each step is a call, with what it answers.
#![tactic(auto)]

mod entries;
mod growth;
mod kind;
mod printed_types;
mod read_types;
mod scene;
mod steps_of_envs;
mod steps_of_interfaces;
mod steps_of_names;
mod steps_of_tops;
mod steps_of_walks;

use case_files::{Case, CaseFault, Kinds, Report, Wrong, run_cases};
use case_texts::take_steps;
use kind::{Kind, kind_of};
use scene::GraphScene;
use sml_modules::EnvGraph;
use std::alloc::Global;
use std::process::ExitCode;

/// The kinds of cases of this program.
struct GraphKinds;

/// Takes the steps of a graph that is empty.
fn try_graph(alloc: Global, case: &Case, report: &mut Report) -> Result<(), CaseFault> {
    case.has_only(&[b"steps"])?;
    let graph = EnvGraph::new(alloc)?;
    let mut scene = GraphScene::new(alloc, graph);
    take_steps(alloc, &mut scene, case, report)
}

impl Kinds for GraphKinds {
    fn try_case(&self, alloc: Global, case: &Case, report: &mut Report) -> Result<(), CaseFault> {
        match kind_of(case.kind.as_bytes()) {
            Some(Kind::Graph) => try_graph(alloc, case, report),
            None => Err(CaseFault::Wrong(case.line, Wrong::Kind)),
        }
    }
}

fn main(rt: HostRuntime) -> ExitCode {
    ExitCode::from(run_cases(&rt, &GraphKinds))
}
