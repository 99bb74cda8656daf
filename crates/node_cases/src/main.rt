//! Cases of nodes: each step adds a node to a table, or writes one; or it reads bytes back as an interface, or those
//! of a unit's imports.
#![tactic(auto)]

mod hex_words;
mod imported;
mod kind;
mod restored;
mod scene;

use case_files::{Case, CaseFault, Kinds, Report, Wrong, run_cases};
use case_texts::take_steps;
use imported::ImportScene;
use kind::{Kind, kind_of};
use restored::RestoreScene;
use scene::NodeScene;
use std::alloc::Global;
use std::process::ExitCode;

/// The kinds of cases of this program.
struct NodeKinds;

/// Takes the steps of a table that is empty.
fn try_nodes(alloc: Global, case: &Case, report: &mut Report) -> Result<(), CaseFault> {
    case.has_only(&[b"steps"])?;
    let mut scene = NodeScene::new(alloc);
    take_steps(alloc, &mut scene, case, report)
}

/// Takes the steps that read interfaces.
fn try_restored(alloc: Global, case: &Case, report: &mut Report) -> Result<(), CaseFault> {
    case.has_only(&[b"steps"])?;
    let mut scene = RestoreScene::new(alloc);
    take_steps(alloc, &mut scene, case, report)
}

/// Takes the steps that read imports.
fn try_imports(alloc: Global, case: &Case, report: &mut Report) -> Result<(), CaseFault> {
    case.has_only(&[b"steps"])?;
    let mut scene = ImportScene::new(alloc);
    take_steps(alloc, &mut scene, case, report)
}

impl Kinds for NodeKinds {
    fn try_case(&self, alloc: Global, case: &Case, report: &mut Report) -> Result<(), CaseFault> {
        match kind_of(case.kind.as_bytes()) {
            Some(Kind::Nodes) => try_nodes(alloc, case, report),
            Some(Kind::Restored) => try_restored(alloc, case, report),
            Some(Kind::Imports) => try_imports(alloc, case, report),
            None => Err(CaseFault::Wrong(case.line, Wrong::Kind)),
        }
    }
}

fn main(rt: HostRuntime) -> ExitCode {
    ExitCode::from(run_cases(&rt, &NodeKinds))
}
