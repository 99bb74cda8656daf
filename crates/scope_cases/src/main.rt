//! Cases of scopes, and of types that admit equality: each step is a call, with what it answers.
#![tactic(auto)]

mod binding_steps;
mod entries;
mod equality;
mod finding_steps;
mod growth_steps;
mod kind;
mod packing_steps;
mod scene;

use case_files::{Case, CaseFault, Kinds, Report, Wrong, run_cases};
use case_texts::take_steps;
use equality::EqualityScene;
use kind::{Kind, kind_of};
use scene::ScopeScene;
use sml_modules::EnvGraph;
use std::alloc::Global;
use std::process::ExitCode;

/// The kinds of cases of this program.
struct ScopeKinds;

/// Takes the steps of a scope over an empty environment.
fn try_scopes(alloc: Global, case: &Case, report: &mut Report) -> Result<(), CaseFault> {
    case.has_only(&[b"steps"])?;
    let graph = EnvGraph::new(alloc)?;
    let mut scene = ScopeScene::new(alloc, graph)?;
    take_steps(alloc, &mut scene, case, report)
}

/// Takes the steps of some types.
fn try_equality(alloc: Global, case: &Case, report: &mut Report) -> Result<(), CaseFault> {
    case.has_only(&[b"steps"])?;
    let mut scene = EqualityScene::new(alloc);
    take_steps(alloc, &mut scene, case, report)
}

impl Kinds for ScopeKinds {
    fn try_case(&self, alloc: Global, case: &Case, report: &mut Report) -> Result<(), CaseFault> {
        match kind_of(case.kind.as_bytes()) {
            Some(Kind::Scopes) => try_scopes(alloc, case, report),
            Some(Kind::Equality) => try_equality(alloc, case, report),
            None => Err(CaseFault::Wrong(case.line, Wrong::Kind)),
        }
    }
}

fn main(rt: HostRuntime) -> ExitCode {
    ExitCode::from(run_cases(&rt, &ScopeKinds))
}
