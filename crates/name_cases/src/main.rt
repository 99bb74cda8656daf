//! Cases of names: which unit provides each name, what groups show, and in which order units stand.
#![tactic(auto)]

mod building;
mod comparing;
mod counted;
mod graphs;
mod kind;
mod naming;
mod orders;
mod plain;
mod reading;
mod showing;

use case_files::{Case, CaseFault, Kinds, Report, Wrong, run_cases};
use kind::{Kind, kind_of};
use std::alloc::Global;
use std::process::ExitCode;

/// The kinds of cases of this program.
struct NameKinds;

impl Kinds for NameKinds {
    fn try_case(&self, alloc: Global, case: &Case, report: &mut Report) -> Result<(), CaseFault> {
        match kind_of(case.kind.as_bytes()) {
            Some(Kind::Names) => naming::try_names(alloc, case, report),
            Some(Kind::Order) => orders::try_order(alloc, case, report),
            Some(Kind::Compared) => comparing::try_compared(alloc, case, report),
            None => Err(CaseFault::Wrong(case.line, Wrong::Kind)),
        }
    }
}

fn main(rt: HostRuntime) -> ExitCode {
    ExitCode::from(run_cases(&rt, &NameKinds))
}
