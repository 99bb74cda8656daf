//! Cases of tables of types: each step is a call, with what it answers.
#![tactic(auto)]

mod aging;
mod asking;
mod growing;
mod kind;
mod labels;
mod making;
mod names;
mod scene;
mod undoing;

use case_files::{Case, CaseFault, Kinds, Report, Wrong, run_cases};
use case_texts::take_steps;
use kind::{Kind, kind_of};
use scene::TableScene;
use sml_types::TypeTable;
use std::alloc::Global;
use std::process::ExitCode;

/// The kinds of cases of this program.
struct TableKinds;

/// Takes the steps of a table without types.
fn try_table(alloc: Global, case: &Case, report: &mut Report) -> Result<(), CaseFault> {
    case.has_only(&[b"steps"])?;
    let table = TypeTable::new(alloc)?;
    let mut scene = TableScene::new(alloc, table);
    take_steps(alloc, &mut scene, case, report)
}

impl Kinds for TableKinds {
    fn try_case(&self, alloc: Global, case: &Case, report: &mut Report) -> Result<(), CaseFault> {
        match kind_of(case.kind.as_bytes()) {
            Some(Kind::Table) => try_table(alloc, case, report),
            None => Err(CaseFault::Wrong(case.line, Wrong::Kind)),
        }
    }
}

fn main(rt: HostRuntime) -> ExitCode {
    ExitCode::from(run_cases(&rt, &TableKinds))
}
