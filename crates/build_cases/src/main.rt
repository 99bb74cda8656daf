//! Cases of the manager: folders, edits and commands, and what became of the files; with the calls of the machine
//! below a command that no command shows.
#![tactic(auto)]

mod commands;
mod kind;
mod machine;
mod player;
mod words_of_call;

use capital_compilers::{Quiet, Shown};
use case_files::{Case, CaseFault, Kinds, Report, Wrong, run_cases};
use case_scenes::play;
use commands::Commands;
use kind::{Kind, kind_of};
use machine::try_on_machine;
use sml_compiler::SmlCompiler;
use std::alloc::Global;
use std::process::ExitCode;
use test_compilers::{Letters, Seamed};
use words_of_call::WordsOfCall;

/// The kinds of cases of this program.
#[derive(Drop)]
struct BuildKinds {
    rt: HostRuntime,
}

impl Kinds for BuildKinds {
    fn try_case(&self, alloc: Global, case: &Case, report: &mut Report) -> Result<(), CaseFault> {
        match kind_of(case.kind.as_bytes()) {
            Some(Kind::Letters) => play(alloc, Commands::<Letters>::new(alloc)?, case, report),
            Some(Kind::Seamed) => play(alloc, Commands::<Seamed>::new(alloc)?, case, report),
            Some(Kind::Quiet) => play(alloc, Commands::<Quiet>::new(alloc)?, case, report),
            Some(Kind::Shown) => play(alloc, Commands::<Shown>::new(alloc)?, case, report),
            Some(Kind::Build) => play(alloc, Commands::<SmlCompiler>::new(alloc)?, case, report),
            Some(Kind::Machine) => try_on_machine(self.rt, case, report),
            Some(Kind::Call) => play(alloc, WordsOfCall::new(alloc), case, report),
            None => Err(CaseFault::Wrong(case.line, Wrong::Kind)),
        }
    }
}

fn main(rt: HostRuntime) -> ExitCode {
    ExitCode::from(run_cases(&rt, &BuildKinds { rt }))
}
