//! Cases of commands with tools: folders, edits, boxes of tools and commands, and what became of the files and the runs.
#![tactic(auto)]

mod commands;
mod kind;
mod player;

use case_files::{Case, CaseFault, Kinds, Report, Wrong, run_cases};
use case_scenes::play;
use commands::Commands;
use kind::{Kind, kind_of};
use sml_compiler::SmlCompiler;
use std::alloc::Global;
use std::process::ExitCode;
use test_compilers::Marked;

/// The kinds of cases of this program.
struct CommandKinds;

impl Kinds for CommandKinds {
    fn try_case(&self, alloc: Global, case: &Case, report: &mut Report) -> Result<(), CaseFault> {
        match kind_of(case.kind.as_bytes()) {
            Some(Kind::Marked) => play(alloc, Commands::<Marked>::new(alloc)?, case, report),
            Some(Kind::Build) => play(alloc, Commands::<SmlCompiler>::new(alloc)?, case, report),
            None => Err(CaseFault::Wrong(case.line, Wrong::Kind)),
        }
    }
}

fn main(rt: HostRuntime) -> ExitCode {
    ExitCode::from(run_cases(&rt, &CommandKinds))
}
