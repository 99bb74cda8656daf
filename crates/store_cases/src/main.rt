//! Cases of the store and of the linker: each kind of cases calls one, and compares what it answers.
#![tactic(auto)]

mod bin_lines;
mod bins;
mod chains;
mod kind;
mod links;
mod programs;
mod reading;
mod spaces;
mod store;

use case_files::{Case, CaseFault, Kinds, Report, Wrong, run_cases};
use case_texts::{Answers, try_texts};
use cm_base::Text;
use kind::{Kind, PathKind, kind_of};
use std::alloc::Global;
use std::process::ExitCode;

impl Answers for PathKind {
    fn answer(&self, alloc: Global, _case: &Case, text: &Text) -> Result<Vec<u8>, CaseFault> {
        match *self {
            PathKind::Unit => Ok(store::unit_path(alloc, text)?),
            PathKind::Interface => Ok(store::hash_path(alloc, text)?),
        }
    }
}

/// Cases of chains of units.
struct Chain;

impl Answers for Chain {
    fn answer(&self, alloc: Global, case: &Case, text: &Text) -> Result<Vec<u8>, CaseFault> {
        chains::read_again(alloc, case, text)
    }
}

/// The kinds of cases of this program.
struct StoreKinds;

impl Kinds for StoreKinds {
    fn try_case(&self, alloc: Global, case: &Case, report: &mut Report) -> Result<(), CaseFault> {
        match kind_of(case.kind.as_bytes()) {
            Some(Kind::Path(kind)) => try_texts(alloc, &kind, (b"", b""), case, report),
            Some(Kind::Link) => links::try_link(alloc, case, report),
            Some(Kind::Chain) => try_texts(alloc, &Chain, (b"code", b""), case, report),
            Some(Kind::Binfile) => store::try_binfile(alloc, case, report),
            Some(Kind::Read(kind, format)) => reading::try_read(alloc, kind, format, case, report),
            Some(Kind::Store) => store::try_store(alloc, case, report),
            None => Err(CaseFault::Wrong(case.line, Wrong::Kind)),
        }
    }
}

fn main(rt: HostRuntime) -> ExitCode {
    ExitCode::from(run_cases(&rt, &StoreKinds))
}
