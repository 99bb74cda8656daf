//! Cases of whole units over the initial basis: what each defines, or what it is refused for.
#![tactic(auto)]

mod elaborated;
mod kind;
mod shown;
mod source;

use case_files::{Case, CaseFault, Kinds, Report, Wrong, run_cases};
use case_texts::{Answers, try_texts};
use cm_base::Text;
use elaborated::answer_of;
use kind::{Kind, kind_of, options_of};
use source::source_of;
use std::alloc::Global;
use std::process::ExitCode;

/// The kinds of cases of this program.
struct UnitKinds;

impl Answers for Kind {
    fn answer(&self, alloc: Global, case: &Case, text: &Text) -> Result<Vec<u8>, CaseFault> {
        let options = options_of(alloc, case)?;
        let source = source_of(alloc, case, text)?;
        Ok(answer_of(alloc, *self, options, &source)?)
    }
}

impl Kinds for UnitKinds {
    fn try_case(&self, alloc: Global, case: &Case, report: &mut Report) -> Result<(), CaseFault> {
        match kind_of(case.kind.as_bytes()) {
            Some(kind) => try_texts(alloc, &kind, (b"before", b"options"), case, report),
            None => Err(CaseFault::Wrong(case.line, Wrong::Kind)),
        }
    }
}

fn main(rt: HostRuntime) -> ExitCode {
    ExitCode::from(run_cases(&rt, &UnitKinds))
}
