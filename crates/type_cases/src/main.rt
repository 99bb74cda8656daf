//! Cases of what is below elaboration: type names, symbols, type trees, schemes and unification. Each kind of cases
//! calls one of them, and compares what it answers.
#![tactic(auto)]

mod closing;
mod kind;
mod naming;
mod node_lists;
mod plain_types;
mod schemes;
mod symbols;
mod trees;
mod unifying;
mod words;

use case_files::{Case, CaseFault, Kinds, Report, Wrong, run_cases};
use case_texts::{Answers, line, try_texts};
use cm_base::{NoMemory, Text};
use kind::{Kind, kind_of};
use std::alloc::Global;
use std::process::ExitCode;

/// The kinds of cases of this program.
struct TypeKinds;

/// What a library answers to a row, without a line feed; none where the row means nothing.
fn answer_of(alloc: Global, kind: Kind, text: &[u8]) -> Result<Option<Vec<u8>>, NoMemory> {
    match kind {
        Kind::Same => symbols::compared(alloc, text),
        Kind::Equality => symbols::equality(alloc, text),
        Kind::Make => trees::made(alloc, text),
        Kind::Part => trees::part(alloc, text),
        Kind::Copy => trees::copied(alloc, text),
        Kind::Nodes => node_lists::unfolded(alloc, text),
        Kind::Scheme => schemes::closed(alloc, text),
        Kind::Unify => Ok(None),
    }
}

impl Answers for Kind {
    fn answer(&self, alloc: Global, case: &Case, text: &Text) -> Result<Vec<u8>, CaseFault> {
        let given = match *self {
            Kind::Unify => unifying::unified(alloc, case, text.as_bytes())?,
            kind => answer_of(alloc, kind, text.as_bytes())?,
        };
        match given {
            Some(given) => Ok(line(alloc, given.as_slice())?),
            None => Err(CaseFault::Wrong(case.line, Wrong::Words)),
        }
    }
}

impl Kinds for TypeKinds {
    fn try_case(&self, alloc: Global, case: &Case, report: &mut Report) -> Result<(), CaseFault> {
        match kind_of(case.kind.as_bytes()) {
            Some(kind) => try_texts(alloc, &kind, (b"variables", b""), case, report),
            None => Err(CaseFault::Wrong(case.line, Wrong::Kind)),
        }
    }
}

fn main(rt: HostRuntime) -> ExitCode {
    ExitCode::from(run_cases(&rt, &TypeKinds))
}
