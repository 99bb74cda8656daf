//! Cases of the core in the initial basis: the type of each expression and the values of each declaration, or what it is
//! refused for.
#![tactic(auto)]

mod kind;
mod start;
mod typing;
mod values;

use asked_phrases::{AsksDeclarations, AsksExpressions, declarations_answer, expression_answer};
use case_files::{Case, CaseFault, Kinds, Report, Wrong, run_cases};
use case_texts::{Answers, try_texts};
use cm_base::Text;
use kind::{Kind, kind_of};
use sml_trees::{Dec, Exp};
use std::alloc::Global;
use std::process::ExitCode;
use typing::typed;
use values::declared;

/// The kinds of cases of this program.
struct CoreKinds;

/// What a case asks, where `ok` is enough of an answer or not.
#[derive(Clone, Copy)]
struct Asked {
    is_brief: bool,
}

impl AsksExpressions for Asked {
    fn of_expression(&self, alloc: Global, exp: &Exp) -> Result<Vec<u8>, CaseFault> {
        Ok(typed(alloc, exp, self.is_brief)?)
    }
}

impl AsksDeclarations for Asked {
    fn of_declarations(&self, alloc: Global, dec: &Dec) -> Result<Vec<u8>, CaseFault> {
        Ok(declared(alloc, dec, self.is_brief)?)
    }
}

impl Answers for Kind {
    fn answer(&self, alloc: Global, case: &Case, text: &Text) -> Result<Vec<u8>, CaseFault> {
        let asked = Asked {
            is_brief: case.find(b"briefly")?.is_some(),
        };
        match *self {
            Kind::ExpressionType => expression_answer(alloc, &asked, case.line, text),
            Kind::DeclaredValues => declarations_answer(alloc, &asked, case.line, text.as_bytes()),
        }
    }
}

impl Kinds for CoreKinds {
    fn try_case(&self, alloc: Global, case: &Case, report: &mut Report) -> Result<(), CaseFault> {
        match kind_of(case.kind.as_bytes()) {
            Some(kind) => try_texts(alloc, &kind, (b"briefly", b""), case, report),
            None => Err(CaseFault::Wrong(case.line, Wrong::Kind)),
        }
    }
}

fn main(rt: HostRuntime) -> ExitCode {
    ExitCode::from(run_cases(&rt, &CoreKinds))
}
