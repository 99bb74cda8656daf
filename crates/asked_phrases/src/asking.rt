//! What is answered to a text.

use crate::parts::{declarations_of, expression_of};
use case_files::{CaseFault, Wrong};
use case_texts::refusal;
use cm_base::Text;
use declaration_texts::declaration_unit;
use expression_texts::expression_unit;
use sml_trees::{BareUnit, Dec, Exp};
use std::alloc::Global;

/// What is asked of expressions.
pub trait AsksExpressions {
    /// The lines that are answered to an expression.
    fn of_expression(&self, alloc: Global, exp: &Exp) -> Result<Vec<u8>, CaseFault>;
}

/// What is asked of declarations.
pub trait AsksDeclarations {
    /// The lines that are answered to declarations.
    fn of_declarations(&self, alloc: Global, dec: &Dec) -> Result<Vec<u8>, CaseFault>;
}

/// What is answered to the expression of a unit. One that isn't of one expression is an error of this line.
fn of_unit_expression<A: AsksExpressions>(
    alloc: Global,
    asked: &A,
    line: u32,
    unit: &BareUnit,
) -> Result<Vec<u8>, CaseFault> {
    match expression_of(unit) {
        Some(exp) => asked.of_expression(alloc, exp),
        None => Err(CaseFault::Wrong(line, Wrong::Words)),
    }
}

/// What is answered to the declarations of a unit. One that isn't one structure is an error of this line.
fn of_unit_declarations<A: AsksDeclarations>(
    alloc: Global,
    asked: &A,
    line: u32,
    unit: &BareUnit,
) -> Result<Vec<u8>, CaseFault> {
    match declarations_of(unit) {
        Some(dec) => asked.of_declarations(alloc, dec),
        None => Err(CaseFault::Wrong(line, Wrong::Words)),
    }
}

/// What is answered to the expression that a text is, or the text's refusal. The text stands in this line of the cases.
pub fn expression_answer<A: AsksExpressions>(
    alloc: Global,
    asked: &A,
    line: u32,
    text: &Text,
) -> Result<Vec<u8>, CaseFault> {
    match expression_unit(alloc, text) {
        Ok(unit) => of_unit_expression(alloc, asked, line, &unit),
        Err(fault) => Ok(refusal(alloc, &fault)?),
    }
}

/// What is answered to the declarations that a text is, or the text's refusal. The text stands in this line of the cases.
pub fn declarations_answer<A: AsksDeclarations>(
    alloc: Global,
    asked: &A,
    line: u32,
    text: &[u8],
) -> Result<Vec<u8>, CaseFault> {
    match declaration_unit(alloc, text) {
        Ok(unit) => of_unit_declarations(alloc, asked, line, &unit),
        Err(fault) => Ok(refusal(alloc, &fault)?),
    }
}
