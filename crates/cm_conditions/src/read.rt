//! Reads the text of a condition.

ghost use Rattle.cm_conditions.specs.Answers.{ReadsCondition};

use crate::cond::Cond;
use crate::cursor::Cursor;
use crate::evaluation::bad_condition;
use crate::lexing::lexemes;
use crate::reader::{Stop, condition};
use cm_base::{Diag, Fault, Place, Text};
use std::alloc::Global;

/// The condition that a text is. 3 at the place where it is none, and 12 on its file where more than 128
/// parentheses are open at once; what arises earlier in the text is the answer.
pub fn read_condition(alloc: Global, at: &Place, text: &Text) -> Result<Cond, Fault>
    ensures { ReadsCondition at.now text.now result }
{
    let found = lexemes(alloc, text.as_bytes())?;
    let mut cursor = Cursor {
        rest: found.as_slice(),
    };
    match condition(alloc, &mut cursor, 128) {
        Ok(cond) if cursor.rest.is_empty() => Ok(cond),
        Ok(_) => Err(Fault::Diag(bad_condition(alloc, at)?)),
        Err(Stop::Refused) => Err(Fault::Diag(bad_condition(alloc, at)?)),
        Err(Stop::TooDeep) => Err(Fault::Diag(Diag::on_file(alloc, 12, &at.file)?)),
        Err(Stop::NoMemory) => Err(Fault::NoMemory),
    }
}
