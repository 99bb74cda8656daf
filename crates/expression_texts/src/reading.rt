//! Texts are read as expressions.

use cm_base::{Diag, Fault, List, NoMemory, Place, Text};
use core_parser::{Cursor, parse_exp};
use derived_forms::to_bare;
use sml_lexer::{Lexeme, lex};
use sml_trees::{
    At, BareUnit, FullDec, FullExp, FullPat, FullStrBind, FullStrDec, FullStrExp, FullTopDec,
    FullUnit, FullValBind, Name,
};
use std::alloc::Global;

/// The name of the file of each text.
const FILE: &[u8] = b"a.sml";

/// The place of what is written around an expression.
const AROUND: At = At { line: 1, col: 1 };

/// A list of one item.
fn one<T: Drop>(alloc: Global, item: T) -> Result<List<T>, NoMemory> {
    let mut list = List::new(alloc);
    list.add(item)?;
    Ok(list)
}

/// The refusal of a lexeme behind an expression.
fn behind(alloc: Global, file: &Text, next: &Lexeme) -> Result<Fault, NoMemory> {
    Ok(Fault::Diag(Diag {
        number: 20,
        at: Place {
            file: file.copy()?,
            line: next.line,
            col: next.col,
        },
        names: List::new(alloc),
    }))
}

/// The expression that a text is.
fn written(alloc: Global, file: &Text, text: &Text) -> Result<FullExp, Fault> {
    let mut at = Cursor::new(alloc, file, lex(alloc, file, text)?)?;
    let exp = parse_exp(&mut at)?;
    match at.peek() {
        Some(next) => Err(behind(alloc, file, next)?),
        None => Ok(exp),
    }
}

/// `val _ = exp`
fn binding(alloc: Global, exp: FullExp) -> Result<FullStrDec, NoMemory> {
    let bind = FullValBind {
        recs: 0,
        pat: FullPat::Wild(AROUND),
        exp,
        at: AROUND,
    };
    let binds = one(alloc, bind)?;
    Ok(FullStrDec::Core(FullDec::Val(List::new(alloc), binds, AROUND)))
}

/// `structure A = struct val _ = exp end`
fn structure(alloc: Global, exp: FullExp) -> Result<FullTopDec, NoMemory> {
    let dec = binding(alloc, exp)?;
    let bind = FullStrBind {
        name: Name {
            text: Text::from_bytes(alloc, b"A")?,
            line: AROUND.line,
            col: AROUND.col,
        },
        seal: None,
        body: FullStrExp::Struct(one(alloc, dec)?, AROUND),
    };
    Ok(FullTopDec::Structures(one(alloc, bind)?, AROUND))
}

/// The bare unit of the structure whose one variable is the expression that a text is. A text is refused as an expression
/// is by the lexer, the parser and what makes trees bare, and with 20 at a lexeme behind the expression.
pub fn expression_unit(alloc: Global, text: &Text) -> Result<BareUnit, Fault> {
    let file = Text::from_bytes(alloc, FILE)?;
    let exp = written(alloc, &file, text)?;
    let topdec = structure(alloc, exp)?;
    let topdecs = one(alloc, topdec)?;
    to_bare(alloc, &FullUnit { file, topdecs })
}
