//! Cases `select`: the items that conditional lines choose. A line is a directive or the number of an item.

use crate::conditions::{at_blank, definitions_of, modules_of};
use case_files::{Case, CaseFault, Part, Wrong, number_of, push_parts};
use case_texts::refusal;
use cm_base::{Fault, List, NoMemory, Place, Text};
use cm_conditions::{Line, LineBody, read_condition, select};
use std::alloc::Global;

/// The place of a line.
fn place(alloc: Global, line: u32) -> Result<Place, NoMemory> {
    Ok(Place {
        file: Text::from_bytes(alloc, b"main.cm")?,
        line,
        col: 1,
    })
}

/// The line of a directive with more behind its word; `None` where it is of another form.
fn directive(alloc: Global, at: &Place, line: &[u8]) -> Result<Option<LineBody>, Fault> {
    let Some((word, more)) = at_blank(line) else {
        return Ok(None);
    };
    let more = Text::from_bytes(alloc, more)?;
    match word {
        b"#if" => Ok(Some(LineBody::If(read_condition(alloc, at, &more)?))),
        b"#elif" => Ok(Some(LineBody::Elif(read_condition(alloc, at, &more)?))),
        b"#error" => Ok(Some(LineBody::Error(more))),
        _ => Ok(None),
    }
}

/// The line of a text; `None` where it is of no form.
fn body_of(alloc: Global, at: &Place, line: &[u8]) -> Result<Option<LineBody>, Fault> {
    match line {
        b"#else" => Ok(Some(LineBody::Else)),
        b"#endif" => Ok(Some(LineBody::Endif)),
        b"#error" => Ok(Some(LineBody::Error(Text::from_bytes(alloc, b"")?))),
        _ => match number_of(line) {
            Some(number) => Ok(Some(LineBody::Item(number))),
            None => directive(alloc, at, line),
        },
    }
}

/// Adds a line. One of no form, and a condition that is refused, is an error of the case.
fn add_line(
    alloc: Global,
    lines: &mut List<Line>,
    at: u32,
    line: &[u8],
    case: &Case,
) -> Result<(), CaseFault> {
    let at = place(alloc, at)?;
    match body_of(alloc, &at, line) {
        Ok(Some(body)) => Ok(lines.add(Line { at, body })?),
        Ok(None) => Err(CaseFault::Wrong(case.line, Wrong::Words)),
        Err(Fault::Diag(_diag)) => Err(CaseFault::Wrong(case.line, Wrong::Words)),
        Err(Fault::NoMemory) => Err(CaseFault::NoMemory),
    }
}

/// The lines of a text, the first of them on line 1.
fn lines_of(alloc: Global, case: &Case, text: &[u8]) -> Result<List<Line>, CaseFault> {
    let mut lines = List::new(alloc);
    let mut at = 0u32;
    for line in text.split(|byte| *byte == b'\n') {
        if line.is_empty() {
            continue;
        }
        at = at.saturating_add(1);
        add_line(alloc, &mut lines, at, line, case)?;
    }
    Ok(lines)
}

/// A line of numbers.
fn numbers_line(alloc: Global, numbers: &[u32]) -> Result<Vec<u8>, NoMemory> {
    let mut out = Vec::new(alloc);
    push_parts(alloc, &mut out, &[Part::Text(b"chosen")])?;
    for number in numbers {
        push_parts(
            alloc,
            &mut out,
            &[Part::Text(b" "), Part::Number(u64::from(*number))],
        )?;
    }
    push_parts(alloc, &mut out, &[Part::Text(b"\n")])?;
    Ok(out)
}

/// The items that are chosen, or the refusal.
pub fn selected(alloc: Global, case: &Case, text: &Text) -> Result<Vec<u8>, CaseFault> {
    let defs = definitions_of(alloc, case)?;
    let names = modules_of(alloc, case)?;
    let lines = lines_of(alloc, case, text.as_bytes())?;
    match select(alloc, &lines, &defs, &names) {
        Ok(items) => Ok(numbers_line(alloc, items.as_slice())?),
        Err(fault) => Ok(refusal(alloc, &fault)?),
    }
}
